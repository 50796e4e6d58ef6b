// The calls for programs in C and Rust, as a static library: one exported function for each call, on numbers and lent
// slices. The state crosses as sixteen words, the figures of an answer as a lent slice; each function returns
// document 01's number, or document 02's, or WRONG_LENGTH. What each of them leaves is in `specs/Exported.antt`, and for C in
// include/streterva.h.
//
// The exported functions take any input. What has a `requires` is seen in this crate alone.
#![tactic(auto)]

mod client_calls;
mod figures;
mod growth;
mod handed;
mod loads;
mod lookups;
mod pieces;
mod states;
mod tables;
mod words;

// The number where the lent words are no state's or the lent figures have the wrong length.
// Kept: a number, and no refusal of an enum, as all that the exported functions return: the C interface has it.
const WRONG_LENGTH: usize = 100;

// The words of a state, and the figures of the calls that report.
const STATE_WORDS: usize = 16;

// The last word of a state: 1 where a record is pending, 2 where blocks are, 3 for both.
const MOST_PENDING: usize = 3;

const CALLS_FIGURES: usize = 1;

const ADVANCE_FIGURES: usize = 4;

const ADDRESS_FIGURES: usize = 6;

const HOLDER_FIGURES: usize = 1;

const VIEW_FIGURES: usize = 2;

const LOAD_FIGURES: usize = 17;

const TABLE_MOVE_FIGURES: usize = 2;
