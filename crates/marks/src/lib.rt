// The marks of a growth and what they say of its blocks, what is left to copy, and tests of counts and
// of stages: a set of 64 marks is a word, mark j its bit j.
//
// The functions here serve the crates above and are not offered to others: their `requires` are the
// limits of a sound volume.
#![tactic(auto)]

mod blocks;
mod copies;
mod counts;
mod stages;
mod words;

pub use counts::{counts_rise, zeros_after};
use layout::{Block, Part, Spot};
pub use words::{has_mark, marks_of, with_mark, word_of};

// Document 01's growing, w and the two sets of marks of a state.
#[derive(Clone, Copy, PartialEq, Eq, Debug)]
pub struct Stage {
    pub growing: usize,
    pub window: usize,
    pub recorded: usize,
    pub copied: usize,
}

// The block of a window to copy next, its part, the old spot that it is copied from, and its mark.
#[derive(Clone, Copy, PartialEq, Eq, Debug)]
pub struct NextCopy {
    pub block: Block,
    pub part: Part,
    pub from: Spot,
    pub mark: usize,
}
