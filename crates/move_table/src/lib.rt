// The printed table of moves: document 02, W9. For firmware that takes the new disk of a moving block from a constant table.
//
// What is offered to others takes any input.
#![tactic(auto)]

mod places;
mod table;

pub use places::{disk_at, offset};

// How many entries the table has.
pub const ENTRY_COUNT: usize = 3_060;
