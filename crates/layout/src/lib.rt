// Where every block of the growing striped volume lives: document 01, "Layout after t growths". Knows
// numbers only. The code for windows and marks, which are defined here too, stands in `window`.
//
// The functions here serve the crates above and are not offered to others: their types and `requires` are the limits of
// a sound volume.
#![tactic(auto)]

mod growth;
mod history;

pub use growth::GrowthDisks;
pub use history::{History, newest_growth};

// Document 01's block: an address in the volume.
#[derive(Clone, Copy, PartialEq, Eq, Debug)]
pub struct Block(pub usize);

// Document 01's row: a position on one disk.
#[derive(Clone, Copy, PartialEq, Eq, Debug)]
pub struct Row(pub usize);

// Document 01's spot (d, b).
#[derive(Clone, Copy, PartialEq, Eq, Debug)]
pub struct Spot {
    pub disk: usize,
    pub row: Row,
}

// Document 01's head, body and tail: by which rule a moving block gets its new disk.
#[derive(Clone, Copy, PartialEq, Eq, Debug)]
pub enum Part {
    Head,
    Body,
    Tail,
}

// What one growth does with a block.
#[derive(Clone, Copy, PartialEq, Eq, Debug)]
pub enum Change {
    Moved(Part),
    Added,
    Stays,
}

// Document 01's "why it is there", of a block at its spot: set out at format, added by a growth, or moved
// there by one. Growths are told by number, from 1.
#[derive(Clone, Copy, PartialEq, Eq, Debug)]
pub enum Reason {
    SetOut,
    AddedBy(usize),
    MovedBy(usize, Part),
}

// What address tells of a block: its spot, why it is there, and by how many growths it was moved.
#[derive(Clone, Copy, PartialEq, Eq, Debug)]
pub struct Address {
    pub spot: Spot,
    pub reason: Reason,
    pub moves: usize,
}
