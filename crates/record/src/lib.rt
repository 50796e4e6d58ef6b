// The record's 512 bytes: document 01, "Medium, state, record". Thirteen numbers in columns of ten bytes
// (Z, s, t, N[0] to N[7], growing, w), 64 marks, spaces and a line feed. Knows nothing of the state
// and of what makes one sound.
#![tactic(auto)]

mod columns;
mod read;
mod write;

pub use columns::{put_number, read_column};
pub use read::read_record;
pub use write::write_record;

// What reading a column finds.
#[derive(Clone, Copy)]
pub enum Column {
    Number(usize),
    Blank,
    NotANumber,
}

// What a record holds: the numbers in the order of their columns, and the marks.
#[derive(Clone, Copy)]
pub struct Record {
    pub numbers: [usize; 13],
    pub marks: [bool; 64],
}
