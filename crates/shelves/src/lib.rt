// A block shown without a copy, out of two lent shelves: document 02, W5. The first shelf holds the record and disks 0
// to k-1, the second the remaining disks.
//
// `view` and `view_answer` are offered to others and take any input. What has a `requires` is seen in this crate alone.
#![tactic(auto)]

mod answers;
mod views;

pub use answers::view_answer;
pub use views::view;

// Where a block starts: at this byte of the first shelf, or of the second.
#[derive(Clone, Copy, PartialEq, Eq, Debug)]
pub enum ViewStart {
    First(usize),
    Second(usize),
}
