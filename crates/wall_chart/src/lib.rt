// The wall chart of the drives: document 02, W1. A table of the volume's spots in bytes, a line a row and ten columns a
// disk, put into a lent page.
//
// `put_chart` and `put_chart_of_record` are offered to others and take any input. What has a `requires` is seen in this
// crate alone.
#![tactic(auto)]

mod lines;
mod pages;

pub use pages::{put_chart, put_chart_of_record};
