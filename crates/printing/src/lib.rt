// Lent buffers and the digits of a number, for the program `script`. What is printed is tested, not proved; the functions here
// are proved safe.
#![tactic(auto)]

mod buffers;
mod digits;

pub use buffers::{first_changed, last_changed, number_bytes, put_bytes};
pub use digits::with_digit;
