// One function for all calls but format and the look-ups: its contract is `promise`'s `call_outcome`, the calls that demand 3
// speaks of. It is offered to others and takes any input.
#![tactic(auto)]

mod making;

use layout::Block;
pub use making::make;

// A call with its numbers; the piece of a write or a read is lent beside it.
#[derive(Clone, Copy)]
pub enum Call {
    Grow(usize),
    GrowBeyondDoubling(usize),
    Copy(Block),
    Checkpoint,
    Advance,
    Write(Block),
    Read(Block),
    Restart,
    Flushed,
}
