// The growing striped volume: its state by value, and as its methods the calls of document 01 and, of document 02,
// `flushed` and the grow without 20. Each call takes the state and hands the next one back, beside the answer: what was
// asked for, or the refusal.
//
// The calls, `is_sound`, `disk_count`, `zeros` and the limits are offered to others and take any input. What has a
// `requires` is not offered to others: it is seen in this crate alone, but for what crates above need: `open_blocks` and
// `live_spot`, by which many blocks are addressed after one test of soundness.
#![tactic(auto)]

mod calls;
mod flush;
mod growth;
mod history;
mod live;
mod lookup;
mod sound;
mod state;

use base::Refusal;
use layout::{Block, Part, Spot};

// Which stores may not be down: that of a record, and those of blocks. It is kept in memory, never in the record.
#[derive(Clone, Copy)]
pub struct Pending {
    pub records: bool,
    pub blocks: bool,
}

// Document 01's state: Z, s, t, the counts N[0] to N[7], growing (0 or 1), w, and the two sets of marks, each a word with
// mark j as its bit j; and what is pending.
#[derive(Clone, Copy)]
pub struct Volume {
    pub size: usize,
    pub rows: usize,
    pub growths: usize,
    pub counts: [usize; 8],
    pub growing: usize,
    pub window: usize,
    pub recorded: usize,
    pub copied: usize,
    pub pending: Pending,
}

// What an advance did: copied the block, which is the head, body or tail of its window; recorded the copies; or
// recorded the last of them and so finished the growth.
#[derive(Clone, Copy)]
pub enum Advanced {
    Copied(Block, Part),
    Recorded,
    Finished,
}

// What an accepted call on a medium tells: that it is done, that so many advance calls are left, or what an advance did
// with so many advance calls left.
#[derive(Clone, Copy)]
pub enum Told {
    Done,
    CallsLeft(usize),
    Advanced(Advanced, usize),
}

// What a call hands back.
#[derive(Clone, Copy)]
pub struct Reply<T> {
    pub state: Volume,
    pub answer: Result<T, Refusal>,
}

// The spot that a block is copied from, with the mark of the block.
#[derive(Clone, Copy)]
struct MarkedSpot {
    spot: Spot,
    mark: usize,
}
