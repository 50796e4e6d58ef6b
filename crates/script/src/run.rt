// A run: what the lines of a script have come to.
use printing::number_bytes;
use spans::{NO_SPANS, Spans};
use volume::Volume;

pub const MEDIUM_SIZE: usize = 18_432;

// The state, the span table, how many bytes of the medium are lent to a call, whether the drives have a write cache
// (where they have none, flushed is called after each call), the medium, and a medium that was kept.
#[derive(Clone, Copy)]
pub struct Run {
    pub state: Volume,
    pub table: Spans,
    lent: usize,
    pub cached: bool,
    pub medium: [u8; MEDIUM_SIZE],
    pub kept: [u8; MEDIUM_SIZE],
}

impl Run {
    // The state of zeros, a table of zeros, a medium whose byte k holds k % 251, all of it lent, and a write cache.
    pub fn new() -> Self {
        let mut medium = [0; MEDIUM_SIZE];
        number_bytes(&mut medium);
        Run {
            state: Volume::zeros(),
            table: NO_SPANS,
            lent: MEDIUM_SIZE,
            cached: true,
            medium,
            kept: [0; MEDIUM_SIZE],
        }
    }

    // The bytes that are lent to a call.
    pub fn lent(&self) -> &[u8] {
        &self.medium[..self.lent.min(MEDIUM_SIZE)]
    }

    pub fn lent_mut(&mut self) -> &mut [u8] {
        &mut self.medium[..self.lent.min(MEDIUM_SIZE)]
    }

    // Lends so many bytes of the medium from now on; false where it has not so many.
    pub fn lend(&mut self, len: usize) -> bool {
        if MEDIUM_SIZE < len {
            return false;
        }
        self.lent = len;
        true
    }

    // Takes over the state that a call handed back.
    pub fn take_over(&mut self, state: Volume) {
        self.state = if self.cached {
            state
        } else {
            state.flushed().state
        };
    }
}
