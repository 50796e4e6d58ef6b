// Both grows, copy, checkpoint and advance.
//
// Kept: the two grows, copy and checkpoint stay four functions that differ in their call alone: C has four names, and what
// they share is `state_beside` and `hand_back`.
ghost use Rattle.std.specs.Prelude.{◌≡◌};
ghost use Rattle.medium.specs.Medium.{observe, apply};
ghost use Rattle.volume.specs.States.{geometry};
ghost use Rattle.capi.specs.Exported.{grow_left, grow_beyond_doubling_left, copy_left, checkpoint_left, advance_left};
ghost use Rattle.capi.specs.Words.{state_from};

use super::figures::{advance_figures, number};
use super::handed::{hand_back, put_state};
use super::words::state_beside;
use super::{ADVANCE_FIGURES, CALLS_FIGURES, WRONG_LENGTH};
use layout::Block;

// Starts a growth to so many disks, at most twice as many as there are.
#[unsafe(no_mangle)]
pub extern "C" fn streterva_grow(
    state: &mut [usize],
    medium: &mut [u8],
    count: usize,
    figures: &mut [usize],
) -> usize
    ensures value { result ≡ (grow_left state.old count figures.old (observe medium.old)).number }
    ensures state_after { state.new ≡ (grow_left state.old count figures.old (observe medium.old)).words }
    ensures figures_after { figures.new ≡ (grow_left state.old count figures.old (observe medium.old)).figures }
    ensures medium_after { medium.new ≡ apply (geometry (state_from state.old)) (grow_left state.old count figures.old (observe medium.old)).store medium.old }
{
    let Some(v) = state_beside(state, figures.len(), CALLS_FIGURES) else {
        return WRONG_LENGTH;
    };
    hand_back(v.grow(medium, count), state, figures)
}

// Document 02, W7, "the one without 20": starts a growth to so many disks.
#[unsafe(no_mangle)]
pub extern "C" fn streterva_grow_beyond_doubling(
    state: &mut [usize],
    medium: &mut [u8],
    count: usize,
    figures: &mut [usize],
) -> usize
    ensures value { result ≡ (grow_beyond_doubling_left state.old count figures.old (observe medium.old)).number }
    ensures state_after { state.new ≡ (grow_beyond_doubling_left state.old count figures.old (observe medium.old)).words }
    ensures figures_after { figures.new ≡ (grow_beyond_doubling_left state.old count figures.old (observe medium.old)).figures }
    ensures medium_after { medium.new ≡ apply (geometry (state_from state.old)) (grow_beyond_doubling_left state.old count figures.old (observe medium.old)).store medium.old }
{
    let Some(v) = state_beside(state, figures.len(), CALLS_FIGURES) else {
        return WRONG_LENGTH;
    };
    hand_back(v.grow_beyond_doubling(medium, count), state, figures)
}

// Copies a block to its new spot.
#[unsafe(no_mangle)]
pub extern "C" fn streterva_copy(
    state: &mut [usize],
    medium: &mut [u8],
    block: usize,
    figures: &mut [usize],
) -> usize
    ensures value { result ≡ (copy_left state.old block figures.old (observe medium.old)).number }
    ensures state_after { state.new ≡ (copy_left state.old block figures.old (observe medium.old)).words }
    ensures figures_after { figures.new ≡ (copy_left state.old block figures.old (observe medium.old)).figures }
    ensures medium_after { medium.new ≡ apply (geometry (state_from state.old)) (copy_left state.old block figures.old (observe medium.old)).store medium.old }
{
    let Some(v) = state_beside(state, figures.len(), CALLS_FIGURES) else {
        return WRONG_LENGTH;
    };
    hand_back(v.copy(medium, Block(block)), state, figures)
}

// Records the copies made.
#[unsafe(no_mangle)]
pub extern "C" fn streterva_checkpoint(
    state: &mut [usize],
    medium: &mut [u8],
    figures: &mut [usize],
) -> usize
    ensures value { result ≡ (checkpoint_left state.old figures.old (observe medium.old)).number }
    ensures state_after { state.new ≡ (checkpoint_left state.old figures.old (observe medium.old)).words }
    ensures figures_after { figures.new ≡ (checkpoint_left state.old figures.old (observe medium.old)).figures }
    ensures medium_after { medium.new ≡ apply (geometry (state_from state.old)) (checkpoint_left state.old figures.old (observe medium.old)).store medium.old }
{
    let Some(v) = state_beside(state, figures.len(), CALLS_FIGURES) else {
        return WRONG_LENGTH;
    };
    hand_back(v.checkpoint(medium), state, figures)
}

// Copies the next block or, when none is left in the window, records the copies.
#[unsafe(no_mangle)]
pub extern "C" fn streterva_advance(
    state: &mut [usize],
    medium: &mut [u8],
    figures: &mut [usize],
) -> usize
    ensures value { result ≡ (advance_left state.old figures.old (observe medium.old)).number }
    ensures state_after { state.new ≡ (advance_left state.old figures.old (observe medium.old)).words }
    ensures figures_after { figures.new ≡ (advance_left state.old figures.old (observe medium.old)).figures }
    ensures medium_after { medium.new ≡ apply (geometry (state_from state.old)) (advance_left state.old figures.old (observe medium.old)).store medium.old }
{
    let Some(v) = state_beside(state, figures.len(), ADVANCE_FIGURES) else {
        return WRONG_LENGTH;
    };
    let reply = v.advance(medium);
    put_state(state, reply.state);
    figures.copy_from_slice(&advance_figures(reply.answer));
    number(&reply.answer)
}
