// Address, holder and view.
ghost use Rattle.std.specs.Prelude.{◌≡◌};
ghost use Rattle.capi.specs.Exported.{address_left, holder_left, view_left};

use super::figures::{address_figures, block_told, number, view_figures};
use super::words::state_beside;
use super::{ADDRESS_FIGURES, HOLDER_FIGURES, VIEW_FIGURES, WRONG_LENGTH};
use layout::{Block, Row, Spot};

// Where a block lives, why, and by how many growths it was moved.
#[unsafe(no_mangle)]
pub extern "C" fn streterva_address(state: &[usize], block: usize, figures: &mut [usize]) -> usize
    ensures value { result ≡ (address_left state.now block figures.old).number }
    ensures figures_after { figures.new ≡ (address_left state.now block figures.old).figures }
{
    let Some(v) = state_beside(state, figures.len(), ADDRESS_FIGURES) else {
        return WRONG_LENGTH;
    };
    let reply = v.address(Block(block));
    figures.copy_from_slice(&address_figures(reply.answer));
    number(&reply.answer)
}

// The block that lives at a spot.
#[unsafe(no_mangle)]
pub extern "C" fn streterva_holder(
    state: &[usize],
    disk: usize,
    row: usize,
    figures: &mut [usize],
) -> usize
    ensures value { result ≡ (holder_left state.now (record { disk = disk; row = record { 0 = row } }) figures.old).number }
    ensures figures_after { figures.new ≡ (holder_left state.now (record { disk = disk; row = record { 0 = row } }) figures.old).figures }
{
    let Some(v) = state_beside(state, figures.len(), HOLDER_FIGURES) else {
        return WRONG_LENGTH;
    };
    let p = Spot {
        disk,
        row: Row(row),
    };
    let reply = v.holder(p);
    figures[0] = block_told(reply.answer);
    number(&reply.answer)
}

// On which of two shelves, with disks 0 to k-1 on the first, a block is, and at which byte of it.
#[unsafe(no_mangle)]
pub extern "C" fn streterva_view(
    state: &[usize],
    first: usize,
    second: usize,
    k: usize,
    block: usize,
    figures: &mut [usize],
) -> usize
    ensures value { result ≡ (view_left state.now first second k block figures.old).number }
    ensures figures_after { figures.new ≡ (view_left state.now first second k block figures.old).figures }
{
    let Some(v) = state_beside(state, figures.len(), VIEW_FIGURES) else {
        return WRONG_LENGTH;
    };
    let answer = shelves::view_answer(v, first, second, k, Block(block));
    figures.copy_from_slice(&view_figures(answer));
    number(&answer)
}
