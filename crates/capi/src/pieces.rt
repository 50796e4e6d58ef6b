// Write and read.
ghost use Rattle.std.specs.Prelude.{◌≡◌};
ghost use Rattle.medium.specs.Medium.{observe, apply};
ghost use Rattle.volume.specs.States.{geometry};
ghost use Rattle.capi.specs.Exported.{write_left, read_left};
ghost use Rattle.capi.specs.Words.{state_from};

use super::WRONG_LENGTH;
use super::figures::number;
use super::handed::put_pending;
use super::words::state_of;
use layout::Block;

// Saves a piece as a block.
#[unsafe(no_mangle)]
pub extern "C" fn streterva_write(
    state: &mut [usize],
    medium: &mut [u8],
    block: usize,
    piece: &[u8],
) -> usize
    ensures value { result ≡ (write_left state.old block piece.now (observe medium.old)).number }
    ensures state_after { state.new ≡ (write_left state.old block piece.now (observe medium.old)).words }
    ensures medium_after { medium.new ≡ apply (geometry (state_from state.old)) (write_left state.old block piece.now (observe medium.old)).store medium.old }
{
    let Some(v) = state_of(state) else {
        return WRONG_LENGTH;
    };
    let reply = v.write(medium, Block(block), piece);
    put_pending(state, reply.state.pending);
    number(&reply.answer)
}

// Fills a piece with a block.
#[unsafe(no_mangle)]
pub extern "C" fn streterva_read(
    state: &[usize],
    medium: &[u8],
    block: usize,
    piece: &mut [u8],
) -> usize
    ensures value { result ≡ (read_left state.now block piece.old (observe medium.now)).number }
    ensures piece_after { piece.new ≡ (read_left state.now block piece.old (observe medium.now)).piece }
{
    let Some(v) = state_of(state) else {
        return WRONG_LENGTH;
    };
    let reply = v.read(medium, Block(block), piece);
    number(&reply.answer)
}
