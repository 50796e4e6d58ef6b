// Making a call.
ghost use Rattle.std.specs.Prelude.{◌≡◌};
ghost use Rattle.medium.specs.Medium.{observe, apply};
ghost use Rattle.volume.specs.States.{geometry};
ghost use Rattle.promise.specs.Lists.{call_outcome};
ghost use Rattle.calls.specs.Asked.{asked, piece_after};

use super::Call;
use volume::{Reply, Told, Volume};

// Makes a call: write saves the piece, read fills it, every other call leaves it.
pub fn make(state: Volume, medium: &mut [u8], call: Call, piece: &mut [u8]) -> Reply<Told>
    ensures value { result ≡ (call_outcome (asked call piece.old) state (observe medium.old)).reply }
    ensures medium_after { medium.new ≡ apply (geometry state) (call_outcome (asked call piece.old) state (observe medium.old)).store medium.old }
    ensures piece_after { piece.new ≡ piece_after call piece.old (call_outcome (asked call piece.old) state (observe medium.old)) }
{
    match call {
        Call::Grow(count) => state.grow(medium, count),
        Call::GrowBeyondDoubling(count) => state.grow_beyond_doubling(medium, count),
        Call::Copy(x) => state.copy(medium, x),
        Call::Checkpoint => state.checkpoint(medium),
        Call::Advance => state.advance(medium),
        Call::Write(x) => state.write(medium, x, piece),
        Call::Read(x) => state.read(medium, x, piece),
        Call::Restart => Volume::restart(medium),
        Call::Flushed => state.flushed(),
    }
}
