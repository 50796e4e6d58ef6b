// Two clients on one volume (document 02, W10): each reads and writes through its span, and the rack's calls stay as
// they are. Both functions are offered to others and take any input. What a client reads does not depend on the other:
// `specs/TwoRuns.antt`.
#![tactic(auto, using(crate::proofs::ClientsCode::client_calls))]

ghost use Rattle.std.specs.Prelude.{◌≡◌, cond, Err};
ghost use Rattle.base.specs.declared.Refusal.TheVariants as refusals;
ghost use Rattle.medium.specs.Medium.{observe, apply};
ghost use Rattle.volume.specs.Sound.{sound};
ghost use Rattle.volume.specs.States.{geometry};
ghost use Rattle.clients.specs.ClientCalls.{client_read, client_write};

use base::Refusal;
use layout::Block;
use spans::Spans;
use volume::{Reply, Told, Volume};

// The refusal of a client's call outside its span: 1 comes before 21.
fn outside(state: Volume) -> Reply<Told>
    ensures { result ≡ record { state = state; answer = Err (cond (sound state) refusals.OutsideSpan refusals.NotSound) } }
{
    let refusal = if state.is_sound() {
        Refusal::OutsideSpan
    } else {
        Refusal::NotSound
    };
    Reply {
        state,
        answer: Err(refusal),
    }
}

// Kept: table and client stay parameters of the two calls, and no struct has both: one table serves both clients, and
// others call the two so. The two are no one function: each borrows for change what the other only reads.

// Fills a piece with block x, through the client's span.
pub fn client_read(
    table: Spans,
    client: usize,
    state: Volume,
    medium: &[u8],
    x: Block,
    piece: &mut [u8],
) -> Reply<Told>
    ensures value { result ≡ (client_read table client state x.0 piece.old (observe medium.now)).reply }
    ensures piece_after { piece.new ≡ (client_read table client state x.0 piece.old (observe medium.now)).piece }
{
    if !table.allows(client, x.0) {
        return outside(state);
    }
    state.read(medium, x, piece)
}

// Saves a piece as block x, through the client's span.
pub fn client_write(
    table: Spans,
    client: usize,
    state: Volume,
    medium: &mut [u8],
    x: Block,
    piece: &[u8],
) -> Reply<Told>
    ensures value { result ≡ (client_write table client state x.0 piece.now (observe medium.old)).reply }
    ensures medium_after { medium.new ≡ apply (geometry state) (client_write table client state x.0 piece.now (observe medium.old)).store medium.old }
{
    if !table.allows(client, x.0) {
        return outside(state);
    }
    state.write(medium, x, piece)
}
