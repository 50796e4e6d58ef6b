// Format, restart, flushed, and the test of soundness.
ghost use Rattle.std.specs.Prelude.{◌≡◌};
ghost use Rattle.medium.specs.Medium.{observe, apply};
ghost use Rattle.capi.specs.Exported.{format_left, restart_left, flushed_left, soundness_left};

use super::figures::number;
use super::handed::{hand_back, put_pending, put_state};
use super::words::state_of;
use super::{CALLS_FIGURES, STATE_WORDS, WRONG_LENGTH};
use volume::Volume;

// Makes a volume on the medium; the words then hold its state.
#[unsafe(no_mangle)]
pub extern "C" fn streterva_format(
    state: &mut [usize],
    medium: &mut [u8],
    size: usize,
    rows: usize,
    disks: usize,
) -> usize
    ensures value { result ≡ (format_left state.old size rows disks (observe medium.old)).number }
    ensures state_after { state.new ≡ (format_left state.old size rows disks (observe medium.old)).words }
    ensures medium_after { medium.new ≡ apply (record { size = size; rows = rows }) (format_left state.old size rows disks (observe medium.old)).store medium.old }
{
    if state.len() != STATE_WORDS {
        return WRONG_LENGTH;
    }
    let reply = Volume::format(medium, size, rows, disks);
    put_state(state, reply.state);
    number(&reply.answer)
}

// Takes the state from the record, after a power cut or at any time.
#[unsafe(no_mangle)]
pub extern "C" fn streterva_restart(
    state: &mut [usize],
    medium: &[u8],
    figures: &mut [usize],
) -> usize
    ensures value { result ≡ (restart_left state.old figures.old (observe medium.now)).number }
    ensures state_after { state.new ≡ (restart_left state.old figures.old (observe medium.now)).words }
    ensures figures_after { figures.new ≡ (restart_left state.old figures.old (observe medium.now)).figures }
{
    if state.len() != STATE_WORDS {
        return WRONG_LENGTH;
    }
    if figures.len() != CALLS_FIGURES {
        return WRONG_LENGTH;
    }
    let reply = Volume::restart(medium);
    hand_back(reply, state, figures)
}

// Tells that all earlier stores are down.
#[unsafe(no_mangle)]
pub extern "C" fn streterva_flushed(state: &mut [usize]) -> usize
    ensures value { result ≡ (flushed_left state.old).number }
    ensures state_after { state.new ≡ (flushed_left state.old).words }
{
    let Some(v) = state_of(state) else {
        return WRONG_LENGTH;
    };
    let reply = v.flushed();
    put_pending(state, reply.state.pending);
    number(&reply.answer)
}

// 0 where the words hold a sound state, else 1.
#[unsafe(no_mangle)]
pub extern "C" fn streterva_soundness(state: &[usize]) -> usize
    ensures { result ≡ (soundness_left state.now).number }
{
    let Some(v) = state_of(state) else {
        return WRONG_LENGTH;
    };
    if v.is_sound() { 0 } else { 1 }
}
