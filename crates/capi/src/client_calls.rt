// Two clients on one volume. The span table crosses as four lent words.
ghost use Rattle.std.specs.Prelude.{◌≡◌, cond, eqb, length, Some, None};
ghost use Rattle.medium.specs.Medium.{observe, apply};
ghost use Rattle.volume.specs.Sound.{sound};
ghost use Rattle.volume.specs.States.{geometry};
ghost use Rattle.spans.specs.Spans.{span_words, spans_from};
ghost use Rattle.capi.specs.Clients.{words_of_spans, spans_left, client_read_left, client_write_left};
ghost use Rattle.capi.specs.Exported.{wrong_length};
ghost use Rattle.capi.specs.Words.{state_from, are_state};

use super::WRONG_LENGTH;
use super::figures::number;
use super::pieces::{streterva_read, streterva_write};
use super::words::state_of;
use base::Refusal;
use spans::{NO_SPANS, Span, Spans};

// The span table of words, where they are as many as a table's.
fn spans_of(words: &[usize]) -> Option<Spans>
    ensures { result ≡ cond (eqb (length words.now) span_words) (Some (spans_from words.now)) None }
{
    let [zero_first, zero_count, one_first, one_count] = *words else {
        return None;
    };
    let zero = Span {
        first: zero_first,
        count: zero_count,
    };
    let one = Span {
        first: one_first,
        count: one_count,
    };
    Some(Spans { zero, one })
}

// Stores a span table into its words.
#[tactic(auto, unfolding(crate::specs::Clients::words_of_spans))]
fn put_spans(words: &mut [usize], table: Spans)
    requires { length words.old ≡ span_words }
    ensures { words.new ≡ words_of_spans table }
{
    let Spans { zero, one } = table;
    words.copy_from_slice(&[zero.first, zero.count, one.first, one.count]);
}

// What a call outside the client's span is refused with. A state that does not fit comes first, then 1.
fn outside(words: &[usize]) -> usize
    ensures { result ≡ cond (are_state words.now) (cond (sound (state_from words.now)) 21 1) wrong_length }
{
    let Some(v) = state_of(words) else {
        return WRONG_LENGTH;
    };
    if v.is_sound() {
        Refusal::OutsideSpan.number()
    } else {
        Refusal::NotSound.number()
    }
}

// Makes a span table, or refuses with 21 and leaves zeros.
#[unsafe(no_mangle)]
pub extern "C" fn streterva_spans(spans: &mut [usize]) -> usize
    ensures value { result ≡ (spans_left spans.old).number }
    ensures spans_after { spans.new ≡ (spans_left spans.old).words }
{
    let Some(asked) = spans_of(spans) else {
        return WRONG_LENGTH;
    };
    let made = spans::make_spans(asked.zero, asked.one);
    put_spans(spans, made.unwrap_or(NO_SPANS));
    number(&made)
}

// Fills a piece with a block, through the client's span. It calls `streterva_read`, which tests the state, and not the call
// of `clients`: with a second caller `Volume::read` would be a function of its own in the library, and the state be copied
// for it.
#[unsafe(no_mangle)]
pub extern "C" fn streterva_client_read(
    spans: &[usize],
    client: usize,
    state: &[usize],
    medium: &[u8],
    block: usize,
    piece: &mut [u8],
) -> usize
    ensures value { result ≡ (client_read_left spans.now client state.now block piece.old (observe medium.now)).number }
    ensures piece_after { piece.new ≡ (client_read_left spans.now client state.now block piece.old (observe medium.now)).piece }
{
    let Some(table) = spans_of(spans) else {
        return WRONG_LENGTH;
    };
    if table.allows(client, block) {
        streterva_read(state, medium, block, piece)
    } else {
        outside(state)
    }
}

// Saves a piece as a block, through the client's span.
#[unsafe(no_mangle)]
pub extern "C" fn streterva_client_write(
    spans: &[usize],
    client: usize,
    state: &mut [usize],
    medium: &mut [u8],
    block: usize,
    piece: &[u8],
) -> usize
    ensures value { result ≡ (client_write_left spans.now client state.old block piece.now (observe medium.old)).number }
    ensures state_after { state.new ≡ (client_write_left spans.now client state.old block piece.now (observe medium.old)).words }
    ensures medium_after { medium.new ≡ apply (geometry (state_from state.old)) (client_write_left spans.now client state.old block piece.now (observe medium.old)).store medium.old }
{
    let Some(table) = spans_of(spans) else {
        return WRONG_LENGTH;
    };
    if table.allows(client, block) {
        streterva_write(state, medium, block, piece)
    } else {
        outside(state)
    }
}
