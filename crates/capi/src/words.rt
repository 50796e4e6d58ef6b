// The state in sixteen words.
ghost use Rattle.std.specs.Prelude.{◌≡◌, ◌&&◌, cond, eqb, Some, None};
ghost use Rattle.capi.specs.Words.{pending_word, pending_from, words_of, state_from, are_state};

use super::MOST_PENDING;
use volume::{Pending, Volume};

// What is pending, of its word.
#[tactic(auto, unfolding(crate::specs::Words::pending_from))]
fn pending_of(word: usize) -> Pending
    ensures { result ≡ pending_from word }
{
    Pending {
        records: word % 2 == 1,
        blocks: word / 2 == 1,
    }
}

// The word of what is pending.
#[tactic(auto, unfolding(crate::specs::Words::pending_word))]
pub fn pending_word(pending: Pending) -> usize
    ensures { result ≡ pending_word pending }
{
    match (pending.records, pending.blocks) {
        (true, true) => 3,
        (true, false) => 1,
        (false, true) => 2,
        (false, false) => 0,
    }
}

// The state of words, where they are a state's.
pub fn state_of(words: &[usize]) -> Option<Volume>
    ensures { result ≡ cond (are_state words.now) (Some (state_from words.now)) None }
{
    let [
        size,
        rows,
        growths,
        n0,
        n1,
        n2,
        n3,
        n4,
        n5,
        n6,
        n7,
        growing,
        window,
        recorded,
        copied,
        last,
    ] = *words
    else {
        return None;
    };
    if MOST_PENDING < last {
        return None;
    }
    Some(Volume {
        size,
        rows,
        growths,
        counts: [n0, n1, n2, n3, n4, n5, n6, n7],
        growing,
        window,
        recorded,
        copied,
        pending: pending_of(last),
    })
}

// The state of words, where they are a state's and so many figures are lent as there should be.
pub fn state_beside(words: &[usize], lent: usize, count: usize) -> Option<Volume>
    ensures { result ≡ cond (are_state words.now && eqb lent count) (Some (state_from words.now)) None }
{
    if lent != count {
        return None;
    }
    state_of(words)
}

// The words of a state.
pub fn words_of(v: Volume) -> [usize; 16]
    ensures { result ≡ words_of v }
{
    let [n0, n1, n2, n3, n4, n5, n6, n7] = v.counts;
    let last = pending_word(v.pending);
    [
        v.size, v.rows, v.growths, n0, n1, n2, n3, n4, n5, n6, n7, v.growing, v.window, v.recorded,
        v.copied, last,
    ]
}
