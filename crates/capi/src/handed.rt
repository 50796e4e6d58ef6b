// What a call hands back, put into the lent slices.
ghost use Rattle.std.specs.Prelude.{◌≡◌, length, set};
ghost use Rattle.volume.specs.Answers.{number};
ghost use Rattle.capi.specs.Figures.{calls_figures};
ghost use Rattle.capi.specs.Words.{state_words, pending_word, words_of};

use super::figures::{calls_told, number};
use super::words::{pending_word, words_of};
use volume::{Pending, Reply, Told, Volume};

// Stores a state into its words.
pub fn put_state(words: &mut [usize], v: Volume)
    requires { length words.old ≡ state_words }
    ensures { words.new ≡ words_of v }
{
    words.copy_from_slice(&words_of(v));
}

// Stores what is pending into the words of a state.
pub fn put_pending(words: &mut [usize], pending: Pending)
    requires { length words.old ≡ state_words }
    ensures { words.new ≡ set words.old 15 (pending_word pending) }
{
    words[15] = pending_word(pending);
}

// Hands back a reply that reports the calls left: the state, the figure, the number.
pub fn hand_back(reply: Reply<Told>, words: &mut [usize], figures: &mut [usize]) -> usize
    requires words_len { length words.old ≡ state_words }
    requires figures_len { length figures.old ≡ 1 }
    ensures value { result ≡ number reply.answer }
    ensures words_after { words.new ≡ words_of reply.state }
    ensures figures_after { figures.new ≡ calls_figures reply.answer }
{
    put_state(words, reply.state);
    figures[0] = calls_told(reply.answer);
    number(&reply.answer)
}
