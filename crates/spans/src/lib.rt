// The span table of two clients on one volume (document 02, W10), checked when made. Any input may be offered: no sum
// is made that could wrap.
#![tactic(auto)]

ghost use Rattle.std.specs.Prelude.{◌≤◌, ◌≡◌, ◌&&◌, eqb, length};
ghost use Rattle.spans.specs.Spans.{short, in_span, spans_hold, owned_by, allowed, made, span_words, spans_from};

use base::Refusal;

// The most that a span's first block and count make together.
const MOST_REACHED: usize = 16_000_000;

// The words of a table: first and count of client 0, first and count of client 1.
pub const SPAN_WORDS: usize = 4;

// A first block and a count.
#[derive(Clone, Copy)]
pub struct Span {
    pub first: usize,
    pub count: usize,
}

impl Span {
    // Is first plus count at most `MOST_REACHED`?
    #[tactic(auto, unfolding(crate::specs::Spans::short, crate::specs::Spans::reaches))]
    fn is_short(self) -> bool
        ensures { result ≡ short self }
    {
        self.first.saturating_add(self.count) <= MOST_REACHED
    }

    // Is block x in the span?
    #[tactic(auto, unfolding(crate::specs::Spans::in_span, crate::specs::Spans::reaches))]
    fn has(self, x: usize) -> bool
        ensures { result ≡ in_span self x }
    {
        self.first <= x && x - self.first < self.count
    }

    // Does it keep the rule with a span that does not start below it? It may reach past the first block of one that has
    // no block. Where it does not, it reaches no further than the upper.
    #[tactic(auto, using(crate::proofs::Theorems::in_order))]
    fn holds_below(self, upper: Span) -> bool
        requires { self.first ≤ upper.first }
        ensures { result ≡ spans_hold (record { zero = self; one = upper }) }
    {
        if self.count > upper.first - self.first {
            upper.count == 0 && self.is_short()
        } else {
            upper.is_short()
        }
    }
}

// The spans of client 0 and of client 1.
#[derive(Clone, Copy)]
pub struct Spans {
    pub zero: Span,
    pub one: Span,
}

// Zeros, which stand where making a table was refused. No client has a block by them.
pub const NO_SPANS: Spans = Spans {
    zero: Span { first: 0, count: 0 },
    one: Span { first: 0, count: 0 },
};

impl Spans {
    // Does the table keep the rule?
    #[tactic(auto, using(crate::proofs::Theorems::hold_flip))]
    fn hold(self) -> bool
        ensures { result ≡ spans_hold self }
    {
        if self.one.first < self.zero.first {
            self.one.holds_below(self.zero)
        } else {
            self.zero.holds_below(self.one)
        }
    }

    // Is block x the client's? A client that is neither 0 nor 1 has none.
    // Kept: a client is a number, since any may be given, and a wrong one is refused as a wrong block is, after 1.
    #[tactic(auto, using(crate::proofs::Theorems::owned_cases))]
    fn owns(self, client: usize, x: usize) -> bool
        ensures { result ≡ owned_by self client x }
    {
        match client {
            0 => self.zero.has(x),
            1 => self.one.has(x),
            _ => false,
        }
    }

    // May this client read and write block x? Where it may not, its call gets 21.
    #[tactic(auto, unfolding(crate::specs::Spans::allowed))]
    pub fn allows(self, client: usize, x: usize) -> bool
        ensures { result ≡ allowed self client x }
    {
        self.owns(client, x) && self.hold()
    }
}

// May this client read and write block x, by the table of these words? Not where they are not as many as a table's.
#[tactic(auto, unfolding(crate::specs::Spans::spans_from))]
pub fn allows_words(words: &[usize], client: usize, x: usize) -> bool
    ensures { result ≡ (eqb (length words.now) span_words && allowed (spans_from words.now) client x) }
{
    if words.len() != SPAN_WORDS {
        return false;
    }
    let zero = Span {
        first: words[0],
        count: words[1],
    };
    let one = Span {
        first: words[2],
        count: words[3],
    };
    Spans { zero, one }.allows(client, x)
}

// Makes a table, or refuses with 21.
#[tactic(auto, unfolding(crate::specs::Spans::made))]
pub fn make_spans(zero: Span, one: Span) -> Result<Spans, Refusal>
    ensures { result ≡ made (record { zero = zero; one = one }) }
{
    let t = Spans { zero, one };
    if t.hold() {
        Ok(t)
    } else {
        Err(Refusal::OutsideSpan)
    }
}
