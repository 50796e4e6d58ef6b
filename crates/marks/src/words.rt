// Sets of 64 marks as words: mark j is bit j.
#![tactic(auto, using(crate::proofs::MarkWords::within_word, crate::proofs::MarkWords::without_word, base::proofs::Bits::bit_at))]

ghost use Rattle.std.specs.Prelude.{◌≡◌, true, false, ◌+◌, ◌-◌, ◌^◌, ◌<◌, ◌≤◌, min, get_or, set};
ghost use Rattle.layout.specs.Limits.{most_disks};
ghost use Rattle.marks.specs.Marks.{within, moving_marks, difference};
ghost use Rattle.base.specs.Bits.{word_of};
ghost use Rattle.marks.specs.Words.{marks_of};

use window::Window;

// Are the marks of a all in b?
pub fn is_within(a: usize, b: usize) -> bool
    ensures { result ≡ within (marks_of a) (marks_of b) }
{
    a & b == a
}

// Is mark j set?
pub fn has_mark(marks: usize, j: usize) -> bool
    requires { j < 64 }
    ensures { result ≡ get_or (marks_of marks) j false }
{
    (marks >> j) % 2 == 1
}

// The marks with mark j set.
pub fn with_mark(marks: usize, j: usize) -> usize
    requires { j < 64 }
    ensures { result ≡ word_of (set (marks_of marks) j true) }
{
    marks | (1usize << j)
}

// The marks of a that are not in b.
pub fn without(a: usize, b: usize) -> usize
    ensures { marks_of result ≡ difference (marks_of a) (marks_of b) }
{
    a & !b
}

// The marks of disk d, from its lowest on, in a window cut off to so many rows: its moving blocks are in the n rows
// from row d on, and a mark is set where the row exists.
fn disk_marks(n: usize, rows: usize, d: usize) -> usize
    requires { n ≤ most_disks }
    ensures { result + 1 ≡ 2 ^ min n (rows - d) }
{
    let left = rows.saturating_sub(d);
    (1usize << n.min(left)) - 1
}

// The marks of a window that is cut off, disk by disk, the highest disk first.
fn cut_marks(window: Window) -> usize
    ensures { result ≡ word_of (moving_marks window.growth.old window.growth.added window.rows window.number) }
{
    let n = window.growth.added;
    let rows = window
        .rows
        .saturating_sub(window.number * window.growth.disks());
    let mut word = 0;
    for d in (0..window.growth.old).rev() {
        word = word * (1usize << n) + disk_marks(n, rows, d);
    }
    word
}

// The marks of the moving blocks of a window whose rows exist.
pub fn moving_marks(window: Window) -> usize
    ensures { marks_of result ≡ moving_marks window.growth.old window.growth.added window.rows window.number }
{
    let k = window.growth.disks();
    // The last row with a moving block is k - 2 rows into the window.
    if window.number * k + (k - 1) <= window.rows {
        return usize::MAX >> (64 - window.growth.old * window.growth.added);
    }
    cut_marks(window)
}

// The marks of a word.
pub fn marks_of(word: usize) -> [bool; 64]
    ensures { result ≡ marks_of word }
{
    let mut marks = [false; 64];
    let mut rest = word;
    for mark in marks.iter_mut() {
        // No further marks: none at all while no growth runs.
        if rest == 0 {
            break;
        }
        *mark = rest % 2 == 1;
        rest /= 2;
    }
    marks
}

// The word of marks.
pub fn word_of(marks: [bool; 64]) -> usize
    ensures { result ≡ word_of marks }
{
    let mut word = 0;
    for mark in marks.iter().rev() {
        word = word * 2 + usize::from(*mark);
    }
    word
}
