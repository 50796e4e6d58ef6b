// What is left to copy in a window of a growth.
ghost use Rattle.std.specs.Prelude.{◌≡◌, false, cond, not, ◌&&◌, ◌⊎◌, ◌<◌, ◌≤◌, ◌*◌, eqb, get_or, IfNone, IfSome};
ghost use Rattle.base.specs.Below.{count};
ghost use Rattle.layout.specs.Limits.{most_rows};
ghost use Rattle.layout.specs.History.{history, old_count, added_count};
ghost use Rattle.layout.specs.Windows.{windows, row_exists, marked_blocks, next_of_window, all_copied, calls_left, calls_left_by_marks};
ghost use Rattle.marks.specs.Marks.{moving_marks, difference, first_unmarked, as_next_copy};
ghost use Rattle.marks.specs.Words.{marks_of};

use super::words::{is_within, moving_marks, without};
use super::{NextCopy, Stage};
use layout::History;
use window::Window;

// The marks of the moving blocks of a window that are not set.
fn unset_marks(window: Window, marks: usize) -> usize
    ensures { marks_of result ≡ difference (moving_marks window.growth.old window.growth.added window.rows window.number) (marks_of marks) }
{
    without(moving_marks(window), marks)
}

// The lowest mark of a window that is not set and whose row exists, if there is one.
fn first_unmarked(window: Window, marks: usize) -> Option<usize>
    ensures none { IfNone result (first_unmarked window.growth.old window.growth.added window.rows window.number (marks_of marks) ≡ window.growth.old * window.growth.added) }
    ensures lowest { IfSome result (λ j. (j ≡ first_unmarked window.growth.old window.growth.added window.rows window.number (marks_of marks)) × (j < window.growth.old * window.growth.added)) }
{
    let left = unset_marks(window, marks);
    if left == 0 {
        return None;
    }
    Some(left.trailing_zeros() as usize)
}

// The moving blocks of a window without a mark.
fn unmarked(window: Window, marks: usize) -> usize
    ensures { result ≡ count (λ j. row_exists window.growth.old window.growth.added window.rows window.number j && not (get_or (marks_of marks) j false)) (window.growth.old * window.growth.added) }
{
    unset_marks(window, marks).count_ones() as usize
}

// U + R - w of the growth of window w, from the marks of the copied blocks of the window.
fn calls_left_by_marks(window: Window, marks: usize) -> usize
    requires rows { window.rows ≤ most_rows }
    requires number { window.number < windows window.growth.old window.growth.added window.rows }
    ensures { result ≡ calls_left_by_marks window.growth.old window.growth.added window.rows window.number (marks_of marks) }
{
    let all = window::window_count(window.growth, window.rows);
    let here = unmarked(window, marks);
    let later = window::later_moves(window.growth, window.rows, window.number);
    here + later + all - window.number
}

impl Stage {
    // The window of the newest growth that is under way.
    fn window_now(self, h: History) -> Window
        requires grown { 0 < h.growths }
        requires window { let counts = history h.growths h.counts.now in self.window < windows (old_count counts) (added_count counts) h.rows }
        ensures old { result.growth.old ≡ old_count (history h.entry.growths h.entry.counts.now) }
        ensures added { result.growth.added ≡ added_count (history h.entry.growths h.entry.counts.now) }
        ensures rows { result.rows ≡ h.entry.rows }
        ensures number { result.number ≡ self.window }
    {
        Window {
            growth: h.newest_growth(),
            rows: h.rows,
            number: self.window,
        }
    }

    // Are all moving blocks of the window copied?
    pub fn all_copied(self, h: History) -> bool
        requires grown { 0 < h.growths }
        requires window { let counts = history h.growths h.counts.now in self.window < windows (old_count counts) (added_count counts) h.rows }
        ensures { let counts = history h.entry.growths h.entry.counts.now in result ≡ all_copied h.entry.rows counts self.window (marked_blocks h.entry.rows counts self.window (marks_of self.copied)) }
    {
        is_within(moving_marks(self.window_now(h)), self.copied)
    }

    // The block of the window with the lowest mark that is not set; none where all are copied.
    pub fn next_copy(self, h: History) -> Option<NextCopy>
        requires grown { 0 < h.growths }
        requires window { let counts = history h.growths h.counts.now in self.window < windows (old_count counts) (added_count counts) h.rows }
        ensures { let counts = history h.entry.growths h.entry.counts.now in result ≡ as_next_copy h.entry.rows counts (next_of_window h.entry.rows counts self.window (marked_blocks h.entry.rows counts self.window (marks_of self.copied))) }
    {
        let window = self.window_now(h);
        let mark = first_unmarked(window, self.copied)?;
        let from = window.spot_of_mark(mark);
        Some(NextCopy {
            block: h.earlier().block_at(from),
            part: window.growth.part_of(window.growth.row_in_window(from.row)),
            from,
            mark,
        })
    }

    // U + R - w of the newest growth; 0 with no growth under way.
    pub fn calls_left(self, h: History) -> usize
        requires while_growing { let counts = history h.growths h.counts.now in (self.growing ≡ 0) ⊎ ((0 < h.growths) × (self.window < windows (old_count counts) (added_count counts) h.rows)) }
        ensures { let counts = history h.entry.growths h.entry.counts.now in result ≡ cond (eqb self.growing 0) 0 (calls_left h.entry.rows counts self.window (marked_blocks h.entry.rows counts self.window (marks_of self.copied))) }
    {
        if self.growing == 0 {
            return 0;
        }
        calls_left_by_marks(self.window_now(h), self.copied)
    }
}
