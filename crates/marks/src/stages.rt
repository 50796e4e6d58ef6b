// The stages of a state: its window and its marks while it is not growing, and while it is.
#![tactic(auto, using(crate::proofs::MarkWords::no_marks_law), unfolding(crate::specs::Marks::at_rest))]

ghost use Rattle.std.specs.Prelude.{◌≡◌, not, ◌&&◌};
ghost use Rattle.layout.specs.History.{history};
ghost use Rattle.marks.specs.Marks.{within, moving_marks, at_rest, in_growth};
ghost use Rattle.marks.specs.Words.{marks_of};

use super::Stage;
use super::words::{is_within, moving_marks};
use layout::History;
use window::Window;

impl Stage {
    // Not growing: no window and no marks.
    pub fn at_rest(self) -> bool
        ensures { result ≡ at_rest self.window (marks_of self.recorded) (marks_of self.copied) }
    {
        self.window == 0 && is_within(self.recorded, 0) && is_within(self.copied, 0)
    }

    // Do the marks fit this window, with one of its moving blocks not recorded? The marks of the moving blocks are put
    // together only where every recorded block is copied.
    fn marks_fit(self, window: Window) -> bool
        ensures { let moving = moving_marks window.growth.old window.growth.added window.rows window.number in result ≡ (within (marks_of self.recorded) (marks_of self.copied) && (within (marks_of self.copied) moving && not (within moving (marks_of self.recorded)))) }
    {
        if !is_within(self.recorded, self.copied) {
            return false;
        }
        let moving = moving_marks(window);
        is_within(self.copied, moving) && !is_within(moving, self.recorded)
    }

    // Growing: a window, and marks that fit it.
    pub fn in_growth(self, h: History) -> bool
        ensures { result ≡ in_growth h.entry.growths h.entry.rows (history h.entry.growths h.entry.counts.now) self.window (marks_of self.recorded) (marks_of self.copied) }
    {
        if h.growths == 0 {
            return false;
        }
        let growth = h.newest_growth();
        if window::window_count(growth, h.rows) <= self.window {
            return false;
        }
        self.marks_fit(Window {
            growth,
            rows: h.rows,
            number: self.window,
        })
    }
}
