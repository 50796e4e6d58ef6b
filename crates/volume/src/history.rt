// What the crates below take of a state: its counts as a history, its window and its marks, its newest growth.
ghost use Rattle.std.specs.Prelude.{◌≡◌, true, ◌≢◌};
ghost use Rattle.layout.specs.History.{history, old_count, added_count};
ghost use Rattle.layout.specs.Limits.{Limits};
ghost use Rattle.volume.specs.Sound.{sound};
ghost use Rattle.volume.specs.States.{history_of, stage_of};

use super::Volume;
use layout::{GrowthDisks, History};
use marks::Stage;

impl Volume {
    // The first counts, with so many growths, and s.
    pub(crate) fn history_to(&self, growths: usize) -> History<'_>
        requires { Limits self.now.rows (history growths self.now.counts) }
        ensures counts { result.counts.now ≡ self.now.counts }
        ensures growths { result.growths ≡ growths }
        ensures rows { result.rows ≡ self.now.rows }
    {
        History {
            counts: &self.counts,
            growths,
            rows: self.rows,
        }
    }

    // N[0] to N[t] and s.
    pub(crate) fn history(&self) -> History<'_>
        requires { Limits self.now.rows (history_of self.now) }
        ensures counts { result.counts.now ≡ self.now.counts }
        ensures growths { result.growths ≡ self.now.growths }
        ensures rows { result.rows ≡ self.now.rows }
    {
        self.history_to(self.growths)
    }

    // Growing, w and the marks.
    pub(crate) fn stage(&self) -> Stage
        ensures { result ≡ stage_of self.now }
    {
        Stage {
            growing: self.growing,
            window: self.window,
            recorded: self.recorded,
            copied: self.copied,
        }
    }

    // m and n of the growth under way.
    pub(crate) fn newest_growth(&self) -> GrowthDisks
        requires { (sound self.now ≡ true) × (self.now.growing ≢ 0) }
        ensures old { result.old ≡ old_count (history self.now.growths self.now.counts) }
        ensures added { result.added ≡ added_count (history self.now.growths self.now.counts) }
    {
        self.history().newest_growth()
    }
}
