// The limits and soundness, tested.
ghost use Rattle.std.specs.Prelude.{◌≡◌};
ghost use Rattle.layout.specs.Limits.{Limits};
ghost use Rattle.volume.specs.Sound.{size_holds, rows_hold, disks_hold, stage_holds, sound};
ghost use Rattle.volume.specs.States.{history_of};

use super::Volume;

// Is z a block size?
pub fn size_holds(z: usize) -> bool
    ensures { result ≡ size_holds z }
{
    if z < Volume::LEAST_SIZE {
        return false;
    }
    if Volume::MOST_SIZE < z {
        return false;
    }
    z % Volume::SIZE_STEP == 0
}

// Is s a number of rows?
pub fn rows_hold(s: usize) -> bool
    ensures { result ≡ rows_hold s }
{
    if s < Volume::LEAST_ROWS {
        return false;
    }
    s <= Volume::MOST_ROWS
}

// Is n a number of disks?
pub fn disks_hold(n: usize) -> bool
    ensures { result ≡ disks_hold n }
{
    if n < Volume::LEAST_DISKS {
        return false;
    }
    n <= Volume::MOST_DISKS
}

impl Volume {
    // Do window and marks fit what `growing` says?
    pub(crate) fn stage_holds(&self) -> bool
        requires { Limits self.now.rows (history_of self.now) }
        ensures { result ≡ stage_holds self.now }
    {
        if self.growing == 0 {
            return self.stage().at_rest();
        }
        if self.growing != 1 {
            return false;
        }
        self.stage().in_growth(self.history())
    }

    // Is the state sound, whatever is pending?
    pub fn is_sound(&self) -> bool
        ensures { result ≡ sound self.now }
    {
        if !size_holds(self.size) {
            return false;
        }
        if !rows_hold(self.rows) {
            return false;
        }
        let t = self.growths;
        if Volume::MOST_GROWTHS < t {
            return false;
        }
        if !marks::counts_rise(&self.counts, t) {
            return false;
        }
        if Volume::MOST_DISKS < self.counts[t] {
            return false;
        }
        if !marks::zeros_after(&self.counts, t) {
            return false;
        }
        self.stage_holds()
    }
}
