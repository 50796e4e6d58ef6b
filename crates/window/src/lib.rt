// The windows of a growth, the marks of their moving blocks, and how many blocks move: code for what `layout` defines
// in `specs/Windows.antt`.
//
// The functions here serve the crates above and are not offered to others: their types and `requires` are the limits of
// a sound volume.
#![tactic(auto)]

ghost use Rattle.std.specs.Prelude.{◌≡◌, true, ◌+◌, ◌-◌, ◌*◌, ◌<◌, ◌≤◌};
ghost use Rattle.layout.specs.Limits.{most_disks, most_rows};
ghost use Rattle.layout.specs.Growth.{moves_from};
ghost use Rattle.layout.specs.History.{history, old_count, added_count};
ghost use Rattle.layout.specs.Windows.{windows, mark_of_spot, spot_of_mark, row_exists, cut_moves, later_moves, moves_of_window};

use layout::{GrowthDisks, History, Row, Spot};

// A window of a growth, of a volume with so many rows on each disk. Windows are numbered from 0.
#[derive(Clone, Copy, PartialEq, Eq, Debug)]
pub struct Window {
    pub growth: GrowthDisks,
    pub rows: usize,
    pub number: usize,
    pub ghost number_most: { number ≤ most_rows },
}

impl Window {
    // The old spot of mark j.
    pub fn spot_of_mark(self, j: usize) -> Spot
        requires { j < 64 }
        ensures { result ≡ spot_of_mark self.growth.old self.growth.added self.number j }
    {
        let n = self.growth.added;
        let d0 = j / n;
        let b = self.number * self.growth.disks() + (d0 + j % n);
        Spot {
            disk: d0,
            row: Row(b),
        }
    }

    // Does the row of mark j exist.
    pub fn row_exists(self, j: usize) -> bool
        requires { j < 64 }
        ensures { result ≡ row_exists self.growth.old self.growth.added self.rows self.number j }
    {
        let n = self.growth.added;
        let start = self.number * self.growth.disks();
        // A mark is at most 63 rows into its window. So far from the end no division is needed.
        if start + 64 <= self.rows {
            return true;
        }
        start + (j / n + j % n) < self.rows
    }
}

// R, the number of windows, with s rows.
pub fn window_count(growth: GrowthDisks, s: usize) -> usize
    ensures { result ≡ windows growth.old growth.added s }
{
    let k = growth.disks();
    s.div_ceil(k)
}

// The mark of the moving block at the old spot p.
pub fn mark_of_spot(growth: GrowthDisks, p: Spot) -> usize
    requires { (p.disk < growth.old) × (moves_from growth.old growth.added p ≡ true) }
    ensures { result ≡ mark_of_spot growth.old growth.added p }
{
    let d0 = p.disk;
    let b1 = growth.row_in_window(p.row);
    d0 * growth.added + (b1 - d0)
}

// 1 + 2 + .. + k.
fn triangle(k: usize) -> usize
    requires { k ≤ most_disks }
    ensures { result + result ≡ k * (k + 1) }
{
    k * (k + 1) / 2
}

// The triangle of the rows past k of r rows, 0 where there are none.
fn triangle_past(r: usize, k: usize) -> usize
    requires { r ≤ most_disks }
    ensures { result + result ≡ (r - k) * (r - k + 1) }
{
    triangle(r.saturating_sub(k))
}

// The moving blocks of a window that is cut off to r rows. Disk d has r - d rows from row d on, triangle(r) in all for
// the disks below r. Those of disks that are not old, and those past the n rows in which a disk's blocks move, are
// taken off.
fn cut_moves(growth: GrowthDisks, r: usize) -> usize
    requires { r < growth.old + growth.added }
    ensures { result ≡ cut_moves growth.old growth.added r }
{
    triangle(r) - triangle_past(r, growth.old) - triangle_past(r, growth.added)
}

// The moving blocks of window w of the newest growth.
pub fn moves_of_window(h: History, w: usize) -> usize
    requires grown { 0 < h.growths }
    requires window { let all = history h.growths h.counts.now in w < windows (old_count all) (added_count all) h.rows }
    ensures { result ≡ moves_of_window h.entry.rows (history h.entry.growths h.entry.counts.now) w }
{
    let growth = h.newest_growth();
    let k = growth.disks();
    let rest = h.rows - w * k;
    if k <= rest {
        return growth.old * growth.added;
    }
    cut_moves(growth, rest)
}

// The moving blocks of the windows after w, with s rows.
pub fn later_moves(growth: GrowthDisks, s: usize, w: usize) -> usize
    requires { s ≤ most_rows }
    ensures { result ≡ later_moves growth.old growth.added s w }
{
    let k = growth.disks();
    let whole = s / k;
    if whole <= w {
        return 0;
    }
    (whole - (w + 1)) * (growth.old * growth.added) + cut_moves(growth, s % k)
}
