// One growth, from m disks by n more.
ghost use Rattle.std.specs.Prelude.{◌≡◌, ◌+◌, ◌<◌, ◌≤◌, ◌*◌, ◌%◌, ◌↔◌, IsSome, IfSome};
ghost use Rattle.layout.specs.Limits.{Grows, most_rows};

use super::{Change, Part, Row, Spot};

// The most disks of a volume.
const MOST_DISKS: usize = 16;

// Document 01's m and n of a growth: the old disks, and the disks added.
#[derive(Clone, Copy, PartialEq, Eq, Debug)]
pub struct GrowthDisks {
    pub old: usize,
    pub added: usize,
    pub ghost within_limits: { Grows old added },
}

// The remainder of a by k, where a is less than two k: no division.
fn reduce_once(a: usize, k: usize) -> usize
    requires { a < k + k }
    ensures { result ≡ a % k }
{
    if k <= a {
        return a - k;
    }
    a
}

impl GrowthDisks {
    ghost use Rattle.layout.specs.Growth.{part_of, new_disk, disk_after, row_in_window, moves_from, old_block_spot, added_disk, added_spot, spot_after, old_change, change_of, added_index, old_disk, spot_before};

    // The growth from so many disks by so many, if it is within the limits.
    #[inline(always)]
    pub fn new(old: usize, added: usize) -> Option<GrowthDisks>
        ensures within { IsSome result ↔ Grows old added }
        ensures numbers { IfSome result (λ g. (g.old ≡ old) × (g.added ≡ added)) }
    {
        if old == 0 || added == 0 || MOST_DISKS < old || MOST_DISKS - old < added {
            return None;
        }
        Some(GrowthDisks { old, added })
    }

    // m + n, the disks after the growth and the rows of a window.
    pub fn disks(self) -> usize
        ensures { result ≡ self.old + self.added }
    {
        self.old + self.added
    }

    // b1 of a row.
    pub fn row_in_window(self, row: Row) -> usize
        ensures { result ≡ row_in_window self.old self.added row }
    {
        row.0 % self.disks()
    }

    // The part of a moving block at row b1 of its window: head before tail before body. Written out: of a choice by two
    // tests that are computed first the compiler makes more.
    pub fn part_of(self, b1: usize) -> Part
        ensures { result ≡ part_of self.old self.added b1 }
    {
        let GrowthDisks { old, added } = self;
        if added <= old {
            if b1 <= added - 1 {
                return Part::Head;
            }
            if old - 1 <= b1 {
                return Part::Tail;
            }
            return Part::Body;
        }
        if b1 <= old - 1 {
            return Part::Head;
        }
        if added - 1 <= b1 {
            return Part::Tail;
        }
        Part::Body
    }

    // The new disk of a moving block.
    pub fn new_disk(self, d0: usize, b1: usize) -> usize
        requires { (d0 < self.old) × (d0 ≤ b1) × (b1 < self.old + self.added) }
        ensures { result ≡ new_disk self.old self.added d0 b1 }
    {
        let GrowthDisks { old, added } = self;
        match self.part_of(b1) {
            Part::Head => d0 + old,
            Part::Tail => d0 + added,
            Part::Body => if added <= old {
                old + added - 1 - (b1 - d0)
            } else {
                d0 + b1 + 1
            },
        }
    }

    // Does the old block at spot p move.
    pub fn moves_from(self, p: Spot) -> bool
        requires { p.disk < self.old }
        ensures { result ≡ moves_from self.old self.added p }
    {
        let d0 = p.disk;
        let b1 = self.row_in_window(p.row);
        // One test for both ends: where b1 is below d0 the difference wraps, to far more than n.
        b1.wrapping_sub(d0) < self.added
    }

    // The disk after the growth of the old block at spot p.
    pub fn disk_after(self, p: Spot) -> usize
        requires { p.disk < self.old }
        ensures { result ≡ disk_after self.old self.added p.disk (row_in_window self.old self.added p.row) }
    {
        if self.moves_from(p) {
            return self.new_disk(p.disk, self.row_in_window(p.row));
        }
        p.disk
    }

    // The spot after the growth of the old block at p.
    pub fn old_block_spot(self, p: Spot) -> Spot
        requires { p.disk < self.old }
        ensures { result ≡ old_block_spot self.old self.added p }
    {
        Spot {
            disk: self.disk_after(p),
            row: p.row,
        }
    }

    // The disk of the added block q of row b.
    pub fn added_disk(self, b: usize, q: usize) -> usize
        requires { q < self.added }
        ensures { result ≡ added_disk self.old self.added b q }
    {
        let k = self.disks();
        let first = reduce_once(b % k + (k - (self.added - 1)), k);
        reduce_once(first + q, k)
    }

    // The spot of block y of those that the growth adds.
    pub fn added_spot(self, y: usize) -> Spot
        ensures { result ≡ added_spot self.old self.added y }
    {
        let n = self.added;
        let b = y / n;
        Spot {
            disk: self.added_disk(b, y % n),
            row: Row(b),
        }
    }

    // The spot of block x after the growth, with s rows, where p is its spot before.
    pub fn spot_after(self, s: usize, x: usize, p: Spot) -> Spot
        requires { (s ≤ most_rows) × (x < self.old * s → p.disk < self.old) }
        ensures { result ≡ spot_after self.old self.added s x p }
    {
        let old_blocks = self.old * s;
        if x < old_blocks {
            return self.old_block_spot(p);
        }
        self.added_spot(x - old_blocks)
    }

    // What the growth does with the old block at p.
    pub fn old_change(self, p: Spot) -> Change
        requires { p.disk < self.old }
        ensures { result ≡ old_change self.old self.added p }
    {
        if self.moves_from(p) {
            return Change::Moved(self.part_of(self.row_in_window(p.row)));
        }
        Change::Stays
    }

    // What the growth does with block x, with s rows, where p is its spot before.
    pub fn change_of(self, s: usize, x: usize, p: Spot) -> Change
        requires { (s ≤ most_rows) × (x < self.old * s → p.disk < self.old) }
        ensures { result ≡ change_of self.old self.added s x p }
    {
        if self.old * s <= x {
            return Change::Added;
        }
        self.old_change(p)
    }

    // The added block of row b that disk d has, if this is below n.
    pub fn added_index(self, d: usize, b: usize) -> usize
        requires { d < self.old + self.added }
        ensures { result ≡ added_index self.old self.added d b }
    {
        let k = self.disks();
        let b1 = b % k;
        let up = d + (self.added - 1);
        // d - (b - (n - 1)) is up - b1; with k more where that is negative it is below k already.
        if up < b1 {
            return up + k - b1;
        }
        reduce_once(up - b1, k)
    }

    // The old disk of the moved block that the added disk d has at row b1 of its window.
    pub fn old_disk(self, d: usize, b1: usize) -> usize
        requires added_disk { (self.old ≤ d) × (d < self.old + self.added) }
        requires moved_row { (b1 < d) × (d ≤ self.old + b1) × (b1 < self.old + self.added) }
        ensures { result ≡ old_disk self.old self.added d b1 }
    {
        let GrowthDisks { old, added } = self;
        match self.part_of(b1) {
            Part::Head => d - old,
            Part::Tail => d - added,
            Part::Body => if old < added {
                d - (b1 + 1)
            } else {
                b1 - (old + added - 1 - d)
            },
        }
    }

    // The spot before the growth of the old block at p.
    pub fn spot_before(self, p: Spot) -> Spot
        requires { (p.disk < self.old + self.added) × (self.added ≤ added_index self.old self.added p.disk p.row.0) }
        ensures { result ≡ spot_before self.old self.added p }
    {
        if p.disk < self.old {
            return p;
        }
        let disk = self.old_disk(p.disk, self.row_in_window(p.row));
        Spot { disk, row: p.row }
    }
}
