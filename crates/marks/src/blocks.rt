// What the marks of a stage say of the blocks of a growth. An old block is known by its old spot.
#![tactic(auto, using(crate::proofs::BlocksCode::mark_fits), unfolding(crate::specs::Marks::moves_at, crate::specs::Marks::marked_at, crate::specs::Marks::moved_at, crate::specs::Marks::live_from, crate::specs::Marks::moved_address, crate::specs::Marks::address_from, layout::specs::Windows::window_of_row))]

ghost use Rattle.std.specs.Prelude.{◌≡◌, true, false, cond, not, ◌&&◌, ◌⊎◌, ◌+◌, ◌/◌, ◌<◌, ◌≤◌, eqb, get_or};
ghost use Rattle.layout.specs.Growth.{moves_from};
ghost use Rattle.layout.specs.History.{Within, history, old_count, added_count};
ghost use Rattle.layout.specs.Limits.{most_rows, most_growths};
ghost use Rattle.layout.specs.Live.{live_block};
ghost use Rattle.layout.specs.Tally.{recorded_by};
ghost use Rattle.layout.specs.Windows.{mark_of_spot, marked_blocks};
ghost use Rattle.marks.specs.Marks.{moves_at, marked_at, moved_at, live_from, moved_address, address_from, as_live_block};
ghost use Rattle.marks.specs.Words.{marks_of};

use super::Stage;
use super::words::{has_mark, without};
use layout::{Address, Block, GrowthDisks, History, Reason, Spot};

// Is the moving block at the old spot p one of window w with its mark set?
fn is_marked_at(growth: GrowthDisks, w: usize, marks: usize, p: Spot) -> bool
    requires { (p.disk < growth.old) × (moves_from growth.old growth.added p ≡ true) }
    ensures { result ≡ (eqb (p.row.0 / (growth.old + growth.added)) w && get_or (marks_of marks) (mark_of_spot growth.old growth.added p) false) }
{
    p.row.0 / growth.disks() == w && has_mark(marks, window::mark_of_spot(growth, p))
}

// Is the block at the old spot p a moving block of window w with its mark set?
fn is_marked(growth: GrowthDisks, w: usize, marks: usize, p: Spot) -> bool
    requires { p.disk < growth.old }
    ensures { result ≡ marked_at growth.old growth.added w (marks_of marks) p }
{
    growth.moves_from(p) && is_marked_at(growth, w, marks, p)
}

// The new spot of block x, which growth k has moved, why it is there and by how many growths it was moved, where `old`
// has these from before the growth. There are s rows.
fn moved_address(growth: GrowthDisks, s: usize, k: usize, x: Block, old: Address) -> Address
    requires rows { s ≤ most_rows }
    requires before { (old.spot.disk < growth.old) × (old.moves ≤ most_growths) }
    ensures { result ≡ moved_address growth.old growth.added s k x.0 old }
{
    let part = growth.part_of(growth.row_in_window(old.spot.row));
    Address {
        spot: growth.spot_after(s, x.0, old.spot),
        reason: Reason::MovedBy(k, part),
        moves: old.moves + 1,
    }
}

impl Stage {
    // Is the block at the old spot p a moving block of the window?
    pub fn moves_now(self, growth: GrowthDisks, p: Spot) -> bool
        requires { p.disk < growth.old }
        ensures { result ≡ moves_at growth.old growth.added self.window p }
    {
        growth.moves_from(p) && p.row.0 / growth.disks() == self.window
    }

    // Is the block at the old spot p copied but not recorded?
    pub fn is_waiting(self, growth: GrowthDisks, p: Spot) -> bool
        requires { p.disk < growth.old }
        ensures { result ≡ (marked_at growth.old growth.added self.window (marks_of self.copied) p && not (marked_at growth.old growth.added self.window (marks_of self.recorded) p)) }
    {
        is_marked(growth, self.window, without(self.copied, self.recorded), p)
    }

    // Has the block with the old spot p moved to its new one?
    fn at_new_spot(self, growth: GrowthDisks, p: Spot) -> bool
        requires { p.disk < growth.old }
        ensures { result ≡ moved_at growth.old growth.added self.window (marks_of self.recorded) p }
    {
        if !growth.moves_from(p) {
            return false;
        }
        p.row.0 / growth.disks() < self.window
            || is_marked_at(growth, self.window, self.recorded, p)
    }

    // The live spot of block x in a growth under way, with s rows, where p is its old spot.
    fn live_from(self, growth: GrowthDisks, s: usize, x: Block, p: Spot) -> Spot
        requires rows { s ≤ most_rows }
        requires on_old_disk { p.disk < growth.old }
        ensures { result ≡ live_from growth.old growth.added s self.window (marks_of self.recorded) x.0 p }
    {
        if self.at_new_spot(growth, p) {
            return growth.spot_after(s, x.0, p);
        }
        p
    }

    // The live spot of block x, where p is its old spot in a growth under way, its only one with none.
    #[inline(always)]
    pub fn live_spot(self, h: History, x: Block, p: Spot) -> Spot
        requires while_growing { let counts = history h.growths h.counts.now in (self.growing ≡ 0) ⊎ ((0 < h.growths) × (p.disk < old_count counts)) }
        ensures { let counts = history h.entry.growths h.entry.counts.now in result ≡ cond (eqb self.growing 0) p (live_from (old_count counts) (added_count counts) h.entry.rows self.window (marks_of self.recorded) x.0 p) }
    {
        if self.growing == 0 {
            return p;
        }
        self.live_from(h.newest_growth(), h.rows, x, p)
    }

    // The live spot of block x in growth k, with s rows, why it is there and by how many growths it was moved, where
    // `old` has these from before the growth.
    pub fn address_from(
        self,
        growth: GrowthDisks,
        s: usize,
        k: usize,
        x: Block,
        old: Address,
    ) -> Address
        requires rows { s ≤ most_rows }
        requires before { (old.spot.disk < growth.old) × (old.moves ≤ most_growths) }
        ensures { result ≡ address_from growth.old growth.added s k self.window (marks_of self.recorded) x.0 old }
    {
        if !self.at_new_spot(growth, old.spot) {
            return old;
        }
        moved_address(growth, s, k, x, old)
    }

    // The block that lives at p, if one does.
    pub fn live_block(self, h: History, p: Spot) -> Option<Block>
        requires grown { 0 < h.growths }
        requires within { Within h.rows (history h.growths h.counts.now) p }
        ensures { let counts = history h.entry.growths h.entry.counts.now in result ≡ as_live_block (live_block h.entry.rows counts (recorded_by h.entry.rows counts self.window (marked_blocks h.entry.rows counts self.window (marks_of self.recorded))) p) }
    {
        let growth = h.newest_growth();
        if p.disk < growth.old {
            if self.at_new_spot(growth, p) {
                return None;
            }
            return Some(h.earlier().block_at(p));
        }
        // A block that the growth adds is not open.
        if growth.added_index(p.disk, p.row.0) < growth.added {
            return None;
        }
        let old = growth.spot_before(p);
        if self.at_new_spot(growth, old) {
            return Some(h.earlier().block_at(old));
        }
        None
    }
}
