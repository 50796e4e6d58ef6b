// Open blocks, live spots and advance calls left of a sound state.
ghost use Rattle.std.specs.Prelude.{◌≡◌, true, ◌-◌, ◌≤◌, ◌<◌};
ghost use Rattle.layout.specs.History.{history, Within, spot_of};
ghost use Rattle.layout.specs.Limits.{most_disks};
ghost use Rattle.layout.specs.Tally.{open_blocks, live_spot_of, live_block_of, live_address_of, calls_left_of};
ghost use Rattle.marks.specs.Marks.{as_live_block};
ghost use Rattle.volume.specs.Calls.{too_short};
ghost use Rattle.volume.specs.Sound.{sound};
ghost use Rattle.volume.specs.States.{geometry, history_of, disks, tally_of};

use super::Volume;
use layout::{Address, Block, Spot};
use medium::Geometry;

impl Volume {
    // Z and s, as the medium takes them.
    pub(crate) fn geometry(&self) -> Geometry
        ensures { result ≡ geometry self.now }
    {
        Geometry {
            size: self.size,
            rows: self.rows,
        }
    }

    // N[t]; 0 where t is above its limit.
    pub fn disk_count(&self) -> usize
        ensures { result ≡ disks self.now }
    {
        if Volume::MOST_GROWTHS < self.growths {
            return 0;
        }
        self.counts[self.growths]
    }

    // Are so many bytes too few for the record and so many disks?
    pub(crate) fn is_short(&self, disks: usize, len: usize) -> bool
        requires sound_state { sound self.now ≡ true }
        requires disks_le_most_disks { disks ≤ most_disks }
        ensures { result ≡ too_short (geometry self.now) disks len }
    {
        len < self.geometry().bytes_needed(disks)
    }

    // The number of open blocks.
    pub fn open_blocks(&self) -> usize
        requires { sound self.now ≡ true }
        ensures { result ≡ open_blocks (tally_of self.now) }
    {
        if self.growing == 0 {
            return self.counts[self.growths] * self.rows;
        }
        self.counts[self.growths - 1] * self.rows
    }

    // The spot of block x before the growth under way or, with none, its only one.
    #[inline(always)]
    pub(crate) fn old_spot(&self, x: Block) -> Spot
        requires sound_state { sound self.now ≡ true }
        requires x_bound { x.0 < open_blocks (tally_of self.now) }
        ensures { result ≡ spot_of self.now.rows (history (self.now.growths - self.now.growing) self.now.counts) x.0 }
    {
        self.history_to(self.growths - self.growing).spot_of(x)
    }

    // The live spot of block x, whose old spot this is.
    #[inline(always)]
    pub(crate) fn live_spot_from(&self, x: Block, old: Spot) -> Spot
        requires sound_state { sound self.now ≡ true }
        requires x_bound { x.0 < open_blocks (tally_of self.now) }
        requires at_old_spot { old ≡ spot_of self.now.rows (history (self.now.growths - self.now.growing) self.now.counts) x.0 }
        ensures { result ≡ live_spot_of (tally_of self.now) x.0 }
    {
        self.stage().live_spot(self.history(), x, old)
    }

    // The live spot of block x.
    #[inline(always)]
    pub fn live_spot(&self, x: Block) -> Spot
        requires sound_state { sound self.now ≡ true }
        requires x_bound { x.0 < open_blocks (tally_of self.now) }
        ensures { result ≡ live_spot_of (tally_of self.now) x.0 }
    {
        self.live_spot_from(x, self.old_spot(x))
    }

    // The live spot of block x, why it is there, and by how many growths it was moved.
    pub(crate) fn live_address(&self, x: Block) -> Address
        requires sound_state { sound self.now ≡ true }
        requires x_bound { x.0 < open_blocks (tally_of self.now) }
        ensures { result ≡ live_address_of (tally_of self.now) x.0 }
    {
        if self.growing == 0 {
            return self.history().address_of(x);
        }
        let old = self.history_to(self.growths - 1).address_of(x);
        let stage = self.stage();
        stage.address_from(self.newest_growth(), self.rows, self.growths, x, old)
    }

    // The block that lives at p, if one does.
    pub(crate) fn live_block(&self, p: Spot) -> Option<Block>
        requires sound_state { sound self.now ≡ true }
        requires within { Within self.now.rows (history_of self.now) p }
        ensures { result ≡ as_live_block (live_block_of (tally_of self.now) p) }
    {
        if self.growing == 0 {
            return Some(self.history().block_at(p));
        }
        self.stage().live_block(self.history(), p)
    }

    // The number of advance calls left.
    pub(crate) fn calls_left(&self) -> usize
        requires { sound self.now ≡ true }
        ensures { result ≡ calls_left_of (tally_of self.now) }
    {
        self.stage().calls_left(self.history())
    }
}
