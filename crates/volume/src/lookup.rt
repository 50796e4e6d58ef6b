// Looking up spots.
ghost use Rattle.std.specs.Prelude.{◌≡◌, ◌||◌, leb};
ghost use Rattle.base.specs.Refusals.{refusal, checked};
ghost use Rattle.volume.specs.Calls.{address_table, address_reply, holder_reply};
ghost use Rattle.volume.specs.States.{disks};

use super::{Reply, Volume};
use base::Refusal;
use layout::{Address, Block, Spot};

impl Volume {
    pub(crate) fn check_address(&self, x: Block) -> Result<(), Refusal>
        ensures { result ≡ checked (refusal (address_table self.now x.0)) }
    {
        if !self.is_sound() {
            return Err(Refusal::NotSound);
        }
        if self.open_blocks() <= x.0 {
            return Err(Refusal::BlockNotOpen);
        }
        Ok(())
    }

    // Where block x lives, why, and by how many growths it was moved.
    pub fn address(self, x: Block) -> Reply<Address>
        ensures { result ≡ address_reply self x.0 }
    {
        if let Err(refusal) = self.check_address(x) {
            return self.refuse(refusal);
        }
        self.accept(self.live_address(x))
    }

    // Is spot p after the last disk, or after the last row?
    fn is_outside(&self, p: Spot) -> bool
        ensures { result ≡ (leb (disks self.now) p.disk || leb self.now.rows p.row.0) }
    {
        if self.disk_count() <= p.disk {
            return true;
        }
        let row = p.row;
        self.rows <= row.0
    }

    // What holder answers at p.
    pub(crate) fn holder_answer(&self, p: Spot) -> Result<Block, Refusal>
        ensures { result ≡ (holder_reply self.now p).answer }
    {
        if !self.is_sound() {
            return Err(Refusal::NotSound);
        }
        if self.is_outside(p) {
            return Err(Refusal::NoSuchSpot);
        }
        self.live_block(p).ok_or(Refusal::NoBlockThere)
    }

    // The block that lives at spot p.
    pub fn holder(self, p: Spot) -> Reply<Block>
        ensures { result ≡ holder_reply self p }
    {
        let answer = self.holder_answer(p);
        Reply {
            state: self,
            answer,
        }
    }
}
