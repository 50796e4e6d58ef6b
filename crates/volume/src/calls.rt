// The calls that work on a medium.
ghost use Rattle.std.specs.Prelude.{◌*◌, ◌≡◌, true, ◌&&◌, ltb, Ok, Err};
ghost use Rattle.base.specs.Refusals.{refusal, checked};
ghost use Rattle.layout.specs.Tally.{live_spot_of, calls_left_of};
ghost use Rattle.medium.specs.Medium.{observe, apply};
ghost use Rattle.volume.specs.Calls.{found_at, format_table, format_outcome, restart_outcome, sector_outcome, grow_table_of, grow_outcome_of, grow_outcome, grow_beyond_doubling_outcome, write_table, write_outcome, read_table, read_outcome};
ghost use Rattle.volume.specs.Sound.{sound};
ghost use Rattle.volume.specs.States.{geometry, disks, tally_of};
ghost use Rattle.volume.specs.declared.Told.TheVariants.{CallsLeft};

use super::sound::{disks_hold, rows_hold, size_holds};
use super::{Reply, Told, Volume};
use base::Refusal;
use layout::{Block, Spot};
use medium::Geometry;

impl Volume {
    // The refusal, with the state as it is.
    pub(crate) fn refuse<T>(self, refusal: Refusal) -> Reply<T>
        ensures { result ≡ record { state = self; answer = Err refusal } }
    {
        Reply {
            state: self,
            answer: Err(refusal),
        }
    }

    // The state with what was asked for.
    pub(crate) fn accept<T>(self, value: T) -> Reply<T>
        ensures { result ≡ record { state = self; answer = Ok value } }
    {
        Reply {
            state: self,
            answer: Ok(value),
        }
    }

    // The state with the number of advance calls left.
    pub(crate) fn report(&self) -> Reply<Told>
        requires { sound self.now ≡ true }
        ensures { result ≡ record { state = self.now; answer = Ok (CallsLeft (calls_left_of (tally_of self.now))) } }
    {
        let left = self.calls_left();
        self.accept(Told::CallsLeft(left))
    }

    pub(crate) fn check_format(
        size: usize,
        rows: usize,
        disks: usize,
        len: usize,
    ) -> Result<(), Refusal>
        ensures { result ≡ checked (refusal (format_table size rows disks len)) }
    {
        if !size_holds(size) {
            return Err(Refusal::OutsideLimits);
        }
        if !rows_hold(rows) {
            return Err(Refusal::OutsideLimits);
        }
        if !disks_hold(disks) {
            return Err(Refusal::OutsideLimits);
        }
        let g = Geometry { size, rows };
        if len < g.bytes_needed(disks) {
            return Err(Refusal::MediumTooShort);
        }
        Ok(())
    }

    // Makes a volume of so many disks on the lent medium.
    pub fn format(medium: &mut [u8], size: usize, rows: usize, disks: usize) -> Reply<Told>
        ensures value { result ≡ (format_outcome size rows disks (observe medium.old)).reply }
        ensures medium_after { medium.new ≡ apply (geometry result.state) (format_outcome size rows disks (observe medium.old)).store medium.old }
    {
        if let Err(refusal) = Volume::check_format(size, rows, disks, medium.len()) {
            return Volume::zeros().refuse(refusal);
        }
        let fresh = Volume::new_state(size, rows, disks);
        fresh.store_record(medium);
        fresh.after_record().accept(Told::Done)
    }

    // The state of a record sector that stands alone: restart, but that no disks need to be there.
    pub fn from_sector(sector: &[u8]) -> Reply<Told>
        ensures { result ≡ (sector_outcome (observe sector.now)).reply }
    {
        if sector.len() < 512 {
            return Volume::zeros().refuse(Refusal::MediumTooShort);
        }
        let Ok(found) = record::read_record(&sector[0..512]) else {
            return Volume::zeros().refuse(Refusal::NoRecord);
        };
        let v = Volume::from_record(&found);
        if !v.is_sound() {
            return Volume::zeros().refuse(Refusal::NoRecord);
        }
        v.report()
    }

    // Takes the state from the record, after a power cut or at any time.
    pub fn restart(medium: &[u8]) -> Reply<Told>
        ensures { result ≡ (restart_outcome (observe medium.now)).reply }
    {
        let reply = Volume::from_sector(medium);
        if let Err(_) = reply.answer {
            return reply;
        }
        let v = reply.state;
        if v.is_short(v.disk_count(), medium.len()) {
            return Volume::zeros().refuse(Refusal::MediumTooShort);
        }
        reply
    }

    // Document 02, W7: does the count exceed twice N[t], where a growth is limited to doubling?
    pub(crate) fn is_beyond_doubling(&self, limited: bool, count: usize) -> bool
        requires { sound self.now ≡ true }
        ensures { result ≡ (limited && ltb (2 * disks self.now) count) }
    {
        if !limited {
            return false;
        }
        2 * self.disk_count() < count
    }

    pub(crate) fn check_grow(&self, limited: bool, count: usize, len: usize) -> Result<(), Refusal>
        ensures { result ≡ checked (refusal (grow_table_of limited self.now count len)) }
    {
        if !self.is_sound() {
            return Err(Refusal::NotSound);
        }
        if self.growing != 0 {
            return Err(Refusal::Growing);
        }
        if self.growths == Volume::MOST_GROWTHS {
            return Err(Refusal::NoMoreGrowths);
        }
        if count <= self.disk_count() {
            return Err(Refusal::OutsideLimits);
        }
        if Volume::MOST_DISKS < count {
            return Err(Refusal::OutsideLimits);
        }
        if self.is_beyond_doubling(limited, count) {
            return Err(Refusal::BeyondDoubling);
        }
        if self.is_short(count, len) {
            return Err(Refusal::MediumTooShort);
        }
        self.check_record_store()
    }

    // Starts a growth to so many disks, at most twice as many as there are.
    pub fn grow(self, medium: &mut [u8], count: usize) -> Reply<Told>
        ensures value { result ≡ (grow_outcome self count (observe medium.old)).reply }
        ensures medium_after { medium.new ≡ apply (geometry self) (grow_outcome self count (observe medium.old)).store medium.old }
    {
        self.start_growth(medium, true, count)
    }

    // Document 02, W7, "the one without 20": starts a growth to so many disks.
    pub fn grow_beyond_doubling(self, medium: &mut [u8], count: usize) -> Reply<Told>
        ensures value { result ≡ (grow_beyond_doubling_outcome self count (observe medium.old)).reply }
        ensures medium_after { medium.new ≡ apply (geometry self) (grow_beyond_doubling_outcome self count (observe medium.old)).store medium.old }
    {
        self.start_growth(medium, false, count)
    }

    // Either grow, limited to doubling or not.
    pub(crate) fn start_growth(self, medium: &mut [u8], limited: bool, count: usize) -> Reply<Told>
        ensures value { result ≡ (grow_outcome_of limited self count (observe medium.old)).reply }
        ensures medium_after { medium.new ≡ apply (geometry self) (grow_outcome_of limited self count (observe medium.old)).store medium.old }
    {
        if let Err(refusal) = self.check_grow(limited, count, medium.len()) {
            return self.refuse(refusal);
        }
        let next = self.grown(count).after_record();
        next.store_record(medium);
        next.report()
    }

    #[inline(always)]
    pub(crate) fn check_read(&self, x: Block, piece: usize, len: usize) -> Result<(), Refusal>
        ensures { result ≡ checked (refusal (read_table self.now x.0 piece len)) }
    {
        if !self.is_sound() {
            return Err(Refusal::NotSound);
        }
        if self.is_short(self.disk_count(), len) {
            return Err(Refusal::MediumTooShort);
        }
        let blocks = self.open_blocks();
        if blocks <= x.0 {
            return Err(Refusal::BlockNotOpen);
        }
        if piece != self.size {
            return Err(Refusal::PieceSize);
        }
        Ok(())
    }

    // The live spot of block x, which a piece is saved to.
    pub(crate) fn write_spot(&self, x: Block, piece: usize, len: usize) -> Result<Spot, Refusal>
        ensures { result ≡ found_at (refusal (write_table self.now x.0 piece len)) (live_spot_of (tally_of self.now) x.0) }
    {
        self.check_read(x, piece, len)?;
        let old = self.old_spot(x);
        if self.growing != 0 && self.stage().is_waiting(self.newest_growth(), old) {
            return Err(Refusal::CopyNotRecorded);
        }
        self.check_block_store()?;
        Ok(self.live_spot_from(x, old))
    }

    // Saves a piece as block x.
    pub fn write(self, medium: &mut [u8], x: Block, piece: &[u8]) -> Reply<Told>
        ensures value { result ≡ (write_outcome self x.0 piece.now (observe medium.old)).reply }
        ensures medium_after { medium.new ≡ apply (geometry self) (write_outcome self x.0 piece.now (observe medium.old)).store medium.old }
    {
        match self.write_spot(x, piece.len(), medium.len()) {
            Err(refusal) => self.refuse(refusal),
            Ok(p) => {
                medium::store_block(medium, self.geometry(), p, piece);
                self.after_block().accept(Told::Done)
            }
        }
    }

    // Fills a piece with block x.
    pub fn read(self, medium: &[u8], x: Block, piece: &mut [u8]) -> Reply<Told>
        ensures value { result ≡ (read_outcome self x.0 piece.old (observe medium.now)).reply }
        ensures piece_after { piece.new ≡ (read_outcome self x.0 piece.old (observe medium.now)).piece }
    {
        if let Err(refusal) = self.check_read(x, piece.len(), medium.len()) {
            return self.refuse(refusal);
        }
        let p = self.live_spot(x);
        medium::fetch_block(medium, self.geometry(), p, piece);
        self.accept(Told::Done)
    }
}
