// The calls that move blocks: copy, checkpoint, advance.
ghost use Rattle.std.specs.Prelude.{◌≡◌, true, false, ◌≢◌, ◌≤◌, ◌<◌, length, Ok};
ghost use Rattle.std.proofs.Math.Option.{none, some};
ghost use Rattle.base.specs.Refusals.{refusal, checked};
ghost use Rattle.layout.specs.Tally.{calls_left_of, moves_now, next_block};
ghost use Rattle.layout.specs.Windows.{old_spot, mark_of, part_moved};
ghost use Rattle.marks.specs.Marks.{mark_count, as_next_copy};
ghost use Rattle.medium.specs.Medium.{bytes_needed, observe, apply};
ghost use Rattle.volume.specs.Calls.{found_at, copy_table, copy_store, copy_outcome, checkpoint_table, checkpoint_outcome, growth_table, checkpoint_told, advance_outcome};
ghost use Rattle.volume.specs.Sound.{sound};
ghost use Rattle.volume.specs.States.{geometry, history_of, disks, tally_of, with_mark, checkpointed};
ghost use Rattle.volume.specs.declared.Told.TheVariants as told;

use super::{Advanced, MarkedSpot, Reply, Told, Volume};
use base::Refusal;
use layout::{Block, Spot};
use marks::{NextCopy, Stage};

impl Volume {
    // The state with mark j copied.
    pub(crate) fn with_mark(self, j: usize) -> Volume
        requires { j < mark_count }
        ensures { result ≡ with_mark self j }
    {
        Volume {
            copied: marks::with_mark(self.copied, j),
            ..self
        }
    }

    // The state that a checkpoint records.
    pub(crate) fn checkpointed(&self) -> Volume
        requires { (sound self.now ≡ true) × (self.now.growing ≢ 0) }
        ensures { result ≡ checkpointed self.now }
    {
        let w = self.window;
        if !self.stage().all_copied(self.history()) {
            return self.in_stage(Stage {
                growing: self.growing,
                window: w,
                recorded: self.copied,
                copied: self.copied,
            });
        }
        let unmarked = Stage {
            growing: self.growing,
            window: w,
            recorded: 0,
            copied: 0,
        };
        if w + 1 == window::window_count(self.newest_growth(), self.rows) {
            return self.in_stage(Stage {
                growing: 0,
                window: 0,
                ..unmarked
            });
        }
        self.in_stage(Stage {
            window: w + 1,
            ..unmarked
        })
    }

    // The state with what an advance did and the number of advance calls left.
    pub(crate) fn tell(&self, did: Advanced) -> Reply<Told>
        requires { sound self.now ≡ true }
        ensures { result ≡ record { state = self.now; answer = Ok (told.Advanced did (calls_left_of (tally_of self.now))) } }
    {
        let left = self.calls_left();
        self.accept(Told::Advanced(did, left))
    }

    // What a checkpoint that left this state did.
    pub(crate) fn checkpoint_told(&self) -> Advanced
        ensures { result ≡ checkpoint_told self.now }
    {
        if self.growing == 0 {
            return Advanced::Finished;
        }
        Advanced::Recorded
    }

    // Stores the bytes of block x, which are at its old spot p, at its new spot.
    pub(crate) fn store_copy(&self, medium: &mut [u8], x: Block, p: Spot)
        requires sound_state { (sound self.now ≡ true) × (self.now.growing ≢ 0) }
        requires room { bytes_needed (geometry self.now) (disks self.now) ≤ length medium.old }
        requires to_copy { (moves_now (tally_of self.now) x.0 ≡ true) × ((tally_of self.now).copied x.0 ≡ false) }
        requires at_old_spot { p ≡ old_spot self.now.rows (history_of self.now) x.0 }
        ensures { medium.new ≡ apply (geometry self.now) (copy_store self.now x.0 (observe medium.old)) medium.old }
    {
        let to = self.newest_growth().spot_after(self.rows, x.0, p);
        medium::copy_block(medium, self.geometry(), p, to);
    }

    // The tests that copy, checkpoint and advance share.
    pub(crate) fn check_growth(&self, len: usize) -> Result<(), Refusal>
        ensures { result ≡ checked (refusal (growth_table self.now len)) }
    {
        if !self.is_sound() {
            return Err(Refusal::NotSound);
        }
        if self.is_short(self.disk_count(), len) {
            return Err(Refusal::MediumTooShort);
        }
        if self.growing == 0 {
            return Err(Refusal::NotGrowing);
        }
        Ok(())
    }

    // The old spot of block x, which a copy is taken from, and its mark.
    pub(crate) fn copy_spot(&self, x: Block, len: usize) -> Result<MarkedSpot, Refusal>
        ensures { result ≡ found_at (refusal (copy_table self.now x.0 len)) (record { spot = old_spot self.now.rows (history_of self.now) x.0; mark = mark_of self.now.rows (history_of self.now) x.0 }) }
    {
        self.check_growth(len)?;
        if self.open_blocks() <= x.0 {
            return Err(Refusal::BlockNotOpen);
        }
        let spot = self.old_spot(x);
        let growth = self.newest_growth();
        if !self.stage().moves_now(growth, spot) {
            return Err(Refusal::NotMoving);
        }
        let mark = window::mark_of_spot(growth, spot);
        if marks::has_mark(self.copied, mark) {
            return Err(Refusal::AlreadyCopied);
        }
        self.check_block_store()?;
        Ok(MarkedSpot { spot, mark })
    }

    // Copies block x to its new spot.
    pub fn copy(self, medium: &mut [u8], x: Block) -> Reply<Told>
        ensures value { result ≡ (copy_outcome self x.0 (observe medium.old)).reply }
        ensures medium_after { medium.new ≡ apply (geometry self) (copy_outcome self x.0 (observe medium.old)).store medium.old }
    {
        match self.copy_spot(x, medium.len()) {
            Err(refusal) => self.refuse(refusal),
            Ok(found) => {
                self.store_copy(medium, x, found.spot);
                self.with_mark(found.mark).after_block().report()
            }
        }
    }

    pub(crate) fn check_checkpoint(&self, len: usize) -> Result<(), Refusal>
        ensures { result ≡ checked (refusal (checkpoint_table self.now len)) }
    {
        self.check_growth(len)?;
        if self.copied == self.recorded {
            return Err(Refusal::NothingToRecord);
        }
        self.check_record_store()
    }

    // Records the copies made.
    pub fn checkpoint(self, medium: &mut [u8]) -> Reply<Told>
        ensures value { result ≡ (checkpoint_outcome self (observe medium.old)).reply }
        ensures medium_after { medium.new ≡ apply (geometry self) (checkpoint_outcome self (observe medium.old)).store medium.old }
    {
        if let Err(refusal) = self.check_checkpoint(medium.len()) {
            return self.refuse(refusal);
        }
        let next = self.checkpointed().after_record();
        next.store_record(medium);
        next.report()
    }

    // Copies the next block or, when none is left in the window, records the copies.
    pub fn advance(self, medium: &mut [u8]) -> Reply<Told>
        ensures value { result ≡ (advance_outcome self (observe medium.old)).reply }
        ensures medium_after { medium.new ≡ apply (geometry self) (advance_outcome self (observe medium.old)).store medium.old }
    {
        if let Err(refusal) = self.check_growth(medium.len()) {
            return self.refuse(refusal);
        }
        match self.next_copy() {
            None => self.advance_record(medium),
            Some(next) => self.advance_copy(medium, next),
        }
    }

    // The advance that does the checkpoint.
    pub(crate) fn advance_record(self, medium: &mut [u8]) -> Reply<Told>
        requires sound_state { (sound self ≡ true) × (self.growing ≢ 0) }
        requires room { bytes_needed (geometry self) (disks self) ≤ length medium.old }
        requires next { next_block (tally_of self) ≡ none }
        ensures value { result ≡ (advance_outcome self (observe medium.old)).reply }
        ensures medium_after { medium.new ≡ apply (geometry self) (advance_outcome self (observe medium.old)).store medium.old }
    {
        if let Err(refusal) = self.check_record_store() {
            return self.refuse(refusal);
        }
        let next = self.checkpointed();
        let did = next.checkpoint_told();
        let v = next.after_record();
        v.store_record(medium);
        v.tell(did)
    }

    // The advance that copies a block.
    pub(crate) fn advance_copy(self, medium: &mut [u8], next: NextCopy) -> Reply<Told>
        requires sound_state { (sound self ≡ true) × (self.growing ≢ 0) }
        requires room { bytes_needed (geometry self) (disks self) ≤ length medium.old }
        requires next { (next_block (tally_of self) ≡ some next.block.0) × (next.part ≡ part_moved self.rows (history_of self) next.block.0) }
        requires at_old_spot { (next.from ≡ old_spot self.rows (history_of self) next.block.0) × (next.mark ≡ mark_of self.rows (history_of self) next.block.0) }
        ensures value { result ≡ (advance_outcome self (observe medium.old)).reply }
        ensures medium_after { medium.new ≡ apply (geometry self) (advance_outcome self (observe medium.old)).store medium.old }
    {
        if let Err(waits) = self.check_block_store() {
            return self.refuse(waits);
        }
        self.store_copy(medium, next.block, next.from);
        self.with_mark(next.mark)
            .after_block()
            .tell(Advanced::Copied(next.block, next.part))
    }

    // The block to copy next, if one is left in the window.
    pub(crate) fn next_copy(&self) -> Option<NextCopy>
        requires sound_state { (sound self.now ≡ true) × (self.now.growing ≢ 0) }
        ensures { result ≡ as_next_copy self.now.rows (history_of self.now) (next_block (tally_of self.now)) }
    {
        self.stage().next_copy(self.history())
    }
}
