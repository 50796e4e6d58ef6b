// The limits, the states that calls hand back, and the record of a state.
ghost use Rattle.std.specs.Prelude.{◌≡◌, ◌≤◌, ◌<◌, length};
ghost use Rattle.layout.specs.Limits.{most_growths};
ghost use Rattle.medium.specs.Medium.{record_store, apply};
ghost use Rattle.volume.specs.Records.{record_of, state_of};
ghost use Rattle.volume.specs.States.{geometry, new_state, with_growth, in_stage, zeros, grown};

use super::{Pending, Volume};
use marks::Stage;
use record::Record;

impl Volume {
    // Document 01, "Words and limits". Block sizes are multiples of SIZE_STEP.
    pub const LEAST_DISKS: usize = 1;

    pub const MOST_DISKS: usize = 16;

    pub const MOST_GROWTHS: usize = 7;

    pub const LEAST_ROWS: usize = 1;

    pub const MOST_ROWS: usize = 1_000_000;

    pub const SIZE_STEP: usize = 512;

    pub const LEAST_SIZE: usize = 512;

    pub const MOST_SIZE: usize = medium::MOST_SIZE;

    // The state of zeros.
    pub fn zeros() -> Volume
        ensures { result ≡ zeros }
    {
        Volume::new_state(0, 0, 0)
    }

    // A volume with no growth.
    pub(crate) fn new_state(size: usize, rows: usize, disks: usize) -> Volume
        ensures { result ≡ new_state size rows disks }
    {
        let mut counts = [0usize; 8];
        counts[0] = disks;
        Volume {
            size,
            rows,
            growths: 0,
            counts,
            growing: 0,
            window: 0,
            recorded: 0,
            copied: 0,
            pending: Pending {
                records: false,
                blocks: false,
            },
        }
    }

    // The same blocks and rows with another history and another stage of a growth.
    pub(crate) fn with_growth(
        self,
        t: usize,
        counts: [usize; 8],
        growing: usize,
        w: usize,
        recorded: usize,
        copied: usize,
    ) -> Volume
        ensures { result ≡ with_growth self t counts growing w recorded copied }
    {
        Volume {
            growths: t,
            counts,
            growing,
            window: w,
            recorded,
            copied,
            ..self
        }
    }

    // The same history, in another stage of a growth.
    pub(crate) fn in_stage(&self, stage: Stage) -> Volume
        ensures { result ≡ in_stage self.now stage.growing stage.window stage.recorded stage.copied }
    {
        Volume {
            growing: stage.growing,
            window: stage.window,
            recorded: stage.recorded,
            copied: stage.copied,
            ..*self
        }
    }

    // The state at the start of a growth.
    pub(crate) fn grown(self, count: usize) -> Volume
        requires { self.growths < most_growths }
        ensures { result ≡ grown self count }
    {
        let t = self.growths + 1;
        let mut counts = self.counts;
        counts[t] = count;
        self.with_growth(t, counts, 1, 0, 0, 0)
    }

    // Stores the record.
    pub(crate) fn store_record(&self, medium: &mut [u8])
        requires { 512 ≤ length medium.old }
        ensures { medium.new ≡ apply (geometry self.now) (record_store (record_of self.now)) medium.old }
    {
        let c = self.counts;
        let numbers = [
            self.size,
            self.rows,
            self.growths,
            c[0],
            c[1],
            c[2],
            c[3],
            c[4],
            c[5],
            c[6],
            c[7],
            self.growing,
            self.window,
        ];
        let marks = marks::marks_of(self.recorded);
        record::write_record(medium, &Record { numbers, marks });
    }

    // The state of a record's numbers and marks.
    pub(crate) fn from_record(found: &Record) -> Volume
        ensures { result ≡ state_of found.now.numbers found.now.marks }
    {
        let numbers = found.numbers;
        let counts = [
            numbers[3],
            numbers[4],
            numbers[5],
            numbers[6],
            numbers[7],
            numbers[8],
            numbers[9],
            numbers[10],
        ];
        let fresh = Volume::new_state(numbers[0], numbers[1], 0);
        let word = marks::word_of(found.marks);
        fresh.with_growth(numbers[2], counts, numbers[11], numbers[12], word, word)
    }
}
