// The refusals of documents 01 and 02, and definitions and laws that several crates need: numbers below a bound, tests,
// lists.
#![tactic(auto)]

ghost use Rattle.std.specs.Prelude.{◌≡◌};
ghost use Rattle.base.specs.Refusals.{refusal_number};

// Why a call refuses. Each has the number that the documents give it.
#[derive(Clone, Copy, PartialEq, Eq, Debug)]
pub enum Refusal {
    // The state is not sound.
    NotSound = 1,
    // The medium is too short for the record and the disks, or a shelf for what it holds.
    MediumTooShort = 2,
    // The block is not open: past the end, or added by the growth under way.
    BlockNotOpen = 3,
    // The piece is not one block long.
    PieceSize = 4,
    // No growth is under way.
    NotGrowing = 5,
    // A growth is under way already.
    Growing = 6,
    // The block is copied but not recorded.
    CopyNotRecorded = 7,
    // A block size, a number of rows or a number of disks is outside its limits.
    OutsideLimits = 8,
    // The volume has had its growths.
    NoMoreGrowths = 9,
    // The block does not move, or is not in the window under way.
    NotMoving = 10,
    // The block is copied already.
    AlreadyCopied = 11,
    // All copies are recorded.
    NothingToRecord = 12,
    // The bytes are not the record of a sound state.
    NoRecord = 13,
    // The disk or the row does not exist.
    NoSuchSpot = 14,
    // No open block lives at the spot.
    NoBlockThere = 15,
    // The page is too short for the chart.
    PageTooShort = 16,
    // A listed scene reaches past the open blocks, or stands too far back in its list.
    NoSuchScene = 17,
    // A record store is due and block stores are pending.
    FlushBlocks = 18,
    // A record store is pending.
    FlushRecord = 19,
    // The growth would more than double the disks.
    BeyondDoubling = 20,
    // The block is outside the client's span, or the span table breaks its rule.
    OutsideSpan = 21,
}

impl Refusal {
    // Its number in documents 01 and 02.
    pub fn number(self) -> usize
        ensures { result ≡ refusal_number self }
    {
        self as usize
    }
}
