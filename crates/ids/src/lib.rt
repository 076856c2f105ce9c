// Ballot, slot and replica number are counted apart, as the source's aliases name them; why a call, an edit or a line
// is turned away.
#![tactic(auto)]

ghost use Rattle.std.specs.Prelude.{◌≡◌};
ghost use Rattle.ids.specs.Refusal.{number_of};

#[derive(Clone, Copy, PartialEq, Eq, PartialOrd, Ord, Default)]
pub struct Ballot(pub u64);

#[derive(Clone, Copy, PartialEq, Eq, PartialOrd, Ord, Default)]
pub struct Slot(pub u64);

impl Slot {
    // The largest slot or bar, and what means "beyond every slot".
    pub const TOP: Slot = Slot(0xffff_ffff_ffff);

    pub const BEYOND: Slot = Slot(u64::MAX);
}

#[derive(Clone, Copy, PartialEq, Eq, PartialOrd, Ord, Default)]
pub struct Replica(pub u8);

impl Replica {
    // How many there can be; their numbers are below it.
    pub const LIMIT: u8 = 64;
}

// Why a call, an edit of a roster or a line is turned away, each with document 01's number.
#[derive(Clone, Copy, PartialEq, Eq)]
pub enum Refusal {
    // The line is too long, of no known name, or its fields are not well-formed.
    Malformed = 1,
    // The lent buffer is too short, or no call made the node.
    NotReady = 2,
    NoSuchReplica = 3,
    MaskTooWide = 4,
    KeyTooLong = 5,
    UnreadBound = 6,
    RangeReversed = 7,
    SlotTooLarge = 8,
    BatchTooLarge = 9,
    OwnGuard = 10,
    BarsBroken = 11,
    RosterMissing = 12,
    BallotNotCurrent = 13,
    SlotEnded = 14,
    WindowFull = 15,
    SlotNotHeld = 16,
    TooManyRanges = 17,
    TooManyKeys = 18,
    TooManyReads = 19,
    AreaTooSmall = 20,
}

impl Refusal {
    // By name: document 01 numbers them, and `u64::from` would not say what the word is.
    pub fn number(self) -> u64
        ensures { result ≡ number_of self }
    {
        self as u64
    }
}
