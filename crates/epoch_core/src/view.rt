//! What a seat at the table knows.

use crate::event::Event;

/// Where a reader stands.
#[derive(Clone, Copy, Debug, PartialEq, Eq)]
pub enum Phase {
    /// Outside: it announces nothing and has nothing in hand.
    Idle,
    /// At the version that it has announced, with nothing in hand yet.
    Standing(u64),
    /// With a version in hand.
    Holding {
        /// The version that it has announced.
        announced: u64,
        /// The version in hand.
        version: u64,
    },
}

impl Phase {
    ghost use Rattle.std.specs.Prelude.{◌≡◌};
    ghost use Rattle.epoch_core.specs.Step.{is_idle, is_standing, is_holding, announced_version, version_in_hand};

    /// Whether the reader is outside.
    pub fn is_idle(self) -> bool
        ensures { result ≡ is_idle self }
    {
        match self {
            Phase::Idle => true,
            Phase::Standing(_) | Phase::Holding { .. } => false,
        }
    }

    /// Whether the reader has announced a version and has nothing in hand yet.
    pub fn is_standing(self) -> bool
        ensures { result ≡ is_standing self }
    {
        match self {
            Phase::Standing(_) => true,
            Phase::Idle | Phase::Holding { .. } => false,
        }
    }

    /// Whether the reader has a version in hand.
    pub fn is_holding(self) -> bool
        ensures { result ≡ is_holding self }
    {
        match self {
            Phase::Holding { .. } => true,
            Phase::Idle | Phase::Standing(_) => false,
        }
    }

    /// The version that the reader announces, 0 where it is outside.
    pub fn announced_version(self) -> u64
        ensures { result ≡ announced_version self }
    {
        match self {
            Phase::Idle => 0,
            Phase::Standing(announced) | Phase::Holding { announced, .. } => announced,
        }
    }

    /// The version that the reader has in hand, 0 where it has none.
    pub fn version_in_hand(self) -> u64
        ensures { result ≡ version_in_hand self }
    {
        match self {
            Phase::Idle | Phase::Standing(_) => 0,
            Phase::Holding { version, .. } => version,
        }
    }
}

/// What a reader knows of itself.
#[derive(Clone, Copy, Debug, PartialEq, Eq)]
pub struct Own {
    /// The version that it looked at last.
    pub last: u64,
    /// The latest version that it has looked at, entered at or been told of.
    pub seen: u64,
    /// Where it stands.
    pub phase: Phase,
    /// How often it has looked.
    pub looks: u64,
    /// How often it has announced.
    pub announces: u64,
    /// How often it has entered.
    pub enters: u64,
    /// The number of each of its hits, the latest first. A contract reads an array as a list.
    pub hits: [u64; 0],
}

/// A step that a seat made, in the history of its table. Contracts alone speak of it.
pub struct Made {
    /// Which of the table's steps on words it was, counted from 1; 0 where it was on no word, as at
    /// a note.
    pub at: u64,
    /// The event that it was.
    pub event: Event,
    /// The number that it found in its word, or stored there; the version at a note.
    pub number: u64,
}

/// What the control knows. Contracts alone speak of it: no value of this type is made.
pub struct ControlOwn {
    /// How many readers there are.
    pub readers: u64,
    /// The version that it published last.
    pub version: u64,
    /// The readers below this number are passed for the next version.
    pub passed: u64,
    /// How many scans it has made.
    pub scans: u64,
    /// The reader of the last scan, and the announcement that it found.
    pub found: (u64, u64),
    /// How many notes it has made.
    pub made: u64,
    /// How many readers' seats it has made.
    pub opened: u64,
    /// The readers whose seats it has taken in, each with its numbers and its steps. A contract
    /// reads an array as a list.
    pub ended: [(u64, Own, [Made; 0]); 0],
    /// The indexes whose words it has given to numbers since it published last, the latest first.
    pub done: [(u64, u64); 0],
    /// The number and the count that it found in each word that it gave away, the latest first.
    pub booked: [(u64, u64); 0],
    /// The indexes whose words it has tallied, each with what it found, the latest first.
    pub tallied: [(u64, u64); 0],
    /// The greatest number.
    pub numbers: u64,
}

/// What a seat at the table is. Contracts alone speak of it.
pub enum Role {
    /// A seat that was taken in by another.
    Spent,
    /// The seat of the reader of this number.
    Reader(u64, Own),
    /// The control's seat.
    Control(ControlOwn),
    /// The note of this number, with the version that it was made at.
    Note(u64, u64),
}

/// What a seat knows: what its table is for, what it is, and what it has done. Contracts alone
/// speak of it.
pub struct View<Q> {
    /// What the table is for.
    pub key: Q,
    /// What the seat is.
    pub role: Role,
    /// The steps that it has made, in order.
    pub steps: [Made; 0],
}
