//! What a reader does, and what it found.
ghost use Rattle.std.specs.Prelude.{◌≡◌, ◌+◌, ◌*◌, ◌<◌, ◌≤◌, ℕ};
ghost use Rattle.epoch_bench.specs.Reads.{rightly};

use crate::stamp::Reader;

/// What readers have found.
#[derive(Clone, Copy, Debug, PartialEq, Eq)]
pub(crate) struct Found {
    /// How often they entered and left.
    pub(crate) entered: u64,
    /// How many values were that of the version entered at.
    pub(crate) equal: u64,
    /// How many versions were below the one before.
    pub(crate) fell: u64,
}

impl Found {
    /// Nothing yet.
    pub(crate) fn none() -> Found
        ensures { result ≡ rightly 0 }
    {
        Found {
            entered: 0,
            equal: 0,
            fell: 0,
        }
    }

    /// Adds what another reader has found.
    pub(crate) fn add(&mut self, other: Found)
        requires entered { self.old.entered + other.entered ≤ 18446744073709551615 }
        requires equal { self.old.equal + other.equal ≤ 18446744073709551615 }
        requires fell { self.old.fell + other.fell ≤ 18446744073709551615 }
        ensures { self.new ≡ record { entered = self.old.entered + other.entered; equal = self.old.equal + other.equal; fell = self.old.fell + other.fell } }
    {
        self.entered += other.entered;
        self.equal += other.equal;
        self.fell += other.fell;
    }
}

/// Enters and leaves once, with the version that was read before.
fn read(seat: Reader, found: &mut Found, before: u64) -> (Reader, u64)
    requires room { (found.old.entered < 18446744073709551615) × (found.old.equal ≤ found.old.entered) }
    requires before { before ≤ seat.own.seen }
    ensures seat { (result.0.table ≡ seat.table) × (result.0.number ≡ seat.number) }
    ensures entered { result.0.own.enters ≡ seat.own.enters + 1 }
    ensures version { result.1 ≡ result.0.own.seen }
    ensures later { before ≤ result.1 }
    ensures found { found.new ≡ record { entered = found.old.entered + 1; equal = found.old.equal + 1; fell = found.old.fell } }
{
    let standing = seat.enter();
    let version = standing.version();
    let equal = standing.value().0 == version;
    let fell = version < before;
    found.entered += 1;
    if equal {
        found.equal += 1;
    }
    if fell {
        found.fell += 1;
    }
    (standing.leave(), version)
}

/// Enters and leaves so often, in turn. Each value is that of the version entered at, and no
/// version is below the one before.
pub(crate) fn read_on(seat: Reader, rounds: u64) -> (Reader, Found)
    ensures seat { (result.0.table ≡ seat.table) × (result.0.number ≡ seat.number) }
    ensures entered { result.0.own.enters ≡ seat.own.enters + rounds }
    ensures found { result.1 ≡ rightly rounds }
{
    let mut seat = seat;
    let mut before = seat.seen();
    let mut found = Found::none();
    for _round in 0..rounds {
        (seat, before) = read(seat, &mut found, before);
    }
    (seat, found)
}
