//! One reader of the plain program.
ghost use Rattle.std.specs.Prelude.{◌≡◌, ◌%◌, ◌<◌, ◌↔◌, IsTrue};
ghost use Rattle.epoch_core.specs.Step.{may_pass};

use crate::{Own, Phase};

/// The plain program goes on while its numbers are below this, so that no sum overflows.
pub(crate) const MOST: u64 = 1 << 62;

/// How many banks the plain program has.
pub(crate) const BANKS: u64 = 4;

/// Where a place is.
#[derive(Clone, Copy, Debug, PartialEq, Eq)]
pub enum PlainSpot {
    /// At home in its bank.
    Home,
    /// With its reader.
    Reader,
    /// With the control.
    Control,
}

/// The bank in which a version stands.
fn bank_of(version: u64) -> usize
    ensures { result ≡ version % BANKS }
{
    (version % BANKS) as usize
}

/// Whether a reader whose announcement is `ann` may be passed while `cur` is published.
fn may_pass_at(cur: u64, ann: u64) -> bool
    requires published { cur < MOST }
    requires announced { ann < MOST }
    ensures { result ≡ may_pass BANKS cur ann }
{
    ann == 0 || cur + 2 < ann + BANKS
}

/// One reader.
#[derive(Debug, Drop)]
pub struct PlainReader {
    /// Its announcement: 0, or the version that it announces plus 1.
    pub ann: u64,
    /// Its own numbers and its phase.
    pub own: Own,
    /// Whether the control has passed it for the next version.
    pub passed: bool,
    /// Where its place in each bank is.
    pub spots: [PlainSpot; 4],
    /// The version that its place in each bank holds, or nothing.
    pub held: [Option<u64>; 4],
}

impl PlainReader {
    ghost use Rattle.std.specs.Prelude.{◌≡◌};
    ghost use Rattle.epoch_core.specs.Plain.{reader_of, HasRoom};
    ghost use Rattle.epoch_core.specs.Step.{looked_reader, announced_reader, entered_reader, left_reader, scanned_reader, published_reader, told_reader};
    ghost use Rattle.epoch_core.specs.World.{first_reader};

    /// A reader that has done nothing yet.
    pub(crate) fn new() -> Self
        ensures { reader_of result ≡ first_reader }
    {
        let own = Own {
            last: 0,
            seen: 0,
            phase: Phase::Idle,
            looks: 0,
            announces: 0,
            enters: 0,
            hits: [],
        };
        PlainReader {
            ann: 0,
            own,
            passed: false,
            spots: [PlainSpot::Home; 4],
            held: [Some(0), None, None, None],
        }
    }

    /// Whether no number is near its type's end.
    pub(crate) fn has_room(&self) -> bool
        ensures { IsTrue result ↔ HasRoom self.now }
    {
        self.ann < MOST
            && self.own.last < MOST
            && self.own.looks < MOST
            && self.own.announces < MOST
            && self.own.enters < MOST
    }

    /// It looks while `cur` is published.
    pub(crate) fn look(&mut self, cur: u64)
        requires { HasRoom self.old }
        ensures { reader_of self.new ≡ looked_reader cur (reader_of self.old) }
    {
        self.own.last = cur;
        self.own.seen = cur;
        self.own.looks += 1;
    }

    /// It announces the version that it looked at last.
    pub(crate) fn announce(&mut self)
        requires { HasRoom self.old }
        ensures { reader_of self.new ≡ announced_reader (reader_of self.old) }
    {
        self.ann = self.own.last + 1;
        self.own.phase = Phase::Standing(self.own.last);
        self.own.announces += 1;
    }

    /// It enters while `cur` is published, and has its place in the bank of `cur`.
    pub(crate) fn enter(&mut self, cur: u64)
        requires { HasRoom self.old }
        ensures { reader_of self.new ≡ entered_reader BANKS cur (reader_of self.old) }
    {
        self.own.phase = Phase::Holding {
            announced: self.own.phase.announced_version(),
            version: cur,
        };
        self.own.seen = cur;
        self.own.enters += 1;
        self.spots[bank_of(cur)] = PlainSpot::Reader;
    }

    /// It leaves, and its place is home again.
    pub(crate) fn leave(&mut self)
        ensures { reader_of self.new ≡ left_reader BANKS (reader_of self.old) }
    {
        self.ann = 0;
        self.spots[bank_of(self.own.phase.version_in_hand())] = PlainSpot::Home;
        self.own.phase = Phase::Idle;
    }

    /// The control scans it while `cur` is published, and has its place in the next bank if it passes it.
    pub(crate) fn scan(&mut self, cur: u64)
        requires published { cur < MOST }
        requires room { HasRoom self.old }
        ensures { reader_of self.new ≡ scanned_reader BANKS cur (reader_of self.old) }
    {
        if may_pass_at(cur, self.ann) {
            self.passed = true;
            self.spots[bank_of(cur + 1)] = PlainSpot::Control;
        }
    }

    /// The version after `cur` is published, and stands in its place in that bank.
    pub(crate) fn publish(&mut self, cur: u64)
        requires { cur < MOST }
        ensures { reader_of self.new ≡ published_reader BANKS cur (reader_of self.old) }
    {
        self.passed = false;
        self.spots[bank_of(cur + 1)] = PlainSpot::Home;
        self.held[bank_of(cur + 1)] = Some(cur + 1);
    }

    /// It takes in a note of a version.
    pub(crate) fn learn(&mut self, version: u64)
        ensures { reader_of self.new ≡ told_reader version (reader_of self.old) }
    {
        self.own.seen = self.own.seen.max(version);
    }
}
