//! When a version is cut.
use rib_store::Command;
use std::marker::Model;

/// For how many milliseconds a bucket takes changes.
const BUCKET_MS: u64 = 50;

/// How many changes of a bucket are published one by one.
const BUCKET_CHANGES: u32 = 25;

/// How many pending changes are published together at once.
const BATCH: u32 = 256;

/// Whether a version is cut.
#[derive(Clone, Copy, Debug, PartialEq, Eq)]
pub enum Cut {
    /// No version is cut.
    Stay,
    /// A version is cut, of all commands so far.
    Now,
}

/// What decides after each command whether a version is cut.
///
/// It is seen as four numbers: the moment in milliseconds, the start of the bucket, the count of
/// the bucket's changes, and how many changes are pending, which no version has yet.
#[derive(Debug, Drop)]
pub struct Cutter {
    moment: u64,
    start: u64,
    count: u32,
    pending: u32,
}

impl Model for Cutter {
    ghost use Rattle.std.specs.Prelude.{◌≤◌};
    ghost use Rattle.plan_cut.specs.Counters.{Counters};

    ghost Value = { Counters };

    ghost view = { λ c. record { moment = c.moment; start = c.start; count = c.count; pending = c.pending } };

    ghost invariant = { λ c. c.start ≤ c.moment };
}

impl Cutter {
    ghost use Rattle.std.specs.Prelude.{◌≡◌, ℕ, ◌+◌, ◌<◌, ◌≤◌, ◌^◌, nat_lt};
    ghost use Rattle.plan_cut.specs.Counters.{counters_at};
    ghost use Rattle.plan_cut.specs.Course.{Algos, Course, IsCommand};
    ghost use Rattle.plan_cut.specs.Versions.{asks, differs_at, latest, makes, makes_at_end};
    ghost use Rattle.plan_cut.specs.Standing.{StandsAt, beat_of, cut_of};

    /// The cutter before the first command.
    pub fn new() -> Cutter
        ensures zero { result ≡ record { moment = 0; start = 0; count = 0; pending = 0 } }
        ensures stands { (course : Course) → StandsAt course 0 result }
    {
        Cutter {
            moment: 0,
            start: 0,
            count: 0,
            pending: 0,
        }
    }

    /// Counts a command and says whether a version is cut behind it.
    ///
    /// `changed` says that the command was an accepted change, and `differs` that the module chosen
    /// now differs from that of the current version; only an `Algo` asks the second. The moment is
    /// below 2^52 milliseconds, and fewer than 1,048,576 commands were counted and wait.
    pub fn step<const W: u32>(&mut self, changed: bool, command: &Command<W>, differs: bool) -> Cut
        requires early { self.old.moment < 2 ^ 52 }
        requires few { self.old.count < 1048576 }
        requires waiting { self.old.pending < 1048576 }
        ensures stands { (course : Course) (m : ℕ) → StandsAt course m self.old
            → IsCommand course (m + 1) changed (beat_of command.now)
            → StandsAt course (m + 1) self.new }
        ensures cuts { (course : Course) (m : ℕ) → StandsAt course m self.old
            → IsCommand course (m + 1) changed (beat_of command.now)
            → (beat_of command.now ≡ Algos → differs ≡ differs_at course (m + 1) (latest course m))
            → result ≡ cut_of (makes course (m + 1)) }
        ensures moment { self.new.moment < self.old.moment + 2 ^ 32 }
        ensures count { self.new.count ≤ self.old.count + 1 }
        ensures pending { self.new.pending ≤ self.old.pending + 1 }
    {
        self.count(changed, command);
        if self.asks(changed, command, differs) {
            self.pending = 0;
            Cut::Now
        } else {
            Cut::Stay
        }
    }

    /// Says whether the end of the plan cuts a version: it does where changes are pending.
    pub fn finish(&mut self) -> Cut
        ensures pending { result ≡ cut_of (nat_lt 0 self.old.pending) }
        ensures cuts { (course : Course) → StandsAt course course.len self.old
            → result ≡ cut_of (makes_at_end course) }
        ensures spent { self.new ≡ record self.old { pending = 0 } }
    {
        if self.pending > 0 {
            self.pending = 0;
            Cut::Now
        } else {
            Cut::Stay
        }
    }

    /// Counts a command: the numbers are then those of the next position, where no version has been
    /// cut since.
    fn count<const W: u32>(&mut self, changed: bool, command: &Command<W>)
        requires early { self.old.moment < 2 ^ 52 }
        requires few { self.old.count < 1048576 }
        requires waiting { self.old.pending < 1048576 }
        ensures numbers { (course : Course) (m : ℕ) → StandsAt course m self.old
            → IsCommand course (m + 1) changed (beat_of command.now)
            → self.new ≡ counters_at course (latest course m).count (m + 1) }
        ensures moment { self.new.moment < self.old.moment + 2 ^ 32 }
        ensures count { self.new.count ≤ self.old.count + 1 }
        ensures pending { self.new.pending ≤ self.old.pending + 1 }
    {
        if let Command::Tick { ms } = command {
            self.moment += u64::from(*ms);
        }
        if changed {
            if self.moment - self.start >= BUCKET_MS {
                self.start = self.moment;
                self.count = 0;
            }
            self.count += 1;
            self.pending += 1;
        }
    }

    /// Whether a version is asked for, by the numbers as they are.
    fn asks<const W: u32>(&self, changed: bool, command: &Command<W>, differs: bool) -> bool
        ensures { result ≡ asks changed (beat_of command.now) differs self.now }
    {
        (changed && (self.count <= BUCKET_CHANGES || self.pending == BATCH))
            || match command {
                Command::Tick { .. } => self.pending > 0 && self.moment - self.start >= BUCKET_MS,
                Command::Sync => self.pending > 0,
                Command::Algo { .. } => self.pending > 0 || differs,
                _ => false,
            }
    }
}
