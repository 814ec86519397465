//! The publisher, and what it tells.
ghost use Rattle.std.specs.Prelude.{◌≡◌, ℕ, ◌+◌, ◌<◌, ◌≤◌, [], ◌∷◌, ◌++◌, All, IfOk, IfErr, OnOk, OnErr, length};
ghost use Rattle.std.specs.Arc.{arc_value};
ghost use Rattle.fib_sync.specs.Lawful.{IsLawful};
ghost use Rattle.fib_sync.specs.VersionNames.{fresh_at, names_at, pairs_at};
ghost use Rattle.epoch_core.specs.declared.event.Event.TheVariants as event;
ghost use Rattle.epoch_core.specs.History.{PassedThen, PublishedThen};
ghost use Rattle.fib_pass.specs.Views.{IsPublisher};
ghost use Rattle.rib_store.specs.Plan.{firsts, named};

use crate::OutOfMemory;
use crate::key::FibKey;
use engine_set::Image;
use epoch_core::{ControlSeat, Copies, Held, Note};
use rib_store::Plan;
use std::alloc::Global;
use std::marker::Model;
use std::sync::Arc;

/// The one that publishes the versions of a fib.
#[derive(Drop)]
pub struct Publisher<const W: u32, const K: u64, const LIVE: u32> {
    seat: ControlSeat<FibKey<W, K, LIVE>, Image<W>, K, LIVE>,
    plan: Arc<Plan<W>, Global>,
}

impl<const W: u32, const K: u64, const LIVE: u32> Model for Publisher<W, K, LIVE> {
    ghost use Rattle.std.specs.Arc.{arc_value};
    ghost use Rattle.rib_store.specs.Plan.{Planned};
    ghost use Rattle.epoch_core.specs.SeatViews.{ControlView};
    ghost use Rattle.fib_pass.specs.Views.{IsPublisher};

    ghost Value = { ControlView (Planned W) };

    ghost view = { λ p. p.seat };

    ghost invariant = { λ p. IsPublisher K (arc_value p.plan) p.seat };
}

/// A handle of one image for each pass, ready to be published. Contracts see the images of the
/// handles, and the pairs of an index and a number that the version names anew.
#[derive(Drop)]
pub struct Ready<const W: u32, const K: u64, const LIVE: u32> {
    copies: Copies<Image<W>, K, LIVE>,
}

impl<const W: u32, const K: u64, const LIVE: u32> Model for Ready<W, K, LIVE> {
    ghost use Rattle.engine_set.specs.Image.{Picture};
    ghost use Rattle.epoch_core.specs.Copied.{Copied};

    ghost Value = { Copied (Picture W) };

    ghost view = { λ r. r.copies };
}

/// A pass that stands at an old version holds the next one up.
#[derive(Drop)]
pub struct Again<const W: u32, const K: u64, const LIVE: u32> {
    /// The pass's number.
    pub reader: u8,
    /// Its announcement: the version that it announces, plus 1.
    pub stands: u64,
    /// What was to be published.
    pub ready: Ready<W, K, LIVE>,
}

/// A version that the publisher had published.
#[derive(Drop)]
pub struct FibNote<const W: u32, const K: u64, const LIVE: u32> {
    pub(crate) note: Note<FibKey<W, K, LIVE>, Image<W>, K, LIVE>,
}

impl<const W: u32, const K: u64, const LIVE: u32> Model for FibNote<W, K, LIVE> {
    ghost use Rattle.rib_store.specs.Plan.{Planned};
    ghost use Rattle.epoch_core.specs.SeatViews.{NoteView};

    ghost Value = { NoteView (Planned W) };

    ghost view = { λ n. n.note };
}

impl<const W: u32, const K: u64, const LIVE: u32> FibNote<W, K, LIVE> {
    /// The version that was published when the note was made.
    pub fn version(&self) -> u64
        ensures { result ≡ self.now.version }
    {
        self.note.version()
    }
}

impl<const W: u32, const K: u64, const LIVE: u32> Publisher<W, K, LIVE> {
    /// The publisher of a seat that has done nothing yet.
    pub(crate) fn seated(
        seat: ControlSeat<FibKey<W, K, LIVE>, Image<W>, K, LIVE>,
        plan: Arc<Plan<W>, Global>,
    ) -> Publisher<W, K, LIVE>
        requires { IsPublisher K (arc_value plan) seat }
        ensures { result ≡ seat.entry }
    {
        Publisher { seat, plan }
    }

    /// Its seat, and the plan.
    pub(crate) fn into_parts(
        self,
    ) -> (
        ControlSeat<FibKey<W, K, LIVE>, Image<W>, K, LIVE>,
        Arc<Plan<W>, Global>,
    )
        ensures seat { result.0 ≡ self.entry }
        ensures publisher { IsPublisher K (arc_value result.1) result.0 }
    {
        let Publisher { seat, plan } = self;
        (seat, plan)
    }

    /// The plan.
    pub(crate) fn plan(&self) -> &Plan<W>
        ensures plan { result.now ≡ self.now.key }
        ensures numbers { self.now.own.numbers ≡ length (firsts (named result.now)) }
    {
        &self.plan
    }

    /// How many passes were started.
    pub(crate) fn readers(&self) -> u8
        ensures { result ≡ self.now.own.readers }
    {
        self.seat.readers()
    }

    /// The version that it published last, 0 at first.
    pub fn version(&self) -> u64
        ensures { result ≡ self.now.own.version }
    {
        self.seat.version()
    }

    /// Readies an image of the next version: a handle of it for each pass. The image is lawful for
    /// the next version, as the control of the same plan gives it.
    pub fn prepare(
        &self,
        alloc: Global,
        image: &Arc<Image<W>, Global>,
    ) -> Result<Ready<W, K, LIVE>, OutOfMemory>
        requires lawful { IsLawful LIVE self.now.key (names_at K LIVE self.now.key (self.now.own.version + 1)) (self.now.own.version + 1) (arc_value image.now) }
        requires fresh { (arc_value image.now).fresh ≡ fresh_at K LIVE self.now.key (self.now.own.version + 1) }
        ensures count { IfOk result (λ r. length r.values ≡ self.now.own.readers) }
        ensures image { IfOk result (λ r. All (λ x. x ≡ arc_value image.now) r.values) }
        ensures fresh { IfOk result (λ r. r.fresh ≡ (arc_value image.now).fresh) }
    {
        let copies = self.seat.prepare(alloc, image, image.fresh())?;
        Ok(Ready { copies })
    }

    /// Scans the passes that aren't passed, in order. Where none holds the next version up, it
    /// publishes that, and answers it. Else the passes that were passed stay so, and what was ready
    /// comes back. What is ready was readied for that version.
    pub fn try_publish(&mut self, ready: Ready<W, K, LIVE>) -> Result<u64, Again<W, K, LIVE>>
        requires count { length ready.values ≡ self.old.own.readers }
        requires lawful { All (λ image. IsLawful LIVE self.old.key (names_at K LIVE self.old.key (self.old.own.version + 1)) (self.old.own.version + 1) image) ready.values }
        requires fresh { ready.fresh ≡ fresh_at K LIVE self.old.key (self.old.own.version + 1) }
        ensures seat { (self.new.table ≡ self.old.table) × (self.new.key ≡ self.old.key) × (self.new.own.readers ≡ self.old.own.readers) }
        ensures published { IfOk result (λ v. (v ≡ self.old.own.version + 1) × (self.new.own ≡ record self.old.own { version = v; passed = 0; booked = self.new.own.booked; scans = self.new.own.scans; found = self.new.own.found })) }
        ensures scans { OnOk result (self.new.own.scans + self.old.own.passed ≡ self.old.own.scans + self.old.own.readers) }
        ensures again { IfErr result (λ a. self.new.own ≡ record self.old.own { passed = a.reader; scans = self.new.own.scans; found = (a.reader, a.stands) }) }
        ensures held_up { IfErr result (λ a. (0 < a.stands) × (a.stands + K ≤ self.old.own.version + 2)) }
        ensures in_order { IfErr result (λ a. (self.old.own.passed ≤ a.reader) × (a.reader < self.old.own.readers) × (self.new.own.scans + self.old.own.passed ≡ self.old.own.scans + a.reader + 1)) }
        ensures published_last { OnOk result (PublishedThen K self.old.own.version self.old.own.passed self.old.own.readers self.old.steps self.old.own.found ready.entry.fresh (pairs_at K LIVE self.old.key (self.old.own.version + 1)) self.new.steps self.new.own.found) }
        ensures scanned_last { IfErr result (λ a. (found : ℕ × ℕ) × PassedThen K self.old.own.version self.old.own.passed a.reader self.old.steps self.old.own.found (event.Scan a.reader) a.stands self.new.steps found) }
        ensures ready { IfErr result (λ a. a.ready ≡ ready.entry) }
    {
        match self.seat.try_place(ready.copies) {
            Ok(version) => Ok(version),
            Err(
                Held {
                    reader,
                    stands,
                    copies,
                },
            ) => Err(Again {
                reader,
                stands,
                ready: Ready { copies },
            }),
        }
    }

    /// A note of the published version.
    pub fn tell(&mut self) -> Result<FibNote<W, K, LIVE>, OutOfMemory>
        ensures note { IfOk result (λ n. n ≡ record { table = self.old.table; key = self.old.key; number = self.old.own.made; version = self.old.own.version }) }
        ensures seat { OnOk result (self.new ≡ record self.old { own = record self.old.own { made = self.old.own.made + 1 }; steps = self.old.steps ++ record { at = 0; event = event.Split; number = self.old.own.version } ∷ [] }) }
        ensures err { OnErr result (self.new ≡ self.old) }
    {
        let note = self.seat.tell()?;
        Ok(FibNote { note })
    }
}
