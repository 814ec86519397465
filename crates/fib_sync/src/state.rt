//! What a control keeps, and how it goes on.
use crate::OutOfMemory;
use crate::control::Advance;
use crate::next_version::{NextVersion, first_image, make_next};
use crate::numbering::Numbering;
use crate::runner::Runner;
use crate::running::run_to_version;
use crate::updater::Updater;
use crate::working::Working;
use engine_set::Image;
use fib_edits::Touched;
use rib_store::Plan;
use std::alloc::Global;
use std::marker::Model;
use std::sync::Arc;

/// What a control keeps between two calls. It is behind one pointer, so that whoever owns a control
/// moves and drops a word.
#[derive(Drop)]
pub(crate) struct State<const W: u32, const K: u64, const LIVE: u32> {
    pub(crate) runner: Runner<W, LIVE>,
    /// The prefixes touched since the last image.
    touched: Touched<W>,
    pub(crate) numbering: Numbering<W, K, LIVE>,
    /// None where memory was wanting for an image: the next one's engine is built anew.
    working: Option<Working<W>>,
    /// The last image, with which the next one shares.
    pub(crate) image: Arc<Image<W>>,
    /// Whether the plan's end made its version.
    pub(crate) ended: bool,
}

impl<const W: u32, const K: u64, const LIVE: u32> Model for State<W, K, LIVE> {
    ghost use Rattle.std.specs.Prelude.{not, is_some};
    ghost use Rattle.std.specs.Arc.{arc_value};
    ghost use Rattle.fib_sync.specs.Control.{Controlled};

    ghost Value = { Controlled W };

    ghost use Rattle.fib_sync.specs.Standing.{IsAt, IsByEnd};

    ghost view = { λ c. record { plan = c.runner.plan; commands = c.runner.commands; rib = c.runner.rib; replies = c.runner.replies; image = arc_value c.image; ended = c.ended; interrupted = not (is_some c.working) } };

    ghost invariant = { λ c. IsAt c.runner c.touched c.numbering c.working (arc_value c.image) × IsByEnd LIVE c.runner.plan (arc_value c.image) c.ended };
}

impl<const W: u32, const K: u64, const LIVE: u32> State<W, K, LIVE> {
    ghost use Rattle.std.specs.Prelude.{◌≡◌, ◌≤◌, false, IfOk, OnErr};
    ghost use Rattle.std.specs.Arc.{arc_value};
    ghost use Rattle.prefix_width.specs.Limits.{AreBanks, AreTargets};
    ghost use Rattle.fib_sync.specs.Control.{Advances, IsControl, IsImage};

    /// No command is run: the image of version 0.
    pub(crate) fn begin(
        alloc: Global,
        plan: Arc<Plan<W>>,
    ) -> Result<(State<W, K, LIVE>, Arc<Image<W>>), OutOfMemory>
        requires banks { AreBanks K }
        requires targets { AreTargets LIVE }
        ensures plan { IfOk result (λ t. t.0.plan ≡ arc_value plan.entry) }
        ensures image { IfOk result (λ t. t.0.image ≡ arc_value t.1) }
        ensures first { IfOk result (λ t. ((arc_value t.1).version ≡ 0) × (t.0.commands ≡ 0) × (t.0.ended ≡ false) × (t.0.interrupted ≡ false)) }
        ensures lawful { IfOk result (λ t. IsImage K LIVE (arc_value plan.entry) 0 (arc_value t.1)) }
        ensures control { IfOk result (λ t. IsControl K LIVE t.0) }
    {
        let runner = Runner::new(alloc, plan);
        let numbering = Numbering::begin(alloc)?;
        let mut working = Working::empty(alloc)?;
        let engine = working.copy(alloc)?;
        let image = first_image::<W, K, LIVE>(alloc, engine, &runner)?;
        let image = Arc::new(alloc, image)?;
        let kept = Arc::try_clone(&image)?;
        let state = State {
            runner,
            touched: Touched::new(alloc),
            numbering,
            working: Some(working),
            image: kept,
            ended: false,
        };
        Ok((state, image))
    }

    /// Goes on to the next version, as [`crate::Control::advance`] says.
    pub(crate) fn advance<U: Updater<W>>(
        &mut self,
        updater: &U,
        alloc: Global,
    ) -> Result<Advance<W>, OutOfMemory>
        requires updater { U.ready updater.now }
        ensures plan { self.new.plan ≡ self.old.plan }
        ensures advances { IfOk result (Advances K LIVE self.old self.new) }
        ensures control { IsControl K LIVE self.new }
        ensures further { self.old.commands ≤ self.new.commands }
        ensures err { OnErr result (self.new.image ≡ self.old.image) }
        ensures ended { OnErr result (self.new.ended ≡ self.old.ended) }
    {
        let given = self.image.version();
        run_to_version(alloc, given, &mut self.runner, &mut self.touched)?;
        let made = self.runner.made();
        if made.number == given {
            return Ok(Advance::Finished);
        }
        self.numbering.name_next(alloc, self.runner.rib())?;
        let NextVersion {
            working,
            image,
            kept,
        } = make_next(
            updater,
            alloc,
            self.working.take(),
            &self.runner,
            &self.touched,
            &self.numbering,
            &self.image,
        )?;
        self.touched.clear();
        self.numbering.go_on();
        self.working = Some(working);
        self.image = kept;
        self.ended = made.at_end;
        Ok(Advance::Next(image))
    }
}
