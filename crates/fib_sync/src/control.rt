//! The control of a family: from a plan to its images.
use crate::OutOfMemory;
use crate::state::State;
use crate::updater::{ParallelUpdater, SerialUpdater};
use engine_set::Image;
use nhop_index::Indexes;
use rib_store::{Plan, Reply, Rib};
use std::alloc::Global;
use std::marker::Model;
use std::sync::Arc;
use std::thread::Threads;

/// What an advance comes to.
#[derive(Drop)]
pub enum Advance<const W: u32> {
    /// The image of the next version.
    Next(Arc<Image<W>>),
    /// The plan has no further version.
    Finished,
}

/// The control of an address family: it runs the commands of a plan, and gives the image of each of
/// the plan's versions in turn.
///
/// `K` is 2 to 8, the number of versions that readers may hold at a time, and `LIVE` 1 to 4,095, the
/// most live targets of a version. A version costs a time that grows with the routes that it changes
/// and with the number of live targets, and not with the number of routes; but where the module
/// changes or takes no such change, or memory was wanting before, its engine is built anew.
#[derive(Drop)]
pub struct Control<const W: u32, const K: u64, const LIVE: u32> {
    state: Box<State<W, K, LIVE>>,
}

impl<const W: u32, const K: u64, const LIVE: u32> Model for Control<W, K, LIVE> {
    ghost use Rattle.fib_sync.specs.Control.{Controlled};

    ghost Value = { Controlled W };

    ghost view = { λ c. c.state.value };
}

impl<const W: u32, const K: u64, const LIVE: u32> Control<W, K, LIVE> {
    ghost use Rattle.std.specs.Prelude.{◌≡◌, ◌≤◌, false, IfOk, OnErr};
    ghost use Rattle.std.specs.Arc.{arc_value};
    ghost use Rattle.prefix_width.specs.Limits.{AreBanks, AreTargets};
    ghost use Rattle.fib_sync.specs.Control.{Advances, IsControl, IsImage};
    ghost use Rattle.fib_sync.specs.VersionNames.{naming_at};

    /// A control that has run no command, and the image of version 0. There are 2 to 8 banks, and
    /// room for 1 to 4,095 live targets.
    pub fn begin(
        alloc: Global,
        plan: Arc<Plan<W>>,
    ) -> Result<(Control<W, K, LIVE>, Arc<Image<W>>), OutOfMemory>
        requires banks { AreBanks K }
        requires targets { AreTargets LIVE }
        ensures plan { IfOk result (λ t. t.0.plan ≡ arc_value plan.entry) }
        ensures image { IfOk result (λ t. t.0.image ≡ arc_value t.1) }
        ensures first { IfOk result (λ t. ((arc_value t.1).version ≡ 0) × (t.0.commands ≡ 0) × (t.0.ended ≡ false) × (t.0.interrupted ≡ false)) }
        ensures lawful { IfOk result (λ t. IsImage K LIVE (arc_value plan.entry) 0 (arc_value t.1)) }
        ensures control { IfOk result (λ t. IsControl K LIVE t.0) }
    {
        let (state, image) = State::begin(alloc, plan)?;
        let state = Box::new(alloc, state)?;
        Ok((Control { state }, image))
    }

    /// Runs commands up to and with the one that makes the next version, and gives its image. It is
    /// finished exactly where all commands are run and the plan has no further version.
    ///
    /// Where memory is wanting, it has run some more commands, of which table and replies are, and
    /// the last image is as before; the next call goes on from there.
    pub fn advance(&mut self, alloc: Global) -> Result<Advance<W>, OutOfMemory>
        ensures plan { self.new.plan ≡ self.old.plan }
        ensures advances { IfOk result (Advances K LIVE self.old self.new) }
        ensures control { IsControl K LIVE self.new }
        ensures further { self.old.commands ≤ self.new.commands }
        ensures err { OnErr result (self.new.image ≡ self.old.image) }
        ensures ended { OnErr result (self.new.ended ≡ self.old.ended) }
    {
        self.state.advance(&SerialUpdater, alloc)
    }

    /// As [`Control::advance`], and with the same answer. Where the module's work on a version has
    /// parts, as DXR's has, each may be done in a thread of its own.
    pub fn advance_par<R: Threads + Sync>(
        &mut self,
        rt: &R,
        alloc: Global,
    ) -> Result<Advance<W>, OutOfMemory>
        ensures plan { self.new.plan ≡ self.old.plan }
        ensures advances { IfOk result (Advances K LIVE self.old self.new) }
        ensures control { IsControl K LIVE self.new }
        ensures further { self.old.commands ≤ self.new.commands }
        ensures err { OnErr result (self.new.image ≡ self.old.image) }
        ensures ended { OnErr result (self.new.ended ≡ self.old.ended) }
    {
        self.state.advance(&ParallelUpdater { rt }, alloc)
    }

    /// The plan.
    pub fn plan(&self) -> &Arc<Plan<W>>
        ensures { arc_value result.now ≡ self.now.plan }
    {
        self.state.runner.plan()
    }

    /// How many commands were run, and what every control knows of them.
    pub fn commands(&self) -> u32
        ensures count { result ≡ self.now.commands }
        ensures control { IsControl K LIVE self.now }
    {
        self.state.runner.commands()
    }

    /// The replies to the commands run.
    pub fn replies(&self) -> &[Reply]
        ensures replies { result.now ≡ self.now.replies }
        ensures control { IsControl K LIVE self.now }
    {
        self.state.runner.replies()
    }

    /// The table after the commands run.
    pub fn rib(&self) -> &Rib<W, LIVE>
        ensures rib { result.now.rows ≡ self.now.rib }
        ensures profile { result.now.profile ≡ self.now.plan.profile }
        ensures control { IsControl K LIVE self.now }
    {
        self.state.runner.rib()
    }

    /// The last image.
    pub fn image(&self) -> &Arc<Image<W>>
        ensures image { arc_value result.now ≡ self.now.image }
        ensures control { IsControl K LIVE self.now }
    {
        &self.state.image
    }

    /// The indexes of the last image's version.
    pub fn indexes(&self) -> &Indexes<W, K, LIVE>
        ensures names { result.now.names ≡ naming_at K LIVE self.now.plan self.now.image.version }
        ensures control { IsControl K LIVE self.now }
    {
        &self.state.numbering.now
    }

    /// Whether the plan's end made the version of the last image.
    pub fn ended(&self) -> bool
        ensures ended { result ≡ self.now.ended }
        ensures control { IsControl K LIVE self.now }
    {
        self.state.ended
    }
}
