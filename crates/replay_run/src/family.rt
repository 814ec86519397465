//! The replay of one family's commands.
ghost use Rattle.std.specs.Prelude.{◌≡◌, ℕ, ◌+◌, ◌<◌, ◌≤◌, true, IfOk, OnOk, OnErr, length, Some};
ghost use Rattle.std.specs.Arc.{arc_value};
ghost use Rattle.prefix_width.specs.Limits.{AreBanks, AreTargets};
ghost use Rattle.prefix_width.specs.Nexthop.{Hop};
ghost use Rattle.rib_store.specs.Limits.{routes_max};
ghost use Rattle.plan_cut.specs.PlanCourse.{version_before};
ghost use Rattle.plan_cut.specs.VersionTable.{answer_at};
ghost use Rattle.engine_set.specs.Engine.{kind_of};
ghost use Rattle.nhop_index.specs.Indexes.{target_at};
ghost use Rattle.fib_sync.specs.Control.{IsControl};
ghost use Rattle.fib_sync.specs.Lawful.{IsSent};
ghost use Rattle.fib_sync.specs.Replies.{reply_at};
ghost use Rattle.replay_run.specs.Family.{FlushesAtMost, IsAhead, IsLast, is_asked, is_made_by};

use crate::OutOfMemory;
use engine_set::Image;
use fib_sync::{Advance, Control, lookup};
use module_trait::Steps;
use nhgrp_slots::Target;
use nhop_index::Indexes;
use prefix_width::{Addr, Kind, Nexthop};
use rib_store::{Plan, Reply};
use std::alloc::Global;
use std::marker::Model;
use std::mem;
use std::sync::Arc;
use std::sync::ledger::Ledger;

/// The version behind the last one made, as far as the control was asked for it.
#[derive(Drop)]
pub(crate) enum Ahead<const W: u32> {
    /// It was not asked, or memory was wanting.
    Unasked,
    /// It has given the image, before the commands that make the version are taken.
    Given(Arc<Image<W>>),
    /// The plan has no further version.
    Finished,
}

/// One family of a replay: the commands taken so far, and the image of the last version that they
/// have made.
#[derive(Drop)]
pub(crate) struct Family<const W: u32, const K: u64, const LIVE: u32> {
    control: Control<W, K, LIVE>,
    // How many commands were taken.
    commands: u32,
    image: Arc<Image<W>>,
    // What the image's indexes stand for.
    indexes: Indexes<W, K, LIVE>,
    ahead: Ahead<W>,
}

impl<const W: u32, const K: u64, const LIVE: u32> Model for Family<W, K, LIVE> {
    ghost use Rattle.std.specs.Arc.{arc_value};
    ghost use Rattle.replay_run.specs.Family.{Followed, IsFamily, known_of};

    ghost Value = { Followed W };

    ghost view = { λ f. record { plan = f.control.plan; commands = f.commands; known = known_of f.control f.commands f.ahead } };

    ghost invariant = { λ f. IsFamily K LIVE f.control f.commands (arc_value f.image) f.indexes.names f.ahead };
}

/// The last version of a plan, its end included.
#[derive(Clone, Copy, Debug, PartialEq, Eq)]
pub(crate) struct Last {
    pub(crate) version: u64,
    pub(crate) routes: u32,
    pub(crate) kind: Kind,
}

impl<const W: u32, const K: u64, const LIVE: u32> Family<W, K, LIVE> {
    /// No command is taken: the empty table is version 0.
    pub(crate) fn begin(alloc: Global, plan: &Arc<Plan<W>>) -> Result<Self, OutOfMemory>
        requires banks { AreBanks K }
        requires targets { AreTargets LIVE }
        ensures plan { IfOk result (λ family. family.plan ≡ arc_value plan.now) }
        ensures commands { IfOk result (λ family. family.commands ≡ 0) }
    {
        let (control, image) = Control::begin(alloc, Arc::try_clone(plan)?)?;
        let indexes = control.indexes().copy(alloc)?;
        Ok(Family {
            control,
            commands: 0,
            image,
            indexes,
            ahead: Ahead::Unasked,
        })
    }

    /// The last version that the commands taken have made.
    pub(crate) fn version(&self) -> u64
        ensures { result ≡ version_before LIVE self.now.plan self.now.commands }
    {
        self.image.version()
    }

    /// The nexthop for an address and a flow in that version, `None` where it has no route.
    pub(crate) fn answer<L: Ledger>(
        &self,
        addr: &Addr<W>,
        flow: u32,
        steps: &mut Steps<L>,
    ) -> Option<Nexthop<W>>
        ensures { result ≡ answer_at LIVE self.now.plan (version_before LIVE self.now.plan self.now.commands) addr.now flow }
    {
        // What a plan keeps: its paths have weights.
        let _weighted = self.control.plan().len();
        let index = lookup(&self.image, *addr, flow, steps);
        sent_to(&self.indexes, index)
    }

    /// Takes the next command of the plan, and gives the reply to it. Where memory is wanting it is
    /// not taken.
    pub(crate) fn take(&mut self, alloc: Global) -> Result<Reply, OutOfMemory>
        requires { self.old.commands < length self.old.plan.commands }
        ensures plan { self.new.plan ≡ self.old.plan }
        ensures commands { OnOk result (self.new.commands ≡ self.old.commands + 1) }
        ensures reply { IfOk result (λ reply. Some reply ≡ reply_at LIVE self.old.plan self.old.commands) }
        ensures flushes { IfOk result (FlushesAtMost routes_max) }
        ensures err { OnErr result (self.new.commands ≡ self.old.commands) }
    {
        self.look_ahead(alloc)?;
        let reply = self.next_reply();
        self.count_command(alloc)?;
        Ok(reply)
    }

    /// Asks the control for the next version, where that was not done.
    fn look_ahead(&mut self, alloc: Global) -> Result<(), OutOfMemory>
        ensures plan { self.new.plan ≡ self.old.plan }
        ensures commands { self.new.commands ≡ self.old.commands }
        ensures known { OnOk result (self.old.commands < length self.old.plan.commands → self.old.commands < self.new.known) }
    {
        if self.ahead.is_asked() {
            return Ok(());
        }
        self.ahead = ask(alloc, &mut self.control)?;
        Ok(())
    }

    /// The reply to the next command, which the control has run.
    fn next_reply(&self) -> Reply
        requires { self.now.commands < self.now.known }
        ensures reply { Some result ≡ reply_at LIVE self.now.plan self.now.commands }
        ensures flushes { FlushesAtMost routes_max result }
    {
        self.control.replies()[self.commands as usize]
    }

    /// Counts the next command as taken. Where it made a version, that is the last one now.
    fn count_command(&mut self, alloc: Global) -> Result<(), OutOfMemory>
        requires { self.old.commands < self.old.known }
        ensures plan { self.new.plan ≡ self.old.plan }
        ensures commands { OnOk result (self.new.commands ≡ self.old.commands + 1) }
        ensures err { OnErr result (self.new ≡ self.old) }
    {
        // As many as the control has run, at most.
        let _run = self.control.commands();
        let commands = self.commands + 1;
        if !is_made_by(&self.control, &self.ahead, commands) {
            self.commands = commands;
            return Ok(());
        }
        let indexes = self.control.indexes().copy(alloc)?;
        let Ahead::Given(image) = mem::replace(&mut self.ahead, Ahead::Unasked) else {
            unreachable!()
        };
        self.commands = commands;
        self.image = image;
        self.indexes = indexes;
        Ok(())
    }

    /// The last version of the plan, all of whose commands were taken.
    pub(crate) fn finish(self, alloc: Global) -> Result<Last, OutOfMemory>
        requires { self.commands ≡ length self.plan.commands }
        ensures { IfOk result (IsLast LIVE self.entry.plan) }
    {
        let Family {
            mut control,
            commands: _,
            image,
            indexes: _,
            ahead,
        } = self;
        match ahead {
            Ahead::Given(ahead) => Ok(Last::of(&ahead)),
            Ahead::Finished => Ok(Last::of(&image)),
            Ahead::Unasked => match control.advance(alloc)? {
                Advance::Next(next) => Ok(Last::of(&next)),
                Advance::Finished => Ok(Last::of(&image)),
            },
        }
    }
}

impl<const W: u32> Ahead<W> {
    /// Whether the control was asked.
    fn is_asked(&self) -> bool
        ensures { result ≡ is_asked self.now }
    {
        match self {
            Ahead::Unasked => false,
            Ahead::Given(_) | Ahead::Finished => true,
        }
    }
}

impl Last {
    /// The version of an image.
    fn of<const W: u32>(image: &Image<W>) -> Last
        ensures { result ≡ record { version = image.now.version; routes = image.now.routes; kind = kind_of image.now.engine } }
    {
        Last {
            version: image.version(),
            routes: image.routes(),
            kind: image.kind(),
        }
    }
}

/// What the control gives next. Where memory is wanting its last image is as before.
fn ask<const W: u32, const K: u64, const LIVE: u32>(
    alloc: Global,
    control: &mut Control<W, K, LIVE>,
) -> Result<Ahead<W>, OutOfMemory>
    ensures control { IsControl K LIVE control.new }
    ensures plan { control.new.plan ≡ control.old.plan }
    ensures further { control.old.commands ≤ control.new.commands }
    ensures asked { IfOk result (λ ahead. is_asked ahead ≡ true) }
    ensures ahead { IfOk result (λ ahead. (n : ℕ) → control.old.image.version ≡ version_before LIVE control.old.plan n → IsAhead LIVE control.new n ahead) }
    ensures err { OnErr result (control.new.image ≡ control.old.image) }
{
    match control.advance(alloc)? {
        Advance::Next(image) => Ok(Ahead::Given(image)),
        Advance::Finished => Ok(Ahead::Finished),
    }
}

/// Whether the version ahead is one that the last of so many commands has made.
fn is_made_by<const W: u32, const K: u64, const LIVE: u32>(
    control: &Control<W, K, LIVE>,
    ahead: &Ahead<W>,
    commands: u32,
) -> bool
    ensures { result ≡ is_made_by control.now commands ahead.now }
{
    match ahead {
        Ahead::Given(image) => image.count() == commands && !control.ended(),
        Ahead::Unasked | Ahead::Finished => false,
    }
}

/// The nexthop that an index is sent to.
fn sent_to<const W: u32, const K: u64, const LIVE: u32>(
    indexes: &Indexes<W, K, LIVE>,
    index: Option<u16>,
) -> Option<Nexthop<W>>
    ensures { (hop : _) → IsSent (target_at indexes.now.names) index hop → result ≡ hop }
{
    let Some(index) = index else {
        return None;
    };
    match indexes.target_of(index) {
        Some(Target::One(nexthop)) => Some(*nexthop),
        _ => None,
    }
}
