//! A pass that has taken in the notes up to a sync line.
ghost use Rattle.std.specs.Prelude.{◌≡◌, ◌==◌, ◌<◌, ◌≤◌};
ghost use Rattle.plan_cut.specs.PlanCourse.{version_before};
ghost use Rattle.replay_run.specs.Limits.{targets_max};
ghost use Rattle.threaded_replay.specs.Tally.{AnswersSince};

use crate::naming::{Naming, TiedNote, TiedPass};
use fib_pass::Answer;
use module_trait::Steps;
use prefix_width::Addr;
use std::marker::Model;
use std::sync::ledger::Ledger;

/// A worker's pass, with the number of commands up to and with the last sync line whose note it has
/// taken in. It has seen a version no older than the last that these commands make.
#[derive(Drop)]
pub(crate) struct Follower<const W: u32, N: Naming<W>> {
    pass: TiedPass<W, N>,
    synced: u32,
}

impl<const W: u32, N: Naming<W>> Model for Follower<W, N> {
    ghost use Rattle.std.specs.Prelude.{◌≤◌, ℕ};
    ghost use Rattle.plan_cut.specs.PlanCourse.{version_before};
    ghost use Rattle.replay_run.specs.Limits.{targets_max};
    ghost use Rattle.threaded_replay.specs.Tally.{Tally};

    ghost Value = { Tally × ℕ };

    ghost view = { λ f. (f.pass, f.synced) };

    ghost invariant = { λ f. version_before targets_max N.plan f.synced ≤ f.pass.seen };
}

impl<const W: u32, N: Naming<W>> Follower<W, N> {
    /// No note is taken in.
    pub(crate) fn new(pass: TiedPass<W, N>) -> Follower<W, N>
        ensures { result ≡ (pass, 0) }
    {
        Follower { pass, synced: 0 }
    }

    pub(crate) fn into_pass(self) -> TiedPass<W, N>
        ensures { result ≡ self.0 }
    {
        let Follower { pass, synced: _ } = self;
        pass
    }

    /// Whether this sync line's note is the last that it has taken in.
    pub(crate) fn has(&self, synced: u32) -> bool
        ensures { result ≡ (self.now.1 == synced) }
    {
        self.synced == synced
    }

    /// Takes the note of a sync line in.
    pub(crate) fn learn(&mut self, synced: u32, note: TiedNote<W, N>)
        requires { version_before targets_max N.plan synced ≤ note }
        ensures same { self.new.0 ≡ record self.old.0 { seen = self.new.0.seen } }
        ensures line { self.new.1 ≡ synced }
        ensures seen { self.old.0.seen ≤ self.new.0.seen }
    {
        self.pass.learn(note);
        self.synced = synced;
    }

    /// Looks up at a version that is no older than that sync line's.
    pub(crate) fn lookup<L: Ledger>(
        &mut self,
        addr: Addr<W>,
        flow: u32,
        steps: &mut Steps<L>,
    ) -> Answer<W>
        requires { self.old.0.lookups < 16777216 }
        ensures answer { AnswersSince targets_max N.plan self.old.1 self.old.0 addr.entry flow result.version result.nexthop self.new.0 }
        ensures line { self.new.1 ≡ self.old.1 }
    {
        self.pass.lookup(addr, flow, steps)
    }
}
