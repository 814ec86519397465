//! Notes and passes whose types name the fib that they are of, so that a worker may take a note in
//! that comes to it from another thread.
ghost use Rattle.std.specs.Prelude.{◌≡◌, ◌<◌, ◌≤◌};
ghost use Rattle.replay_run.specs.Limits.{targets_max};
ghost use Rattle.threaded_replay.specs.Tally.{Answers, tally_of};

use fib_pass::{Answer, FibNote, Pass, Spent};
use module_trait::Steps;
use prefix_width::Addr;
use replay_run::{BANKS, TARGETS_MAX};
use std::marker::{Brand, Model, PhantomData};
use std::sync::ledger::Ledger;

/// A fib of `W` bits. A call that makes its notes and passes picks which.
pub(crate) trait Naming<const W: u32> {
    ghost use Rattle.std.specs.Prelude.{ℕ};
    ghost use Rattle.atomic_table.specs.Seated.{TableId};
    ghost use Rattle.rib_store.specs.Plan.{Planned};

    /// Its table.
    ghost table: { TableId };

    /// Its plan.
    ghost plan: { Planned W };

    /// How many passes it has.
    ghost readers: { ℕ };
}

impl<const W: u32> Naming<W> for Brand {
    ghost use Rattle.std.specs.Prelude.{[]};
    ghost use Rattle.fib_pass.specs.Views.{no_table};
    ghost use Rattle.rib_store.specs.Plan.{no_plan};

    ghost table = { no_table };

    ghost plan = { no_plan 1 };

    ghost readers = { 0 };
}

/// A note of the fib that `N` names. Contracts see its version.
#[derive(Drop)]
pub(crate) struct TiedNote<const W: u32, N: Naming<W>> {
    note: FibNote<W, BANKS, TARGETS_MAX>,
    of: PhantomData<N>,
}

impl<const W: u32, N: Naming<W>> Model for TiedNote<W, N> {
    ghost use Rattle.std.specs.Prelude.{◌≡◌, ℕ};

    ghost Value = { ℕ };

    ghost view = { λ n. n.note.version };

    ghost invariant = { λ n. n.note.table ≡ N.table };
}

impl<const W: u32, N: Naming<W>> TiedNote<W, N> {
    pub(crate) fn new(note: FibNote<W, BANKS, TARGETS_MAX>) -> TiedNote<W, N>
        requires { note.table ≡ N.table }
        ensures { result ≡ note.entry.version }
    {
        TiedNote {
            note,
            of: PhantomData,
        }
    }
}

/// A pass of the fib that `N` names. Contracts see what it has done.
#[derive(Drop)]
pub(crate) struct TiedPass<const W: u32, N: Naming<W>> {
    pass: Pass<W, BANKS, TARGETS_MAX>,
    of: PhantomData<N>,
}

impl<const W: u32, N: Naming<W>> Model for TiedPass<W, N> {
    ghost use Rattle.std.specs.Prelude.{◌≡◌};
    ghost use Rattle.threaded_replay.specs.Tally.{Tally, tally_of};

    ghost Value = { Tally };

    ghost view = { λ p. tally_of N.plan p.pass };

    ghost invariant = { λ p. (p.pass.seat.table ≡ N.table) × (p.pass.seat.key ≡ N.plan) };
}

impl<const W: u32, N: Naming<W>> TiedPass<W, N> {
    pub(crate) fn new(pass: Pass<W, BANKS, TARGETS_MAX>) -> TiedPass<W, N>
        requires table { pass.seat.table ≡ N.table }
        requires plan { pass.seat.key ≡ N.plan }
        ensures { result ≡ tally_of N.plan pass.entry }
    {
        TiedPass {
            pass,
            of: PhantomData,
        }
    }

    pub(crate) fn into_pass(self) -> Pass<W, BANKS, TARGETS_MAX>
        ensures table { result.seat.table ≡ N.table }
        ensures plan { result.seat.key ≡ N.plan }
        ensures tally { tally_of N.plan result ≡ self }
    {
        let TiedPass { pass, of: _ } = self;
        pass
    }

    /// Takes a note in.
    pub(crate) fn learn(&mut self, note: TiedNote<W, N>)
        ensures same { self.new ≡ record self.old { seen = self.new.seen } }
        ensures seen { (self.old.seen ≤ self.new.seen) × (note ≤ self.new.seen) }
    {
        let TiedNote { note, of: _ } = note;
        self.pass.learn(note);
    }

    /// Looks up in the version that is published.
    pub(crate) fn lookup<L: Ledger>(
        &mut self,
        addr: Addr<W>,
        flow: u32,
        steps: &mut Steps<L>,
    ) -> Answer<W>
        requires { self.old.lookups < 16777216 }
        ensures { Answers targets_max N.plan self.old addr.entry flow result.version result.nexthop self.new }
    {
        match self.pass.lookup(addr, flow, steps) {
            Ok(answer) => answer,
            Err(Spent) => unreachable!(),
        }
    }
}
