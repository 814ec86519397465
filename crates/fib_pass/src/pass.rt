//! A pass outside its epoch.
ghost use Rattle.std.specs.Prelude.{◌≡◌, ℕ, ◌+◌, ◌<◌, ◌≤◌, [], ◌∷◌, ◌++◌, IfOk, OnOk, OnErr, length};
ghost use Rattle.std.specs.Arc.{arc_value};
ghost use Rattle.plan_cut.specs.PlanCourse.{versions_of};
ghost use Rattle.plan_cut.specs.VersionTable.{answer_at};
ghost use Rattle.fib_sync.specs.VersionNames.{names_at};
ghost use Rattle.epoch_core.specs.declared.event.Event.TheVariants as event;
ghost use Rattle.epoch_core.specs.History.{EnterSteps, OneMore};
ghost use Rattle.epoch_core.specs.Step.{announced_own, entered_own, looked_own, told_own};
ghost use Rattle.fib_pass.specs.Lookups.{AreReads, HitsAnswer, LookupSteps, answered_own};
ghost use Rattle.fib_pass.specs.Views.{IsPass};

use crate::answer::{Answer, LOOKUPS_MAX, Spent, answer_once};
use crate::inside::Inside;
use crate::key::Outside;
use crate::publisher::FibNote;
use module_trait::Steps;
use prefix_width::Addr;
use rib_store::Plan;
use std::alloc::Global;
use std::marker::Model;
use std::sync::Arc;
use std::sync::ledger::Ledger;

/// A reader of a fib that has no version in hand. It makes at most [`LOOKUPS_MAX`] lookups. No call
/// of it waits or takes memory.
#[derive(Drop)]
pub struct Pass<const W: u32, const K: u64, const LIVE: u32> {
    // It is taken out while a lookup is under way.
    pub(crate) seat: Option<Outside<W, K, LIVE>>,
    pub(crate) plan: Arc<Plan<W>, Global>,
    pub(crate) lookups: u32,
}

impl<const W: u32, const K: u64, const LIVE: u32> Model for Pass<W, K, LIVE> {
    ghost use Rattle.std.specs.Prelude.{IsSome};
    ghost use Rattle.std.specs.Arc.{arc_value};
    ghost use Rattle.fib_pass.specs.Views.{IsPass, PassView, seat_or_none};

    ghost Value = { PassView W };

    ghost view = { λ p. record { seat = seat_or_none (arc_value p.plan) p.seat; lookups = p.lookups } };

    ghost invariant = { λ p. IsSome p.seat × IsPass (arc_value p.plan) (seat_or_none (arc_value p.plan) p.seat) p.lookups };
}

/// What a pass has beside its seat.
#[derive(Drop)]
pub(crate) struct Beside<const W: u32> {
    plan: Arc<Plan<W>, Global>,
    lookups: u32,
}

impl<const W: u32, const K: u64, const LIVE: u32> Pass<W, K, LIVE> {
    /// The pass of a seat that has done nothing yet.
    pub(crate) fn seated(seat: Outside<W, K, LIVE>, plan: Arc<Plan<W>, Global>) -> Pass<W, K, LIVE>
        requires { IsPass (arc_value plan) seat 0 }
        ensures { result ≡ record { seat = seat.entry; lookups = 0 } }
    {
        Pass {
            seat: Some(seat),
            plan,
            lookups: 0,
        }
    }

    /// Its seat, and what it has beside that.
    pub(crate) fn into_parts(self) -> (Outside<W, K, LIVE>, Beside<W>)
        ensures seat { result.0 ≡ self.entry.seat }
        ensures lookups { result.1.lookups ≡ self.entry.lookups }
        ensures pass { IsPass (arc_value result.1.plan) result.0 result.1.lookups }
    {
        let Pass {
            seat,
            plan,
            lookups,
        } = self;
        let Some(seat) = seat else { unreachable!() };
        (seat, Beside { plan, lookups })
    }

    /// The pass of a seat and of what it has beside that.
    pub(crate) fn of_parts(seat: Outside<W, K, LIVE>, beside: Beside<W>) -> Pass<W, K, LIVE>
        requires { IsPass (arc_value beside.plan) seat beside.lookups }
        ensures { result ≡ record { seat = seat.entry; lookups = beside.entry.lookups } }
    {
        let Beside { plan, lookups } = beside;
        Pass {
            seat: Some(seat),
            plan,
            lookups,
        }
    }

    /// The latest version that it has looked at, looked up in or been told of.
    pub fn seen(&self) -> u64
        ensures { result ≡ self.now.seat.own.seen }
    {
        match &self.seat {
            Some(seat) => seat.seen(),
            None => unreachable!(),
        }
    }

    /// How many lookups it has made, [`LOOKUPS_MAX`] at most.
    pub fn lookups(&self) -> u32
        ensures count { result ≡ self.now.lookups }
        ensures pass { IsPass self.now.seat.key self.now.seat result }
    {
        self.lookups
    }

    /// The version that is published at this step.
    pub fn look(&mut self) -> u64
        ensures lookups { self.new.lookups ≡ self.old.lookups }
        ensures seat { self.new.seat ≡ record self.old.seat { own = looked_own result self.old.seat.own; steps = self.new.seat.steps } }
        ensures step { OneMore self.old.seat.steps (event.Look self.old.seat.number) result self.new.seat.steps }
        ensures later { self.old.seat.own.seen ≤ result }
    {
        match &mut self.seat {
            Some(seat) => seat.look(),
            None => unreachable!(),
        }
    }

    /// Takes a note in: what is seen is the greater of the two. The note is of the same fib.
    pub fn learn(&mut self, note: FibNote<W, K, LIVE>)
        requires { note.table ≡ self.old.seat.table }
        ensures lookups { self.new.lookups ≡ self.old.lookups }
        ensures seat { self.new.seat ≡ record self.old.seat { own = told_own note.entry.version self.old.seat.own; steps = self.old.seat.steps ++ record { at = 0; event = event.Join self.old.seat.number note.entry.number; number = note.entry.version } ∷ [] } }
    {
        match &mut self.seat {
            Some(seat) => seat.learn(note.note),
            None => unreachable!(),
        }
    }

    /// Looks an address and a flow up in the version that is published. Its answer is that of the
    /// version's whole table. `Spent` where it has made all its lookups.
    pub fn lookup<L: Ledger>(
        &mut self,
        addr: Addr<W>,
        flow: u32,
        steps: &mut Steps<L>,
    ) -> Result<Answer<W>, Spent>
        ensures spent { OnErr result (self.old.lookups ≡ 16777216) }
        ensures unspent { OnOk result (self.old.lookups < 16777216) }
        ensures unchanged { OnErr result ((self.new ≡ self.old) × (steps.new ≡ steps.old)) }
        ensures right { IfOk result (λ a. a.nexthop ≡ answer_at LIVE self.old.seat.key a.version addr.entry flow) }
        ensures listed { IfOk result (λ a. a.version < length (versions_of LIVE self.old.seat.key)) }
        ensures later { IfOk result (λ a. (self.old.seat.own.seen ≤ self.new.seat.own.last) × (self.new.seat.own.last ≤ a.version)) }
        ensures seat { IfOk result (λ a. self.new.seat ≡ record self.old.seat { own = answered_own self.new.seat.own.last a.version self.new.seat.own.hits self.old.seat.own; steps = self.new.seat.steps }) }
        ensures lookups { OnOk result (self.new.lookups ≡ self.old.lookups + 1) }
        ensures hits { IfOk result (λ a. HitsAnswer self.old.seat.key a.nexthop self.old.seat.own.hits self.new.seat.own.hits) }
        ensures history { IfOk result (λ a. LookupSteps (names_at K LIVE self.old.seat.key a.version) self.old.seat.number self.old.seat.steps self.new.seat.own.last a.version a.nexthop self.new.seat.steps) }
        ensures cost { IfOk result (λ a. (n : ℕ) → AreReads K LIVE self.old.seat.key a.version n → steps.new ≤ steps.old + n) }
    {
        if self.lookups == LOOKUPS_MAX {
            return Err(Spent);
        }
        let Some(seat) = self.seat.take() else {
            unreachable!()
        };
        let (seat, answer) = answer_once(seat, &self.plan, addr, flow, steps);
        self.seat = Some(seat);
        self.lookups += 1;
        Ok(answer)
    }

    /// Looks, announces the version that it found, and takes the version that is published then in
    /// hand. No publish replaces that until the pass leaves.
    pub fn enter(self) -> Inside<W, K, LIVE>
        ensures lookups { result.lookups ≡ self.entry.lookups }
        ensures seat { (result.standing.seat.table ≡ self.entry.seat.table) × (result.standing.seat.key ≡ self.entry.seat.key) × (result.standing.seat.number ≡ self.entry.seat.number) }
        ensures steps { result.standing.seat.own ≡ entered_own result.standing.version (announced_own (looked_own result.standing.seat.own.last self.entry.seat.own)) }
        ensures later { (self.entry.seat.own.seen ≤ result.standing.seat.own.last) × (result.standing.seat.own.last ≤ result.standing.version) }
        ensures history { EnterSteps self.entry.seat.number self.entry.seat.steps result.standing.seat.own.last result.standing.version result.standing.seat.steps }
    {
        let Pass {
            seat,
            plan,
            lookups,
        } = self;
        let Some(seat) = seat else { unreachable!() };
        Inside {
            standing: seat.enter(),
            plan,
            lookups,
        }
    }
}
