//! A pass in its epoch.
ghost use Rattle.std.specs.Prelude.{◌≡◌, ℕ, ◌+◌, ◌<◌, ◌≤◌, IfOk, OnOk, OnErr, length};
ghost use Rattle.plan_cut.specs.PlanCourse.{versions_of};
ghost use Rattle.plan_cut.specs.VersionTable.{answer_at};
ghost use Rattle.fib_sync.specs.VersionNames.{names_at};
ghost use Rattle.epoch_core.specs.declared.event.Event.TheVariants as event;
ghost use Rattle.epoch_core.specs.History.{OneMore};
ghost use Rattle.epoch_core.specs.Step.{left_own};
ghost use Rattle.fib_pass.specs.Lookups.{AreReads, HitStep, HitsAnswer};

use crate::answer::{Answer, LOOKUPS_MAX, Spent, answer_inside};
use crate::key::Within;
use crate::pass::Pass;
use module_trait::Steps;
use prefix_width::Addr;
use rib_store::Plan;
use std::alloc::Global;
use std::marker::Model;
use std::sync::Arc;
use std::sync::ledger::Ledger;

/// A pass in its epoch, with a version in hand. It has to be spent, by [`Inside::leave`].
pub struct Inside<const W: u32, const K: u64, const LIVE: u32> {
    pub(crate) standing: Within<W, K, LIVE>,
    pub(crate) plan: Arc<Plan<W>, Global>,
    pub(crate) lookups: u32,
}

impl<const W: u32, const K: u64, const LIVE: u32> Model for Inside<W, K, LIVE> {
    ghost use Rattle.std.specs.Arc.{arc_value};
    ghost use Rattle.fib_pass.specs.Views.{InsideView, IsPass};

    ghost Value = { InsideView W };

    ghost view = { λ p. record { standing = p.standing; lookups = p.lookups } };

    ghost invariant = { λ p. IsPass (arc_value p.plan) p.standing.seat p.lookups };
}

impl<const W: u32, const K: u64, const LIVE: u32> Inside<W, K, LIVE> {
    /// The version in hand.
    pub fn version(&self) -> u64
        ensures { result ≡ self.now.standing.version }
    {
        self.standing.version()
    }

    /// Looks an address and a flow up in the version in hand. Its answer is that of the version's
    /// whole table. `Spent` where the pass has made all its lookups.
    pub fn lookup<L: Ledger>(
        &mut self,
        addr: Addr<W>,
        flow: u32,
        steps: &mut Steps<L>,
    ) -> Result<Answer<W>, Spent>
        ensures spent { OnErr result (self.old.lookups ≡ 16777216) }
        ensures unspent { OnOk result (self.old.lookups < 16777216) }
        ensures unchanged { OnErr result ((self.new ≡ self.old) × (steps.new ≡ steps.old)) }
        ensures version { IfOk result (λ a. a.version ≡ self.old.standing.version) }
        ensures right { IfOk result (λ a. a.nexthop ≡ answer_at LIVE self.old.standing.seat.key a.version addr.entry flow) }
        ensures listed { IfOk result (λ a. a.version < length (versions_of LIVE self.old.standing.seat.key)) }
        ensures seat { OnOk result (self.new.standing ≡ record self.old.standing { seat = record self.old.standing.seat { own = record self.old.standing.seat.own { hits = self.new.standing.seat.own.hits }; steps = self.new.standing.seat.steps } }) }
        ensures lookups { OnOk result (self.new.lookups ≡ self.old.lookups + 1) }
        ensures hits { IfOk result (λ a. HitsAnswer self.old.standing.seat.key a.nexthop self.old.standing.seat.own.hits self.new.standing.seat.own.hits) }
        ensures history { IfOk result (λ a. HitStep (names_at K LIVE self.old.standing.seat.key a.version) self.old.standing.seat.number a.nexthop self.old.standing.seat.steps self.new.standing.seat.steps) }
        ensures cost { IfOk result (λ a. (n : ℕ) → AreReads K LIVE self.old.standing.seat.key a.version n → steps.new ≤ steps.old + n) }
    {
        if self.lookups == LOOKUPS_MAX {
            return Err(Spent);
        }
        let answer = answer_inside(&mut self.standing, &self.plan, addr, flow, steps);
        self.lookups += 1;
        Ok(answer)
    }

    /// Gives the version back and announces nothing any more.
    pub fn leave(self) -> Pass<W, K, LIVE>
        ensures lookups { result.lookups ≡ self.entry.lookups }
        ensures seat { result.seat ≡ record self.entry.standing.seat { own = left_own self.entry.standing.seat.own; steps = result.seat.steps } }
        ensures step { OneMore self.entry.standing.seat.steps (event.Leave self.entry.standing.seat.number) 0 result.seat.steps }
    {
        let Inside {
            standing,
            plan,
            lookups,
        } = self;
        Pass {
            seat: Some(standing.leave()),
            plan,
            lookups,
        }
    }
}
