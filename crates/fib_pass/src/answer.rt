//! The answer of a lookup.
ghost use Rattle.std.specs.Prelude.{◌≡◌, ℕ, ◌+◌, ◌<◌, ◌≤◌, All, Some, length};
ghost use Rattle.rib_store.specs.Weights.{IsWeighted};
ghost use Rattle.plan_cut.specs.PlanCourse.{versions_of};
ghost use Rattle.plan_cut.specs.VersionTable.{answer_at};
ghost use Rattle.fib_sync.specs.Lawful.{IsLawful, IsSent};
ghost use Rattle.fib_sync.specs.VersionNames.{names_at};
ghost use Rattle.fib_pass.specs.Lookups.{AreReads, HitStep, HitsAnswer, LookupSteps, answered_own};
ghost use Rattle.rib_store.specs.Plan.{Planned};

use crate::key::{Outside, Within};
use engine_set::Image;
use module_trait::Steps;
use prefix_width::{Addr, Nexthop};
use rib_store::Plan;
use std::sync::ledger::Ledger;

/// How many lookups a pass makes at most.
pub const LOOKUPS_MAX: u32 = 16_777_216;

/// The answer of a lookup.
#[derive(Clone, Copy, Debug, PartialEq, Eq)]
pub struct Answer<const W: u32> {
    /// The version that it is of.
    pub version: u64,
    /// The nexthop, `None` where no route of the version contains the address.
    pub nexthop: Option<Nexthop<W>>,
}

/// The pass has made all its lookups.
#[derive(Clone, Copy, Debug, PartialEq, Eq)]
pub struct Spent;

/// The index that a lawful image sends an address and a flow to.
fn index_for<L: Ledger, const W: u32>(
    image: &Image<W>,
    addr: Addr<W>,
    flow: u32,
    steps: &mut Steps<L>,
) -> Option<u16>
    ensures sent { (K live : ℕ) (plan : Planned W) (v : ℕ) → All IsWeighted plan.commands → IsLawful live plan (names_at K live plan v) v image.now → IsSent (names_at K live plan v) result (answer_at live plan v addr.entry flow) }
    ensures cost { (K live : ℕ) (plan : Planned W) (v n : ℕ) → IsLawful live plan (names_at K live plan v) v image.now → AreReads K live plan v n → steps.new ≤ steps.old + n }
{
    image.resolve(addr, flow, steps)
}

/// The answer of the version in hand, with a hit at its nexthop's number where it has one.
pub(crate) fn answer_inside<L: Ledger, const W: u32, const K: u64, const LIVE: u32>(
    standing: &mut Within<W, K, LIVE>,
    plan: &Plan<W>,
    addr: Addr<W>,
    flow: u32,
    steps: &mut Steps<L>,
) -> Answer<W>
    requires plan { (standing.old.seat.key ≡ plan.now) × All IsWeighted plan.now.commands }
    requires room { length standing.old.seat.own.hits < 16777216 }
    ensures version { result.version ≡ standing.old.version }
    ensures listed { result.version < length (versions_of LIVE plan.now) }
    ensures right { result.nexthop ≡ answer_at LIVE plan.now result.version addr.entry flow }
    ensures seat { standing.new ≡ record standing.old { seat = record standing.old.seat { own = record standing.old.seat.own { hits = standing.new.seat.own.hits }; steps = standing.new.seat.steps } } }
    ensures hits { HitsAnswer plan.now result.nexthop standing.old.seat.own.hits standing.new.seat.own.hits }
    ensures step { HitStep (names_at K LIVE plan.now result.version) standing.old.seat.number result.nexthop standing.old.seat.steps standing.new.seat.steps }
    ensures cost { (n : ℕ) → AreReads K LIVE plan.now result.version n → steps.new ≤ steps.old + n }
{
    let version = standing.version();
    let Some(index) = index_for(standing.value(), addr, flow, steps) else {
        return Answer {
            version,
            nexthop: None,
        };
    };
    let number = standing.hit(index);
    Answer {
        version,
        nexthop: Some(*plan.nexthop(number)),
    }
}

/// Enters, looks up and leaves.
pub(crate) fn answer_once<L: Ledger, const W: u32, const K: u64, const LIVE: u32>(
    seat: Outside<W, K, LIVE>,
    plan: &Plan<W>,
    addr: Addr<W>,
    flow: u32,
    steps: &mut Steps<L>,
) -> (Outside<W, K, LIVE>, Answer<W>)
    requires plan { (seat.key ≡ plan.now) × All IsWeighted plan.now.commands }
    requires room { length seat.own.hits < 16777216 }
    ensures listed { result.1.version < length (versions_of LIVE plan.now) }
    ensures right { result.1.nexthop ≡ answer_at LIVE plan.now result.1.version addr.entry flow }
    ensures later { (seat.entry.own.seen ≤ result.0.own.last) × (result.0.own.last ≤ result.1.version) }
    ensures seat { result.0 ≡ record seat.entry { own = answered_own result.0.own.last result.1.version result.0.own.hits seat.entry.own; steps = result.0.steps } }
    ensures hits { HitsAnswer plan.now result.1.nexthop seat.entry.own.hits result.0.own.hits }
    ensures history { LookupSteps (names_at K LIVE plan.now result.1.version) seat.entry.number seat.entry.steps result.0.own.last result.1.version result.1.nexthop result.0.steps }
    ensures cost { (n : ℕ) → AreReads K LIVE plan.now result.1.version n → steps.new ≤ steps.old + n }
{
    let mut standing = seat.enter();
    let answer = answer_inside(&mut standing, plan, addr, flow, steps);
    (standing.leave(), answer)
}
