//! How a fib's passes and its publisher are made.
ghost use Rattle.std.specs.Prelude.{◌≡◌, ◌↔◌, ◌⊎◌, ◌<◌, ◌≤◌, [], IfOk, IfErr, OnOk, length, map, All};
ghost use Rattle.std.specs.Arc.{arc_value};
ghost use Rattle.prefix_width.specs.Limits.{AreBanks, AreTargets};
ghost use Rattle.rib_store.specs.Plan.{firsts, named};
ghost use Rattle.rib_store.specs.Weights.{IsWeighted};
ghost use Rattle.fib_sync.specs.Lawful.{IsLawful};
ghost use Rattle.fib_sync.specs.VersionNames.{names_at};
ghost use Rattle.epoch_core.specs.declared.starting.StartError.TheVariants.{BadCount};
ghost use Rattle.epoch_core.specs.Rule.{first_control};
ghost use Rattle.fib_pass.specs.Views.{AreNewPasses, IsFresh, new_pass};

use crate::OutOfMemory;
use crate::key::{FibKey, Outside};
use crate::pass::Pass;
use crate::publisher::Publisher;
use engine_set::Image;
use epoch_core::{StartError, start};
use rib_store::Plan;
use std::alloc::Global;
use std::sync::Arc;

/// A pass of each of these seats.
fn passes_of<const W: u32, const K: u64, const LIVE: u32>(
    alloc: Global,
    plan: &Arc<Plan<W>, Global>,
    seats: Vec<Outside<W, K, LIVE>>,
) -> Result<Vec<Pass<W, K, LIVE>>, OutOfMemory>
    requires weighted { All IsWeighted (arc_value plan.now).commands }
    requires new { All (IsFresh (arc_value plan.now)) seats.items }
    ensures { IfOk result (λ v. v.items ≡ map new_pass seats.entry.items) }
{
    let mut passes = Vec::with_capacity(alloc, seats.len())?;
    for seat in seats {
        passes.push(Pass::seated(seat, Arc::try_clone(plan)?))?;
    }
    Ok(passes)
}

/// A fib at version 0: its publisher and its passes, in order. The image is lawful for version 0 of
/// the plan. `BadCount` exactly where the number of passes isn't from 1 to 64. There are 2 to 8
/// banks, and room for 1 to 4,095 live targets.
pub fn fib_start<const W: u32, const K: u64, const LIVE: u32>(
    alloc: Global,
    plan: &Arc<Plan<W>, Global>,
    first: &Arc<Image<W>, Global>,
    passes: u8,
) -> Result<(Publisher<W, K, LIVE>, Vec<Pass<W, K, LIVE>>), StartError>
    requires banks { AreBanks K }
    requires targets { AreTargets LIVE }
    requires lawful { IsLawful LIVE (arc_value plan.now) (names_at K LIVE (arc_value plan.now) 0) 0 (arc_value first.now) }
    ensures count { OnOk result ((1 ≤ passes) × (passes ≤ 64)) }
    ensures bad_count { IfErr result (λ e. (e ≡ BadCount) ↔ ((passes ≡ 0) ⊎ (64 < passes))) }
    ensures publisher { IfOk result (λ t. (t.0.key ≡ arc_value plan.now) × (t.0.own ≡ record (first_control passes (length (firsts (named (arc_value plan.now))))) { opened = passes }) × (t.0.steps ≡ [])) }
    ensures passes { IfOk result (λ t. AreNewPasses t.0.table (arc_value plan.now) passes t.1.items) }
{
    if passes == 0 || passes > 64 {
        return Err(StartError::BadCount);
    }
    let _commands = plan.len();
    let numbers = plan.nexthops();
    let Ok(for_key) = Arc::try_clone(plan) else {
        return Err(StartError::OutOfMemory);
    };
    let Ok(for_publisher) = Arc::try_clone(plan) else {
        return Err(StartError::OutOfMemory);
    };
    let key = FibKey { plan: for_key };
    let (seat, seats) = start(alloc, key, passes, numbers, first)?;
    let Ok(passes) = passes_of(alloc, plan, seats) else {
        return Err(StartError::OutOfMemory);
    };
    Ok((Publisher::seated(seat, for_publisher), passes))
}
