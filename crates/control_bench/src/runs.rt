//! Runs of drawn plans, whose images are compared with scans.
ghost use Rattle.std.specs.Prelude.{◌≡◌, ◌+◌, ◌≤◌, ◌-◌, ◌^◌, min, true, false, length, IfOk, OnOk};
ghost use Rattle.std.specs.Arc.{arc_value};
ghost use Rattle.plan_cut.specs.PlanCourse.{versions_of};

use crate::fib::{Control, Way, go_on};
use crate::images::{Answers, answers_of, mixed};
use crate::plans::{drawn_flows, drawn_plan};
use crate::report::print_answers;
use bench_kit::{Draws, Fault};
use module_trait::Steps;
use prefix_width::Addr;
use rib_store::Plan;
use std::alloc::Global;
use std::sync::Arc;
use std::sync::ledger::Ledger;
use std::thread::Threads;

/// At how many addresses each image is compared with a scan.
const ADDRESSES: usize = 200;

/// How often a call for which memory is wanting is made again.
const AGAIN: u32 = 8;

/// What the runs of plans come to.
#[derive(Clone, Copy, Debug, PartialEq, Eq)]
pub(crate) struct Totals {
    pub(crate) plans: u32,
    pub(crate) versions: u64,
    pub(crate) sum: u64,
    /// How often the control was called again for want of memory.
    pub(crate) again: u32,
}

impl Totals {
    /// Of no plan.
    pub(crate) fn none() -> Totals
        ensures { (result.plans ≡ 0) × (result.versions ≡ 0) }
    {
        Totals {
            plans: 0,
            versions: 0,
            sum: 0,
            again: 0,
        }
    }

    /// With one version more.
    fn add(&mut self, answers: &Answers)
        ensures versions { self.new.versions ≡ min (self.old.versions + 1) (2 ^ 64 - 1) }
        ensures plans { self.new.plans ≡ self.old.plans }
    {
        self.versions = self.versions.saturating_add(1);
        self.sum = mixed(self.sum, answers.sum);
    }
}

/// Goes on to the next version as [`go_on`] does, and calls again where memory is wanting.
fn go_on_at_last<R: Threads + Sync, const W: u32>(
    rt: &R,
    alloc: Global,
    control: &mut Control<W>,
    way: Way,
    totals: &mut Totals,
) -> Result<bool, Fault>
    ensures plan { control.new.plan ≡ control.old.plan }
    ensures next { IfOk result (λ on. on ≡ true → control.new.image.version ≡ control.old.image.version + 1) }
    ensures last { IfOk result (λ on. on ≡ false → control.new.image ≡ control.old.image) }
    ensures end { IfOk result (λ on. on ≡ false → length (versions_of 4095 control.old.plan) ≡ control.old.image.version + 1) }
    ensures versions { totals.new.versions ≡ totals.old.versions }
    ensures plans { totals.new.plans ≡ totals.old.plans }
{
    for _time in 0..AGAIN {
        if let Ok(on) = go_on(rt, alloc, control, way) {
            return Ok(on);
        }
        totals.again = totals.again.saturating_add(1);
    }
    Err(Fault::OutOfMemory)
}

/// Runs a control to its plan's last version, compares each image, and counts it.
fn run_versions<R: Threads + Sync + Print, L: Ledger, const W: u32>(
    rt: &R,
    alloc: Global,
    control: &mut Control<W>,
    flows: &[(Addr<W>, u32)],
    way: Way,
    telling: bool,
    totals: &mut Totals,
    steps: &mut Steps<L>,
) -> Result<(), Fault>
    ensures plan { control.new.plan ≡ control.old.plan }
    ensures end { OnOk result (length (versions_of 4095 control.old.plan) ≡ control.new.image.version + 1) }
    ensures versions { OnOk result (totals.new.versions ≡ min (totals.old.versions + (control.new.image.version - control.old.image.version)) (2 ^ 64 - 1)) }
    ensures plans { OnOk result (totals.new.plans ≡ totals.old.plans) }
{
    for _version in 0..u64::MAX {
        if !go_on_at_last(rt, alloc, control, way, totals)? {
            return Ok(());
        }
        let answers = answers_of(alloc, control, flows, steps)?;
        totals.add(&answers);
        if telling {
            print_answers(rt, &answers)?;
        }
    }
    Err(Fault::Unmade)
}

/// Runs a plan to its end. Each version but the first, which is empty, is counted.
fn run_plan<R: Threads + Sync + Print, L: Ledger, const W: u32>(
    rt: &R,
    alloc: Global,
    plan: Arc<Plan<W>>,
    flows: &[(Addr<W>, u32)],
    way: Way,
    telling: bool,
    totals: &mut Totals,
    steps: &mut Steps<L>,
) -> Result<(), Fault>
    ensures plans { OnOk result (totals.new.plans ≡ min (totals.old.plans + 1) (2 ^ 32 - 1)) }
    ensures versions { OnOk result (totals.new.versions ≡ min (totals.old.versions + (length (versions_of 4095 (arc_value plan.entry)) - 1)) (2 ^ 64 - 1)) }
{
    let (mut control, _first) = Control::<W>::begin(alloc, plan)?;
    totals.plans = totals.plans.saturating_add(1);
    run_versions(rt, alloc, &mut control, flows, way, telling, totals, steps)
}

/// Draws so many plans of so many commands, and runs each.
pub(crate) fn run_drawn<R: Threads + Sync + Print, L: Ledger, const W: u32>(
    rt: &R,
    alloc: Global,
    plans: u32,
    commands: u32,
    way: Way,
    telling: bool,
    steps: &mut Steps<L>,
) -> Result<Totals, Fault>
    requires width { (1 ≤ W) × (W ≤ 128) }
    requires some { 1 ≤ commands }
    ensures { IfOk result (λ totals. totals.plans ≡ plans) }
{
    let mut draws = Draws::new(u64::from(W));
    let flows = drawn_flows::<W>(alloc, &mut draws, ADDRESSES)?;
    let mut totals = Totals::none();
    for _drawn in 0..plans {
        let plan = drawn_plan::<W>(alloc, &mut draws, commands)?;
        run_plan(rt, alloc, plan, &flows, way, telling, &mut totals, steps)?;
    }
    Ok(totals)
}
