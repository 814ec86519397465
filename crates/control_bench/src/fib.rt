//! Controls that go on from version to version.
ghost use Rattle.std.specs.Prelude.{◌≡◌, ◌+◌, true, false, length, IfOk, OnOk, OnErr};
ghost use Rattle.plan_cut.specs.PlanCourse.{versions_of};
ghost use Rattle.rib_store.specs.Plan.{plan_with};

use crate::OutOfMemory;
use bench_kit::Fault;
use fib_sync::Advance;
use rib_store::{Command, Plan, PushError};
use std::alloc::Global;
use std::thread::Threads;

/// A control with 8 banks and room for 4,095 live targets.
pub(crate) type Control<const W: u32> = fib_sync::Control<W, 8, 4_095>;

/// Where a version's chunks are made.
#[derive(Clone, Copy, Debug, PartialEq, Eq)]
pub(crate) enum Way {
    /// In this thread.
    Serial,
    /// In threads of their own.
    Parallel,
}

/// Goes on to the next version. `false` where there is none: the last image is that of the plan's
/// last version.
pub(crate) fn go_on<R: Threads + Sync, const W: u32>(
    rt: &R,
    alloc: Global,
    control: &mut Control<W>,
    way: Way,
) -> Result<bool, OutOfMemory>
    ensures plan { control.new.plan ≡ control.old.plan }
    ensures next { IfOk result (λ on. on ≡ true → control.new.image.version ≡ control.old.image.version + 1) }
    ensures last { IfOk result (λ on. on ≡ false → control.new.image ≡ control.old.image) }
    ensures end { IfOk result (λ on. on ≡ false → length (versions_of 4095 control.old.plan) ≡ control.old.image.version + 1) }
    ensures err { OnErr result (control.new.image ≡ control.old.image) }
{
    let advance = match way {
        Way::Serial => control.advance(alloc)?,
        Way::Parallel => control.advance_par(rt, alloc)?,
    };
    match advance {
        Advance::Next(_) => Ok(true),
        Advance::Finished => Ok(false),
    }
}

/// Puts a command behind a plan's others.
pub(crate) fn push<const W: u32>(plan: &mut Plan<W>, command: Command<W>) -> Result<(), Fault>
    ensures plan { OnOk result (plan.new ≡ plan_with plan.old command.entry) }
    ensures count { OnOk result (length plan.new.commands ≡ length plan.old.commands + 1) }
{
    match plan.push(command) {
        Ok(()) => Ok(()),
        Err(PushError::OutOfMemory) => Err(Fault::OutOfMemory),
        Err(_) => Err(Fault::Unmade),
    }
}
