//! The times of versions.
ghost use Rattle.std.specs.Prelude.{◌≡◌, ◌+◌, IfOk, OnOk};

use crate::clock::{Begun, Spent};
use crate::course::{ROUNDS, SINGLES};
use crate::fib::{Control, Way, go_on};
use bench_kit::Fault;
use rib_store::Plan;
use std::alloc::Global;
use std::rt::Clock;
use std::sync::Arc;
use std::thread::Threads;
use std::time::CpuClock;

/// What the versions of a course take.
#[derive(Clone, Copy, Debug, PartialEq, Eq)]
pub(crate) struct Figures {
    /// All versions up to the one that has all routes, and how many these are.
    pub(crate) load: Spent,
    pub(crate) versions: u64,
    /// [`SINGLES`] versions of one change each, in the fastest round.
    pub(crate) singles: Spent,
    /// A version of 256 changes, the fastest one.
    pub(crate) batch: Spent,
}

/// The next version, which there must be.
fn must_go_on<R: Threads + Sync>(
    rt: &R,
    alloc: Global,
    control: &mut Control<32>,
    way: Way,
) -> Result<(), Fault>
    ensures { OnOk result (control.new.image.version ≡ control.old.image.version + 1) }
{
    if go_on(rt, alloc, control, way)? {
        Ok(())
    } else {
        Err(Fault::Unmade)
    }
}

/// The time up to the version that has so many routes.
fn time_load<R: Threads + Sync + Clock + CpuClock>(
    rt: &R,
    alloc: Global,
    control: &mut Control<32>,
    way: Way,
    routes: u32,
) -> Result<Spent, Fault> {
    let begun = Begun::now(rt)?;
    for _ in 0..u64::MAX {
        if control.image().routes() >= routes {
            break;
        }
        must_go_on(rt, alloc, control, way)?;
    }
    begun.spent(rt)
}

/// The time of so many versions.
fn time_versions<R: Threads + Sync + Clock + CpuClock>(
    rt: &R,
    alloc: Global,
    control: &mut Control<32>,
    way: Way,
    versions: u32,
) -> Result<Spent, Fault>
    ensures { OnOk result (control.new.image.version ≡ control.old.image.version + versions) }
{
    let begun = Begun::now(rt)?;
    for _number in 0..versions {
        must_go_on(rt, alloc, control, way)?;
    }
    begun.spent(rt)
}

/// Measures each part of a course.
fn time_course<R: Threads + Sync + Clock + CpuClock>(
    rt: &R,
    alloc: Global,
    control: &mut Control<32>,
    way: Way,
    routes: u32,
) -> Result<Figures, Fault>
    ensures { IfOk result (λ figures. control.new.image.version ≡ figures.versions + 1584) }
{
    let load = time_load(rt, alloc, control, way, routes)?;
    let versions = control.image().version();
    let mut singles = Spent::most();
    let mut batch = Spent::most();
    for _round in 0..ROUNDS {
        singles = singles.min(time_versions(rt, alloc, control, way, SINGLES)?);
        batch = batch.min(time_versions(rt, alloc, control, way, 1)?);
    }
    Ok(Figures {
        load,
        versions,
        singles,
        batch,
    })
}

/// Runs a course that makes so many routes.
pub(crate) fn measure<R: Threads + Sync + Clock + CpuClock>(
    rt: &R,
    alloc: Global,
    plan: Plan<32>,
    way: Way,
    routes: u32,
) -> Result<Figures, Fault> {
    let plan = Arc::new(alloc, plan)?;
    let (mut control, _first) = Control::<32>::begin(alloc, plan)?;
    time_course(rt, alloc, &mut control, way, routes)
}
