//! What is printed.
use crate::beside::{Beside, run_beside};
use crate::job::Job;
use crate::plain::time_plainly;
use crate::reader::Way;
use crate::resolve::{Fastest, compare};
use crate::routes::{Course, course_of};
use bench_kit::{Fault, per_second, printed, tenths};
use prefix_width::Kind;
use std::sync::Wait;
use std::thread::Threads;
use std::time::CpuClock;

/// How many routes, changes and addresses there are where passes are shown.
const SHOWN_ROUTES: u32 = 300;

const SHOWN_CHANGES: u32 = 200;

const SHOWN_ADDRESSES: usize = 2_000;

/// How many changes and addresses there are where passes are measured.
const CHANGES: u32 = 200_000;

const ADDRESSES: usize = 1_048_576;

/// Does a job.
pub(crate) fn work<R: Print + AllocGlobal + CpuClock + Threads + Wait + Sync>(
    rt: &R,
    job: Job,
) -> Result<(), Fault> {
    match job {
        Job::Show => {
            show(rt, Kind::Radix)?;
            show(rt, Kind::Dxr)
        }
        Job::Time(routes) => {
            time(rt, Kind::Radix, routes)?;
            time(rt, Kind::Dxr, routes)
        }
        Job::Resolve(routes) => {
            for kind in [Kind::Scan, Kind::Range, Kind::Radix, Kind::Dxr] {
                time_resolve(rt, kind, routes)?;
            }
            Ok(())
        }
    }
}

/// The name of a module.
fn name_of(kind: Kind) -> &'static str {
    match kind {
        Kind::Scan => "scan",
        Kind::Range => "range",
        Kind::Radix => "radix",
        Kind::Dxr => "dxr",
    }
}

/// Prints what 1, 2 and 3 passes find beside a publisher.
fn show<R: Print + AllocGlobal + CpuClock + Threads + Wait + Sync>(
    rt: &R,
    kind: Kind,
) -> Result<(), Fault> {
    let alloc = rt.alloc();
    let course = course_of(alloc, kind, SHOWN_ROUTES, SHOWN_CHANGES, SHOWN_ADDRESSES)?;
    let name = name_of(kind);
    for passes in 1..=3u8 {
        let singly = run_beside(rt, alloc, &course, passes, Way::Singly, true)?.found;
        let batched = run_beside(rt, alloc, &course, passes, Way::Batched, true)?.found;
        let (lookups, answered) = (singly.lookups, singly.answered);
        let (inside, inside_answered) = (batched.lookups, batched.answered);
        printed(println!(rt;
            "{name} {passes}: {answered} of {lookups} lookups answered, {inside_answered} of {inside} inside"
        ))?;
    }
    Ok(())
}

/// Prints what a lookup takes in a module at so many routes.
fn time<R: Print + AllocGlobal + CpuClock + Threads + Wait + Sync>(
    rt: &R,
    kind: Kind,
    routes: u32,
) -> Result<(), Fault> {
    let alloc = rt.alloc();
    let course = course_of(alloc, kind, routes, CHANGES, ADDRESSES)?;
    let name = name_of(kind);
    let routes = course.routes;
    let (time, answered) = time_plainly(rt, alloc, &course)?;
    let (nanos, tenth) = tenths(time.as_nanos(), course.addrs.len() as u128);
    printed(println!(rt;
        "{name} plain {routes}: {nanos}.{tenth} ns a lookup, {answered} answered in all rounds"
    ))?;
    for publishing in [false, true] {
        for passes in 1..=3u8 {
            time_passes(rt, name, &course, passes, publishing)?;
        }
    }
    Ok(())
}

/// Prints what a lookup takes by so many passes.
fn time_passes<R: Print + AllocGlobal + CpuClock + Threads + Wait + Sync>(
    rt: &R,
    name: &str,
    course: &Course,
    passes: u8,
    publishing: bool,
) -> Result<(), Fault> {
    let alloc = rt.alloc();
    let kind = if publishing { "beside" } else { "alone" };
    let routes = course.routes;
    let singly = run_beside(rt, alloc, course, passes, Way::Singly, publishing)?;
    let batched = run_beside(rt, alloc, course, passes, Way::Batched, publishing)?;
    let (nanos, tenth) = nanos_of(&singly);
    let (inside, inside_tenth) = nanos_of(&batched);
    let versions = rate_of(&singly);
    printed(println!(rt;
        "{name} {kind} {routes} {passes}: {nanos}.{tenth} ns a lookup, {inside}.{inside_tenth} inside, {versions} versions a second"
    ))
}

/// The nanoseconds of a lookup, and the tenths behind them.
fn nanos_of(beside: &Beside) -> (u128, u128) {
    tenths(
        beside.found.time.as_nanos(),
        u128::from(beside.found.lookups),
    )
}

/// How many versions were published a second of the publisher's time.
fn rate_of(beside: &Beside) -> u128 {
    per_second(beside.written.versions, beside.written.time.as_nanos())
}

/// Prints what a lookup takes in an engine of a module and in images of the same routes.
fn time_resolve<R: Print + AllocGlobal + CpuClock>(
    rt: &R,
    kind: Kind,
    routes: u32,
) -> Result<(), Fault> {
    let costs = compare(rt, rt.alloc(), kind, routes)?;
    let name = name_of(kind);
    let routes = costs.routes;
    let (engine, engine_tenth) = nanos_in(&costs.engine, costs.lookups);
    let (nexthops, nexthops_tenth) = nanos_in(&costs.nexthops, costs.lookups);
    let (groups, groups_tenth) = nanos_in(&costs.groups, costs.lookups);
    let sums = (costs.engine.sum, costs.nexthops.sum, costs.groups.sum);
    printed(println!(rt;
        "{name} resolve {routes}: {engine}.{engine_tenth} ns in the engine, {nexthops}.{nexthops_tenth} in the image, {groups}.{groups_tenth} by groups, sums {} {} {}",
        sums.0, sums.1, sums.2
    ))
}

/// The nanoseconds of a lookup in the fastest round of so many, and the tenths behind them.
fn nanos_in(fastest: &Fastest, lookups: usize) -> (u128, u128) {
    tenths(fastest.time.as_nanos(), lookups as u128)
}
