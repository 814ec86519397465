//! What is printed.
ghost use Rattle.std.specs.Prelude.{◌≡◌, ◌≤◌, ◌<◌};

use crate::course::{SINGLES, course_of};
use crate::fib::Way;
use crate::images::Answers;
use crate::job::Job;
use crate::measure::{Figures, measure};
use crate::routes::draw_prefixes;
use crate::runs::{Totals, run_drawn};
use bench_kit::{Fault, printed, tenths};
use module_trait::Steps;
use prefix_width::Kind;
use std::alloc::Global;
use std::rt::Clock;
use std::sync::ledger::{Blank, Ledger};
use std::thread::Threads;
use std::time::{CpuClock, Duration};

/// How many commands a plan has that is compared.
const COMMANDS: u32 = 60;

/// Does a job, with the counter of a ledger.
pub(crate) fn work<R: Print + Eprint + AllocGlobal + Clock + CpuClock + Threads + Sync, L: Ledger>(
    rt: &R,
    job: Job,
    blank: Blank,
) -> Result<(), Fault>
    requires name { blank.name ≡ L.name }
    requires parts { blank.parts ≡ L.parts }
    requires some { 0 < blank.parts }
{
    let mut steps = Steps::<L>::new(rt.alloc(), blank)?;
    match job {
        Job::Drawn(plans) => run_both(rt, rt.alloc(), plans, false, &mut steps),
        Job::Refuse => run_both(rt, rt.alloc(), 1, true, &mut steps),
        Job::Time(routes) => time(rt, routes),
    }
}

/// The name of a module.
fn name_of(kind: Kind) -> &'static str {
    match kind {
        Kind::Scan => "scan",
        Kind::Range => "range",
        Kind::Radix => "radix",
        Kind::Dxr => "dxr",
    }
}

/// Runs drawn plans of a family, and prints what they come to.
fn run_family<R: Print + Eprint + Threads + Sync, L: Ledger, const W: u32>(
    rt: &R,
    alloc: Global,
    family: &str,
    plans: u32,
    way: Way,
    telling: bool,
    steps: &mut Steps<L>,
) -> Result<(), Fault>
    requires { (1 ≤ W) × (W ≤ 128) }
{
    let totals = run_drawn::<R, L, W>(rt, alloc, plans, COMMANDS, way, telling, steps)?;
    print_totals(rt, family, &totals)
}

/// Runs drawn plans of each family, in this thread and by threads.
fn run_both<R: Print + Eprint + Threads + Sync, L: Ledger>(
    rt: &R,
    alloc: Global,
    plans: u32,
    telling: bool,
    steps: &mut Steps<L>,
) -> Result<(), Fault> {
    for way in [Way::Serial, Way::Parallel] {
        run_family::<R, L, 32>(rt, alloc, "inet", plans, way, telling, steps)?;
        run_family::<R, L, 128>(rt, alloc, "inet6", plans, way, telling, steps)?;
    }
    Ok(())
}

/// Prints what an image answers.
pub(crate) fn print_answers<R: Print>(rt: &R, answers: &Answers) -> Result<(), Fault> {
    let Answers {
        version,
        commands,
        kind,
        routes,
        fresh,
        sum,
    } = *answers;
    let name = name_of(kind);
    printed(println!(rt;
        "version {version}: {commands} commands, {routes} routes, {name}, {fresh} fresh, sum {sum}"
    ))
}

/// Prints what the runs of a family come to, and beside the output whether memory was refused.
fn print_totals<R: Print + Eprint>(rt: &R, family: &str, totals: &Totals) -> Result<(), Fault> {
    let Totals {
        plans,
        versions,
        sum,
        again,
    } = *totals;
    if again > 0 {
        printed(eprintln!(rt; "{family}: called again {again} times"))?;
    }
    printed(println!(rt; "{family}: {plans} plans, {versions} versions as the scan, sum {sum}"))
}

/// Prints what versions take at so many routes.
fn time<R: Print + AllocGlobal + Clock + CpuClock + Threads + Sync>(
    rt: &R,
    routes: u32,
) -> Result<(), Fault> {
    let alloc = rt.alloc();
    let prefixes = draw_prefixes(alloc, routes)?;
    let Ok(routes) = u32::try_from(prefixes.len()) else {
        return Err(Fault::Unmade);
    };
    for kind in [Kind::Radix, Kind::Dxr] {
        for way in [Way::Serial, Way::Parallel] {
            let plan = course_of(alloc, kind, &prefixes)?;
            let figures = measure(rt, alloc, plan, way, routes)?;
            print_figures(rt, kind, way, routes, &figures)?;
        }
    }
    Ok(())
}

/// Prints what the versions of a course take.
fn print_figures<R: Print>(
    rt: &R,
    kind: Kind,
    way: Way,
    routes: u32,
    figures: &Figures,
) -> Result<(), Fault> {
    let module = name_of(kind);
    let way = match way {
        Way::Serial => "serial",
        Way::Parallel => "parallel",
    };
    for (what, versions, spent, parts) in [
        ("load", figures.versions, figures.load, 1),
        ("change", 1, figures.singles, SINGLES),
        ("batch", 1, figures.batch, 1),
    ] {
        let (cpu, cpu_tenths) = micros(spent.cpu, parts);
        let (wall, wall_tenths) = micros(spent.wall, parts);
        printed(println!(rt;
            "{module} {way} {what} {routes}: {cpu}.{cpu_tenths} us of the processor, {wall}.{wall_tenths} us by the clock, {versions} versions"
        ))?;
    }
    Ok(())
}

/// The microseconds of each of so many equal parts of a time, and the tenths of one.
fn micros(time: Duration, parts: u32) -> (u128, u128) {
    tenths(time.as_nanos(), u128::from(parts) * 1_000)
}
