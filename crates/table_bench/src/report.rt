//! What is printed.
ghost use Rattle.std.specs.Prelude.{◌≡◌};
ghost use Rattle.table_bench.specs.Words.{IsJob};

use crate::flow_report::report_flows;
use crate::index_report::report_indexes;
use crate::job::Job;
use crate::live::TARGETS_MAX;
use crate::measure::{Figures, measure};
use crate::routes::{Phase, commands_of};
use bench_kit::{Fault, printed, tenths};
use prefix_width::{Path, Prefix};
use rib_store::Rib;
use std::collections::BTreeMap;
use std::time::CpuClock;

/// At how many routes, and at how many live targets, the counts are printed.
const COUNTED: u32 = 1_000;

/// Of how many groups of each size the counts are printed.
const GROUPS: u32 = 100;

/// Does a job.
pub(crate) fn work<R: Print + AllocGlobal + CpuClock>(rt: &R, job: Job) -> Result<(), Fault>
    requires { IsJob job }
{
    match job {
        Job::Counts => {
            report_commands(rt, false, COUNTED)?;
            report_indexes(rt, false, COUNTED)?;
            report_flows(rt, GROUPS)
        }
        Job::Time(count) => report_commands(rt, true, count),
        Job::Indexes(count) => report_indexes(rt, true, count),
        Job::Flows(groups) => report_flows(rt, groups),
    }
}

/// Does the phases on so many routes, and prints what they come to: times or counts.
fn report_commands<R: Print + AllocGlobal + CpuClock>(
    rt: &R,
    timed: bool,
    count: u32,
) -> Result<(), Fault> {
    let mut table = Rib::<32, TARGETS_MAX>::new(rt.alloc());
    let mut map = BTreeMap::new(rt.alloc());
    report_phase(rt, timed, count, &mut table, &mut map, Phase::Adds)?;
    report_phase(rt, timed, count, &mut table, &mut map, Phase::Changes)?;
    report_phase(rt, timed, count, &mut table, &mut map, Phase::Deletes)
}

/// Does a phase, and prints what it comes to.
fn report_phase<R: Print + AllocGlobal + CpuClock, const LIVE: u32>(
    rt: &R,
    timed: bool,
    count: u32,
    table: &mut Rib<32, LIVE>,
    map: &mut BTreeMap<Prefix<32>, Path<32>>,
    phase: Phase,
) -> Result<(), Fault>
    requires { table.old.profile ≡ 1 }
    ensures { table.new.profile ≡ 1 }
{
    let name = match phase {
        Phase::Adds => "add",
        Phase::Changes => "change",
        Phase::Deletes => "delete",
    };
    let commands = commands_of(rt.alloc(), phase, count)?;
    let figures = measure(rt, table, map, phase, commands.as_slice())?;
    if timed {
        print_times(rt, name, &figures, count)
    } else {
        print_counts(rt, name, &figures, table.len(), map.len())
    }
}

/// Prints how many commands were answered as the phase asks, and what is there then.
fn print_counts<R: Print>(
    rt: &R,
    name: &str,
    figures: &Figures,
    routes: u32,
    entries: usize,
) -> Result<(), Fault> {
    let done = figures.done;
    printed(println!(rt;
        "{name} {COUNTED}: {done} done, {routes} routes, {entries} entries of the map"
    ))
}

/// Prints what a command of the phase takes, and what the same takes on the map.
fn print_times<R: Print>(rt: &R, name: &str, figures: &Figures, count: u32) -> Result<(), Fault> {
    let done = figures.done;
    let (table, map) = (figures.table.as_nanos(), figures.map.as_nanos());
    let (table_nanos, table_tenths) = tenths(table, u128::from(count));
    let (map_nanos, map_tenths) = tenths(map, u128::from(count));
    let (times, time_tenths) = tenths(table, map);
    printed(println!(rt;
        "{name} {count}: {table_nanos}.{table_tenths} ns by the table, {map_nanos}.{map_tenths} ns by the map, {times}.{time_tenths} times, {done} done"
    ))
}
