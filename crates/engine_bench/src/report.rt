//! What is printed.
ghost use Rattle.std.specs.Prelude.{◌≡◌, ◌/◌, ◌%◌, ◌<◌, ◌≤◌};
ghost use Rattle.module_trait.specs.Rows.{AreRows};

use crate::addresses::{inside, uniform};
use crate::chunk_report::{print_chunk_edits, print_chunk_times};
use crate::edits::measure_edits;
use crate::family::family_name;
use crate::job::Job;
use crate::measure::{measure, sum_of};
use crate::routes::{count_nodes, count_starts, draw_routes, draw_view};
use bench_kit::{Fault, per_second, printed, tenths};
use dxr_chunks::ChunkTable;
use dxr_table::DxrTable;
use module_trait::{Module, ScanTable, Steps};
use prefix_width::{Addr, Prefix};
use radix_lockless::RadixTable;
use range_search::RangeTable;
use std::sync::ledger::{Blank, Ledger};
use std::time::CpuClock;

/// At how many routes the sums are printed, and up to how many the plain module is measured, whose
/// lookup reads every row.
const PLAIN_ROUTES: usize = 1_000;

/// How many of the addresses the plain module looks up.
const PLAIN_ADDRESSES: usize = 65_536;

/// Does a job, with the counter of a ledger, which the blank is for.
pub(crate) fn work<R: Print + AllocGlobal + CpuClock, L: Ledger>(
    rt: &R,
    job: Job,
    blank: Blank,
) -> Result<(), Fault>
    requires name { blank.name ≡ L.name }
    requires parts { blank.parts ≡ L.parts }
    requires some { 0 < blank.parts }
{
    let mut steps: Steps<L> = Steps::new(rt.alloc(), blank)?;
    match job {
        Job::Sums => {
            print_sums::<32, R, L>(rt, &mut steps)?;
            print_dxr_sums(rt, &mut steps)?;
            print_sums::<128, R, L>(rt, &mut steps)
        }
        Job::Dxr(count) => print_all_of_dxr(rt, count, &mut steps),
        Job::Time(count) => {
            print_times::<32, R, L>(rt, count, &mut steps)?;
            print_all_of_dxr(rt, count, &mut steps)?;
            print_times::<128, R, L>(rt, count, &mut steps)?;
            print_edit_times::<32, R>(rt, count)?;
            print_edit_times::<128, R>(rt, count)
        }
    }
}

/// Prints the check sums of a family.
fn print_sums<const W: u32, R: Print + AllocGlobal, L: Ledger>(
    rt: &R,
    steps: &mut Steps<L>,
) -> Result<(), Fault>
    requires { (1 ≤ W) × (W ≤ 128) }
{
    let routes = draw_routes::<W>(rt.alloc(), PLAIN_ROUTES)?;
    let rows = routes.rows.as_slice();
    let addrs = inside(rt.alloc(), routes.prefixes.as_slice())?;
    print_module_sums(rt, ("inside", "inside65536"), rows, addrs.as_slice(), steps)?;
    if W == 32 {
        let addrs = uniform::<W>(rt.alloc())?;
        print_module_sums(
            rt,
            ("uniform", "uniform65536"),
            rows,
            addrs.as_slice(),
            steps,
        )?;
    }
    Ok(())
}

/// Prints the check sums of dxr, whole and by chunks, which has addresses of IPv4 alone.
fn print_dxr_sums<R: Print + AllocGlobal, L: Ledger>(
    rt: &R,
    steps: &mut Steps<L>,
) -> Result<(), Fault> {
    let routes = draw_routes::<32>(rt.alloc(), PLAIN_ROUTES)?;
    let rows = routes.rows.as_slice();
    let addrs = inside(rt.alloc(), routes.prefixes.as_slice())?;
    print_sum::<32, DxrTable, R, L>(rt, ("dxr", "inside"), rows, addrs.as_slice(), steps)?;
    print_sum::<32, ChunkTable, R, L>(rt, ("chunks", "inside"), rows, addrs.as_slice(), steps)?;
    let addrs = uniform::<32>(rt.alloc())?;
    print_sum::<32, DxrTable, R, L>(rt, ("dxr", "uniform"), rows, addrs.as_slice(), steps)?;
    print_sum::<32, ChunkTable, R, L>(rt, ("chunks", "uniform"), rows, addrs.as_slice(), steps)
}

/// Prints the sums of sorted ranges and of the trie, and that of the plain module over the first
/// addresses.
fn print_module_sums<const W: u32, R: Print + AllocGlobal, L: Ledger>(
    rt: &R,
    kinds: (&str, &str),
    rows: &[(Prefix<W>, u16)],
    addrs: &[Addr<W>],
    steps: &mut Steps<L>,
) -> Result<(), Fault>
    requires { AreRows rows.now }
{
    let few = &addrs[..addrs.len().min(PLAIN_ADDRESSES)];
    print_sum::<W, RangeTable<W>, R, L>(rt, ("range", kinds.0), rows, addrs, steps)?;
    print_sum::<W, RangeTable<W>, R, L>(rt, ("range", kinds.1), rows, few, steps)?;
    print_sum::<W, RadixTable<W>, R, L>(rt, ("radix", kinds.0), rows, addrs, steps)?;
    print_sum::<W, RadixTable<W>, R, L>(rt, ("radix", kinds.1), rows, few, steps)?;
    print_sum::<W, ScanTable<W>, R, L>(rt, ("scan", kinds.1), rows, few, steps)
}

/// Builds a module and prints the check sum of its answers, behind the module and the kind of the
/// addresses.
fn print_sum<const W: u32, M: Module<W>, R: Print + AllocGlobal, L: Ledger>(
    rt: &R,
    names: (&str, &str),
    rows: &[(Prefix<W>, u16)],
    addrs: &[Addr<W>],
    steps: &mut Steps<L>,
) -> Result<(), Fault>
    requires { AreRows rows.now }
{
    let table = M::build(rt.alloc(), rows)?;
    let sum = sum_of(&table, addrs, steps);
    let (module, kind) = names;
    let family = family_name::<W>();
    let count = rows.len();
    printed(println!(rt; "{module} {family} {kind} {count} {sum}"))
}

/// Prints what the modules are measured at in a family.
fn print_times<const W: u32, R: Print + AllocGlobal + CpuClock, L: Ledger>(
    rt: &R,
    count: usize,
    steps: &mut Steps<L>,
) -> Result<(), Fault>
    requires { (1 ≤ W) × (W ≤ 128) }
{
    let routes = draw_routes::<W>(rt.alloc(), count)?;
    let rows = routes.rows.as_slice();
    let addrs = inside(rt.alloc(), routes.prefixes.as_slice())?;
    print_module_times(rt, "inside", rows, addrs.as_slice(), steps)?;
    if W == 32 {
        let addrs = uniform::<W>(rt.alloc())?;
        print_module_times(rt, "uniform", rows, addrs.as_slice(), steps)?;
    }
    Ok(())
}

/// Prints what sorted ranges and the trie are measured at, and the plain module where the rows are
/// few.
fn print_module_times<const W: u32, R: Print + AllocGlobal + CpuClock, L: Ledger>(
    rt: &R,
    kind: &str,
    rows: &[(Prefix<W>, u16)],
    addrs: &[Addr<W>],
    steps: &mut Steps<L>,
) -> Result<(), Fault>
    requires { AreRows rows.now }
{
    let cells = count_starts(rt.alloc(), rows)?;
    let bytes = cells.saturating_mul(range_cell_size::<W>());
    print_time::<W, RangeTable<W>, R, L>(rt, ("range", kind), rows, addrs, bytes, steps)?;
    let nodes = count_nodes(rt.alloc(), rows)?;
    let bytes = nodes.saturating_mul(RadixTable::<W>::node_size());
    print_time::<W, RadixTable<W>, R, L>(rt, ("radix", kind), rows, addrs, bytes, steps)?;
    if rows.len() > PLAIN_ROUTES {
        return Ok(());
    }
    let few = &addrs[..addrs.len().min(PLAIN_ADDRESSES)];
    let bytes = rows.len().saturating_mul(size_of::<(Prefix<W>, u16)>());
    print_time::<W, ScanTable<W>, R, L>(rt, ("scan", kind), rows, few, bytes, steps)
}

/// Prints what dxr is measured at, whole and by chunks.
fn print_all_of_dxr<R: Print + AllocGlobal + CpuClock, L: Ledger>(
    rt: &R,
    count: usize,
    steps: &mut Steps<L>,
) -> Result<(), Fault> {
    print_dxr_times(rt, count, steps)?;
    print_chunk_times(rt, count, steps)?;
    print_chunk_edits(rt, count)
}

/// Prints what dxr is measured at that is built whole.
fn print_dxr_times<R: Print + AllocGlobal + CpuClock, L: Ledger>(
    rt: &R,
    count: usize,
    steps: &mut Steps<L>,
) -> Result<(), Fault> {
    let routes = draw_routes::<32>(rt.alloc(), count)?;
    let rows = routes.rows.as_slice();
    let table: DxrTable = DxrTable::build(rt.alloc(), rows)?;
    let bytes = table.bytes();
    let addrs = inside(rt.alloc(), routes.prefixes.as_slice())?;
    print_time::<32, DxrTable, R, L>(rt, ("dxr", "inside"), rows, addrs.as_slice(), bytes, steps)?;
    let addrs = uniform::<32>(rt.alloc())?;
    print_time::<32, DxrTable, R, L>(rt, ("dxr", "uniform"), rows, addrs.as_slice(), bytes, steps)
}

/// How many bytes a cell of sorted ranges takes: a start of 32 bits is kept as one.
fn range_cell_size<const W: u32>() -> usize {
    if W <= 32 {
        size_of::<(u32, u16)>()
    } else {
        size_of::<(u128, u16)>()
    }
}

/// Measures a module of so many bytes and prints the figures, behind the module and the kind of
/// the addresses.
fn print_time<const W: u32, M: Module<W>, R: Print + AllocGlobal + CpuClock, L: Ledger>(
    rt: &R,
    names: (&str, &str),
    rows: &[(Prefix<W>, u16)],
    addrs: &[Addr<W>],
    bytes: usize,
    steps: &mut Steps<L>,
) -> Result<(), Fault>
    requires { AreRows rows.now }
{
    let figures = measure::<W, M, R, L>(rt, rows, addrs, steps)?;
    let (module, kind) = names;
    let family = family_name::<W>();
    let (count, lookups, sum) = (rows.len(), addrs.len(), figures.sum);
    let (nanos, nano_tenths) = tenths(figures.lookups.as_nanos(), lookups as u128);
    let (copied, copied_tenths) = tenths(figures.copied.as_nanos(), lookups as u128);
    let (millis, micros) = thousandths(figures.build.as_micros());
    let (bytes, byte_tenths) = tenths(bytes as u128, count as u128);
    printed(println!(rt;
        "{module} {family} {kind} {count}: {nanos}.{nano_tenths} ns a lookup, {copied}.{copied_tenths} in a copy, {millis}.{micros:03} ms to build, {bytes}.{byte_tenths} bytes a route, sum {sum} of {lookups}"
    ))
}

/// Prints what edits and copies of the trie are measured at.
fn print_edit_times<const W: u32, R: Print + AllocGlobal + CpuClock>(
    rt: &R,
    count: usize,
) -> Result<(), Fault>
    requires { (1 ≤ W) × (W ≤ 128) }
{
    let mut drawing = draw_view::<W>(rt.alloc(), count)?;
    let prefixes = drawing.prefixes.as_slice();
    let figures = measure_edits(rt, &mut drawing.view, prefixes)?;
    let family = family_name::<W>();
    let count = prefixes.len();
    let changes = per_second(count as u64, figures.changes.as_nanos());
    let removals = per_second(count.saturating_mul(2) as u64, figures.removals.as_nanos());
    let (micros, nanos) = thousandths(figures.copy.as_nanos());
    printed(println!(rt;
        "radix {family} edits {count}: {changes} changes of an index a second, {removals} removals and additions a second, {micros}.{nanos:03} us to copy after three changed nodes"
    ))
}

/// Thousandths as wholes and the thousandths behind them.
pub(crate) fn thousandths(number: u128) -> (u128, u128)
    ensures whole { result.0 ≡ number / 1_000 }
    ensures rest { result.1 ≡ number % 1_000 }
{
    (number / 1_000, number % 1_000)
}
