//! What is printed of chunks.
ghost use Rattle.module_trait.specs.Rows.{AreRows};

use crate::addresses::{inside, uniform};
use crate::chunks::measure_chunks;
use crate::measure::measure;
use crate::report::thousandths;
use crate::routes::{draw_routes, draw_view};
use bench_kit::{Fault, printed, tenths};
use dxr_chunks::ChunkTable;
use module_trait::Steps;
use prefix_width::{Addr, Prefix};
use std::sync::ledger::Ledger;
use std::time::CpuClock;

/// Prints what a table of chunks is measured at.
pub(crate) fn print_chunk_times<R: Print + AllocGlobal + CpuClock, L: Ledger>(
    rt: &R,
    count: usize,
    steps: &mut Steps<L>,
) -> Result<(), Fault> {
    let routes = draw_routes::<32>(rt.alloc(), count)?;
    let rows = routes.rows.as_slice();
    let addrs = inside(rt.alloc(), routes.prefixes.as_slice())?;
    print_lookups(rt, "inside", rows, addrs.as_slice(), steps)?;
    let addrs = uniform::<32>(rt.alloc())?;
    print_lookups(rt, "uniform", rows, addrs.as_slice(), steps)
}

/// Measures lookups and the build, and prints the figures behind the kind of the addresses.
fn print_lookups<R: Print + AllocGlobal + CpuClock, L: Ledger>(
    rt: &R,
    kind: &str,
    rows: &[(Prefix<32>, u16)],
    addrs: &[Addr<32>],
    steps: &mut Steps<L>,
) -> Result<(), Fault>
    requires { AreRows rows.now }
{
    let figures = measure::<32, ChunkTable, R, L>(rt, rows, addrs, steps)?;
    let (count, lookups, sum) = (rows.len(), addrs.len(), figures.sum);
    let (nanos, nano_tenths) = tenths(figures.lookups.as_nanos(), lookups as u128);
    let (copied, copied_tenths) = tenths(figures.copied.as_nanos(), lookups as u128);
    let (millis, micros) = thousandths(figures.build.as_micros());
    printed(println!(rt;
        "chunks inet {kind} {count}: {nanos}.{nano_tenths} ns a lookup, {copied}.{copied_tenths} in a copy, {millis}.{micros:03} ms to build, sum {sum} of {lookups}"
    ))
}

/// Prints what edits of a table of chunks are measured at, each with the copy for readers behind it.
pub(crate) fn print_chunk_edits<R: Print + AllocGlobal + CpuClock>(
    rt: &R,
    count: usize,
) -> Result<(), Fault> {
    let mut drawing = draw_view::<32>(rt.alloc(), count)?;
    let prefixes = drawing.prefixes.as_slice();
    let figures = measure_chunks(rt, &mut drawing.view, prefixes)?;
    let (count, edits) = (prefixes.len(), figures.edits);
    let (single, single_tenths) = tenths(figures.single.as_nanos() / 1_000, edits as u128);
    let (batch, batch_thousandths) = thousandths(figures.batch.as_micros());
    printed(println!(rt;
        "chunks inet edits {count}: {single}.{single_tenths} us for one edit and a copy, {batch}.{batch_thousandths:03} ms for {edits} edits in a batch and a copy"
    ))
}
