//! Drawn batches beside a table built anew and a scan.
ghost use Rattle.std.specs.Prelude.{◌≡◌, ◌<◌, OnOk};
ghost use Rattle.module_trait.specs.Rows.{HaveIndexes};
ghost use Rattle.dxr_chunks.specs.Table.{IsChunksOf};

use crate::OutOfMemory;
use crate::batch::{edit_each, take_version};
use bench_kit::Draws;
use dxr_chunks::ChunkTable;
use dxr_table::DxrTable;
use module_trait::{Module, RouteView, ScanTable, Steps};
use prefix_width::{Addr, Prefix};
use std::alloc::Global;
use std::marker::Brand;
use std::process::Abort;
use std::sync::ledger::{Blank, Ledger};
use std::test::Fail;

/// How many batches are drawn.
const BATCHES: usize = 5_000;

/// How many prefixes a batch has at most.
const EDITS: u32 = 4;

// A prefix of 8 to 32 bits of one of 64 addresses in 10.0.0.0/14, so that they often nest.
fn drawn(draws: &mut Draws) -> Option<Prefix<32>> {
    let value = 0x0a00_0000 + u128::from(draws.draw() % 64) * 4_099;
    let len = 8 + (draws.draw() % 25) as u8;
    Prefix::masked(Addr::new(value)?, len)
}

// The prefixes of a batch.
fn drawn_prefixes(alloc: Global, draws: &mut Draws) -> Result<Vec<Prefix<32>>, OutOfMemory> {
    let mut prefixes = Vec::new(alloc);
    for _ in 0..1 + draws.draw() % EDITS {
        if let Some(prefix) = drawn(draws) {
            prefixes.push(prefix)?;
        }
    }
    Ok(prefixes)
}

// An index, or none.
fn drawn_index(draws: &mut Draws) -> Option<u16> {
    let index = (draws.draw() % 5) as u16;
    if index == 0 { None } else { Some(index) }
}

// The three modules answer alike.
fn agree_at<L: Ledger>(
    rt: &impl Abort,
    tables: (&ScanTable<32>, &DxrTable, &ChunkTable),
    value: u128,
    steps: &mut Steps<L>,
) {
    if let Some(addr) = Addr::new(value) {
        let plain = tables.0.lookup(addr, steps);
        assert_eq!(rt; tables.1.lookup(addr, steps), plain, "at {value}");
        assert_eq!(rt; tables.2.lookup(addr, steps), plain, "at {value}");
    }
}

// They answer alike at the ends of a prefix and beside them, and at those of its chunks.
fn agree_on<L: Ledger>(
    rt: &impl Abort,
    tables: (&ScanTable<32>, &DxrTable, &ChunkTable),
    prefix: &Prefix<32>,
    steps: &mut Steps<L>,
) {
    let first = prefix.first().value();
    let last = prefix.last().value();
    agree_at(rt, tables, first.saturating_sub(1), steps);
    agree_at(rt, tables, first, steps);
    agree_at(rt, tables, last, steps);
    agree_at(rt, tables, last.saturating_add(1), steps);
    for chunk in (first >> 16) as u32..=(last >> 16) as u32 {
        agree_at(rt, tables, u128::from(chunk) << 16, steps);
        agree_at(rt, tables, (u128::from(chunk) << 16) + 65_535, steps);
    }
}

// Takes a batch, and compares a copy with two modules that are built anew.
fn take_drawn<L: Ledger>(
    rt: &impl Abort,
    alloc: Global,
    table: &mut ChunkTable,
    view: &mut RouteView<32>,
    draws: &mut Draws,
    steps: &mut Steps<L>,
) -> Result<(), Fail>
    requires { IsChunksOf view.old table.old }
    ensures { OnOk result (IsChunksOf view.new table.new) }
{
    let prefixes = drawn_prefixes(alloc, draws)?;
    let index = drawn_index(draws);
    let edits = edit_each(alloc, view, prefixes.as_slice(), index)?;
    let copy = take_version(alloc, table, edits.as_slice(), view)?;
    compare(rt, alloc, &copy, view, prefixes.as_slice(), steps)
}

fn plain(alloc: Global, view: &RouteView<32>) -> Result<ScanTable<32>, Fail>
    requires { HaveIndexes view.now }
{
    let rows = view.rows(alloc)?;
    Ok(ScanTable::build(alloc, rows.as_slice())?)
}

fn whole(alloc: Global, view: &RouteView<32>) -> Result<DxrTable, Fail>
    requires { HaveIndexes view.now }
{
    let rows = view.rows(alloc)?;
    Ok(DxrTable::build(alloc, rows.as_slice())?)
}

// The table answers as two modules that are built anew where these prefixes begin and end.
fn compare<L: Ledger>(
    rt: &impl Abort,
    alloc: Global,
    table: &ChunkTable,
    view: &RouteView<32>,
    prefixes: &[Prefix<32>],
    steps: &mut Steps<L>,
) -> Result<(), Fail>
    requires { HaveIndexes view.now }
{
    let plain = plain(alloc, view)?;
    let whole = whole(alloc, view)?;
    for prefix in prefixes {
        agree_on(rt, (&plain, &whole, table), prefix, steps);
    }
    Ok(())
}

fn take_batches<L: Ledger>(rt: &impl Abort, alloc: Global, blank: Blank) -> Result<(), Fail>
    requires name { blank.name ≡ L.name }
    requires parts { blank.parts ≡ L.parts }
    requires some { 0 < blank.parts }
{
    let mut steps = Steps::<L>::new(alloc, blank)?;
    let mut draws = Draws::new(7);
    let mut view = RouteView::new(alloc);
    let mut table = ChunkTable::empty(alloc)?;
    for _ in 0..BATCHES {
        take_drawn(rt, alloc, &mut table, &mut view, &mut draws, &mut steps)?;
    }
    Ok(())
}

#[test]
fn drawn_batches_answer_as_modules_built_anew(rt: HostRuntime) -> Result<(), Fail> {
    take_batches::<Brand>(&rt, rt.alloc(), Blank::new(1))
}
