//! Lookups beside a scan, and the verdicts.
ghost use Rattle.std.specs.Prelude.{◌≡◌, ℕ, ◌+◌, ◌<◌, ◌≤◌, List, IfOk, OnOk};
ghost use Rattle.prefix_width.specs.Prefix.{Block};
ghost use Rattle.module_trait.specs.Rows.{HaveIndexes};
ghost use Rattle.dxr_table.specs.Dxr.{IsDxrOf};

use crate::DxrTable;
use module_trait::{Edit, Module, RouteView, ScanTable, Steps, Verdict};
use prefix_width::{Addr, Prefix};
use std::alloc::Global;
use std::marker::Brand;
use std::process::Abort;
use std::sync::ledger::{Blank, Ledger};
use std::test::Fail;

/// How many routes the two modules are compared on.
const ROUTES: usize = 20_000;

/// The first address of chunk 10.1.
const CHUNK: u128 = 0x0a01_0000;

fn prefix(parts: (u128, u8)) -> Option<Prefix<32>> {
    Prefix::masked(Addr::new(parts.0)?, parts.1)
}

// Gives a prefix an index of 1 or more.
fn put(view: &mut RouteView<32>, parts: (u128, u8), index: u16) -> Result<(), Fail>
    requires indexes { HaveIndexes view.old }
    requires index { 1 ≤ index }
    ensures { OnOk result (HaveIndexes view.new) }
{
    let prefix = prefix(parts).ok_or("no prefix")?;
    view.set(prefix, Some(index))?;
    Ok(())
}

// Sets the view, and tells the table.
fn edit_to(
    alloc: Global,
    table: &mut DxrTable,
    view: &mut RouteView<32>,
    parts: (u128, u8),
    after: Option<u16>,
) -> Result<Verdict, Fail>
    requires { IsDxrOf view.old table.old }
{
    let prefix = prefix(parts).ok_or("no prefix")?;
    let _len = view.len();
    let before = view.get(&prefix);
    view.set(prefix, after)?;
    match Edit::new(prefix, before, after) {
        Some(edit) => Ok(table.change(alloc, &edit, view)?),
        None => Err("no edit".into()),
    }
}

// Looks an address up in at most 19 steps.
fn ask<L: Ledger>(table: &DxrTable, value: u128, steps: &mut Steps<L>) -> Result<Option<u16>, Fail>
    ensures { (rows : List (Block × ℕ)) → IsDxrOf rows table.now → steps.new ≤ steps.old + 19 }
{
    let addr = Addr::new(value).ok_or("no address")?;
    Ok(table.lookup(addr, steps))
}

// The table answers so at each address.
fn answers_at<L: Ledger>(
    rt: &impl Abort,
    table: &DxrTable,
    cases: &[(u128, Option<u16>)],
    steps: &mut Steps<L>,
) -> Result<(), Fail> {
    for case in cases {
        let (value, index) = *case;
        assert_eq!(rt; ask(table, value, steps)?, index, "at {value}");
    }
    Ok(())
}

// A prefix of 16 bits, and one of 17 inside it.
fn halves(alloc: Global) -> Result<RouteView<32>, Fail>
    ensures { IfOk result HaveIndexes }
{
    let mut view = RouteView::new(alloc);
    put(&mut view, (CHUNK, 16), 1)?;
    put(&mut view, (CHUNK + 0x8000, 17), 2)?;
    Ok(view)
}

fn built(alloc: Global, view: &RouteView<32>) -> Result<DxrTable, Fail>
    requires { HaveIndexes view.now }
    ensures { IfOk result (λ table. IsDxrOf view.now table) }
{
    let rows = view.rows(alloc)?;
    Ok(DxrTable::build(alloc, rows.as_slice())?)
}

// A batch of no edit is not taken.
fn refuse_batch(
    rt: &impl Abort,
    alloc: Global,
    table: &mut DxrTable,
    view: &RouteView<32>,
) -> Result<(), Fail>
    requires { IsDxrOf view.now table.old }
{
    let verdict = table.change_batch(alloc, &[], view)?;
    assert!(rt; verdict == Verdict::Rebuild);
    Ok(())
}

// An edit is not taken.
fn refuse_edit(
    rt: &impl Abort,
    alloc: Global,
    table: &mut DxrTable,
    view: &mut RouteView<32>,
) -> Result<(), Fail>
    requires { IsDxrOf view.old table.old }
{
    let verdict = edit_to(alloc, table, view, (CHUNK, 16), Some(4))?;
    assert!(rt; verdict == Verdict::Rebuild);
    Ok(())
}

// The table answers as the two halves do.
fn answers_in_halves<L: Ledger>(
    rt: &impl Abort,
    table: &DxrTable,
    steps: &mut Steps<L>,
) -> Result<(), Fail> {
    let cases = [
        (0, None),
        (0x0a00_ffff, None),
        (0x0a01_0000, Some(1)),
        (0x0a01_7fff, Some(1)),
        (0x0a01_8000, Some(2)),
        (0x0a01_ffff, Some(2)),
        (0x0a02_0000, None),
        (0xffff_ffff, None),
    ];
    answers_at(rt, table, &cases, steps)
}

fn take_halves<L: Ledger>(rt: &impl Abort, alloc: Global, blank: Blank) -> Result<(), Fail>
    requires name { blank.name ≡ L.name }
    requires parts { blank.parts ≡ L.parts }
    requires some { 0 < blank.parts }
{
    let mut steps = Steps::<L>::new(alloc, blank)?;
    let mut view = halves(alloc)?;
    let mut table = built(alloc, &view)?;
    assert_eq!(rt; table.bound(), 19);
    let mut copy = table.copy(alloc)?;
    refuse_batch(rt, alloc, &mut table, &view)?;
    refuse_edit(rt, alloc, &mut copy, &mut view)?;
    answers_in_halves(rt, &table, &mut steps)?;
    answers_in_halves(rt, &copy, &mut steps)
}

#[test]
fn a_chunk_has_two_halves(rt: HostRuntime) -> Result<(), Fail> {
    take_halves::<Brand>(&rt, rt.alloc(), Blank::new(1))
}

#[test]
fn the_preference_rises_at_a_thousand_routes(rt: HostRuntime) {
    for (routes, want) in [(0, 150), (999, 150), (1_000, 240), (262_144, 240)] {
        assert_eq!(rt; DxrTable::pref(routes), want, "at {routes}");
    }
}

// A host route at each address of a chunk, with one index at even and another at odd addresses.
fn fill_chunk(view: &mut RouteView<32>) -> Result<(), Fail>
    requires { HaveIndexes view.old }
    ensures { OnOk result (HaveIndexes view.new) }
{
    for host in 0..65_536u32 {
        put(view, (CHUNK + u128::from(host), 32), 1 + (host % 2) as u16)?;
    }
    Ok(())
}

fn ask_full_chunk<L: Ledger>(rt: &impl Abort, alloc: Global, blank: Blank) -> Result<(), Fail>
    requires name { blank.name ≡ L.name }
    requires parts { blank.parts ≡ L.parts }
    requires some { 0 < blank.parts }
{
    let mut steps = Steps::<L>::new(alloc, blank)?;
    let mut view = RouteView::new(alloc);
    fill_chunk(&mut view)?;
    let table = built(alloc, &view)?;
    let cases = [
        (0x0a00_ffff, None),
        (0x0a01_0000, Some(1)),
        (0x0a01_ffff, Some(2)),
        (0x0a02_0000, None),
    ];
    answers_at(rt, &table, &cases, &mut steps)
}

#[test]
fn a_chunk_may_have_a_fragment_for_each_address(rt: HostRuntime) -> Result<(), Fail> {
    ask_full_chunk::<Brand>(&rt, rt.alloc(), Blank::new(1))
}

// The next number of a linear congruential generator.
fn next_draw(x: u64) -> u64 {
    x.wrapping_mul(6_364_136_223_846_793_005)
        .wrapping_add(1_442_695_040_888_963_407)
}

// Prefixes of 8 to 32 bits, many of them nested, beside the whole and the two ends.
fn fill(view: &mut RouteView<32>) -> Result<(), Fail>
    requires { HaveIndexes view.old }
    ensures { OnOk result (HaveIndexes view.new) }
{
    put(view, (0, 0), 65_535)?;
    put(view, (0, 32), 65)?;
    put(view, (0xffff_ffff, 32), 66)?;
    let mut x = 1;
    for _ in 0..2 * ROUTES {
        if view.len() == ROUTES {
            break;
        }
        x = next_draw(x);
        let value = u128::from((x >> 24) & 0x03ff_ffff) << 6;
        let len = 8 + (x >> 58) % 25;
        put(view, (value, len as u8), 1 + ((x >> 50) % 64) as u16)?;
    }
    Ok(())
}

// Both modules answer alike.
fn agree_at<L: Ledger>(
    rt: &impl Abort,
    tables: (&ScanTable<32>, &DxrTable),
    value: u128,
    steps: &mut Steps<L>,
) {
    if let Some(addr) = Addr::new(value) {
        let plain = tables.0.lookup(addr, steps);
        assert_eq!(rt; tables.1.lookup(addr, steps), plain, "at {value}");
    }
}

// Both modules answer alike at the two ends of each prefix, and beside them.
fn agree_on_rows<L: Ledger>(
    rt: &impl Abort,
    tables: (&ScanTable<32>, &DxrTable),
    rows: &[(Prefix<32>, u16)],
    steps: &mut Steps<L>,
) {
    for row in rows {
        let first = row.0.first().value();
        let last = row.0.last().value();
        agree_at(rt, tables, first.saturating_sub(1), steps);
        agree_at(rt, tables, first, steps);
        agree_at(rt, tables, last, steps);
        agree_at(rt, tables, last.saturating_add(1), steps);
    }
}

// Both modules answer alike at drawn addresses.
fn agree_on_draws<L: Ledger>(
    rt: &impl Abort,
    tables: (&ScanTable<32>, &DxrTable),
    steps: &mut Steps<L>,
) {
    let mut x = 2;
    for _ in 0..ROUTES {
        x = next_draw(x);
        agree_at(rt, tables, u128::from(x >> 32), steps);
    }
}

fn agree_on_routes<L: Ledger>(rt: &impl Abort, alloc: Global, blank: Blank) -> Result<(), Fail>
    requires name { blank.name ≡ L.name }
    requires parts { blank.parts ≡ L.parts }
    requires some { 0 < blank.parts }
{
    let mut steps = Steps::<L>::new(alloc, blank)?;
    let mut view = RouteView::<32>::new(alloc);
    fill(&mut view)?;
    assert_eq!(rt; view.len(), ROUTES);
    let rows = view.rows(alloc)?;
    let plain: ScanTable<32> = ScanTable::build(alloc, rows.as_slice())?;
    let dxr: DxrTable = DxrTable::build(alloc, rows.as_slice())?;
    agree_on_rows(rt, (&plain, &dxr), rows.as_slice(), &mut steps);
    agree_on_draws(rt, (&plain, &dxr), &mut steps);
    Ok(())
}

#[test]
fn dxr_answers_as_the_plain_module(rt: HostRuntime) -> Result<(), Fail> {
    agree_on_routes::<Brand>(&rt, rt.alloc(), Blank::new(1))
}
