//! Lookups beside a scan, and the verdicts.
ghost use Rattle.std.specs.Prelude.{◌≡◌, ◌<◌, ◌≤◌, IfOk, OnOk};
ghost use Rattle.module_trait.specs.Rows.{HaveIndexes};

use crate::RangeTable;
use module_trait::{Edit, Module, RouteView, ScanTable, Steps, Verdict};
use prefix_width::{Addr, Prefix};
use std::alloc::Global;
use std::marker::Brand;
use std::process::Abort;
use std::sync::ledger::{Blank, Ledger};
use std::test::Fail;

const LOW_9: (u128, u8) = (0x0a00_0000, 9);

const HIGH_9: (u128, u8) = (0x0a80_0000, 9);

/// How many routes the two modules are compared on.
const ROUTES: usize = 2_000;

fn prefix<const W: u32>(parts: (u128, u8)) -> Option<Prefix<W>>
    requires { (1 ≤ W) × (W ≤ 128) }
{
    Prefix::masked(Addr::new(parts.0)?, parts.1)
}

// Gives a prefix an index of 1 or more.
fn put<const W: u32>(view: &mut RouteView<W>, parts: (u128, u8), index: u16) -> Result<(), Fail>
    requires width { (1 ≤ W) × (W ≤ 128) }
    requires indexes { HaveIndexes view.old }
    requires index { 1 ≤ index }
    ensures { OnOk result (HaveIndexes view.new) }
{
    let prefix = prefix(parts).ok_or("no prefix")?;
    view.set(prefix, Some(index))?;
    Ok(())
}

// Sets the view, and tells the table.
fn edit_to(
    alloc: Global,
    table: &mut RangeTable<32>,
    view: &mut RouteView<32>,
    parts: (u128, u8),
    after: Option<u16>,
) -> Result<Verdict, Fail>
    requires { ⟦<RangeTable<32> as Module<32>>⟧.stands table.old view.old }
    ensures { IfOk result (λ verdict. verdict ≡ Verdict.Done → ⟦<RangeTable<32> as Module<32>>⟧.stands table.new view.new) }
{
    let prefix = prefix(parts).ok_or("no prefix")?;
    let _len = view.len();
    let before = view.get(&prefix);
    view.set(prefix, after)?;
    match Edit::new(prefix, before, after) {
        Some(edit) => Ok(table.change(alloc, &edit, view)?),
        None => Err("no edit".into()),
    }
}

fn ask<L: Ledger>(
    table: &RangeTable<32>,
    value: u128,
    steps: &mut Steps<L>,
) -> Result<Option<u16>, Fail> {
    let addr = Addr::new(value).ok_or("no address")?;
    Ok(table.lookup(addr, steps))
}

// A prefix and its two halves.
fn three_routes(alloc: Global) -> Result<RouteView<32>, Fail>
    ensures { IfOk result HaveIndexes }
{
    let mut view = RouteView::new(alloc);
    put(&mut view, (0x0a00_0000, 8), 1)?;
    put(&mut view, LOW_9, 2)?;
    put(&mut view, HIGH_9, 3)?;
    Ok(view)
}

fn take_edits<L: Ledger>(rt: &impl Abort, alloc: Global, blank: Blank) -> Result<(), Fail>
    requires name { blank.name ≡ L.name }
    requires parts { blank.parts ≡ L.parts }
    requires some { 0 < blank.parts }
{
    let mut steps = Steps::<L>::new(alloc, blank)?;
    let mut view = three_routes(alloc)?;
    let rows = view.rows(alloc)?;
    let mut table: RangeTable<32> = RangeTable::build(alloc, rows.as_slice())?;
    assert_eq!(rt; table.bound(), 3);
    let verdict = edit_to(alloc, &mut table, &mut view, LOW_9, Some(4))?;
    assert!(rt; verdict == Verdict::Done);
    let verdict = edit_to(alloc, &mut table, &mut view, LOW_9, None)?;
    assert!(rt; verdict == Verdict::Done);
    assert_eq!(rt; ask(&table, 0x0a00_0001, &mut steps)?, Some(1));
    let verdict = table.change_batch(alloc, &[], &view)?;
    assert!(rt; verdict == Verdict::Done);
    let verdict = edit_to(alloc, &mut table, &mut view, HIGH_9, None)?;
    assert!(rt; verdict == Verdict::Rebuild);
    let copy = table.copy(alloc)?;
    for (value, index) in [
        (0, None),
        (0x09ff_ffff, None),
        (0x0a00_0000, Some(1)),
        (0x0a7f_ffff, Some(1)),
        (0x0a80_0001, Some(3)),
        (0x0aff_ffff, Some(3)),
        (0x0b00_0000, None),
        (0xffff_ffff, None),
    ] {
        assert_eq!(rt; ask(&table, value, &mut steps)?, index, "at {value}");
        assert_eq!(rt; ask(&copy, value, &mut steps)?, index, "copied at {value}");
    }
    Ok(())
}

#[test]
fn an_edit_is_done_where_the_starts_stay(rt: HostRuntime) -> Result<(), Fail> {
    take_edits::<Brand>(&rt, rt.alloc(), Blank::new(1))
}

#[test]
fn the_preference_falls_with_the_routes(rt: HostRuntime) {
    for (routes, want) in [
        (0, 253),
        (3, 253),
        (4, 252),
        (1_008, 1),
        (1_012, 1),
        (262_144, 1),
    ] {
        assert_eq!(rt; RangeTable::<32>::pref(routes), want, "at {routes}");
    }
}

// The next number of a linear congruential generator.
fn next_draw(x: u64) -> u64 {
    x.wrapping_mul(6_364_136_223_846_793_005)
        .wrapping_add(1_442_695_040_888_963_407)
}

// Nested and adjacent prefixes of 4 to 16 bits, beside the whole and the two ends.
fn fill<const W: u32>(view: &mut RouteView<W>) -> Result<(), Fail>
    requires width { (17 ≤ W) × (W ≤ 128) }
    requires indexes { HaveIndexes view.old }
    ensures { OnOk result (HaveIndexes view.new) }
{
    put(view, (0, 0), 65_535)?;
    put(view, (0, W as u8), 65)?;
    put(view, (0xffff << (W - 16), 16), 66)?;
    let mut x = 1;
    for _ in 0..2 * ROUTES {
        if view.len() == ROUTES {
            break;
        }
        x = next_draw(x);
        let draw = x >> 32;
        let value = u128::from(draw & 0xffff) << (W - 16);
        let len = 4 + (draw >> 16) % 13;
        put(view, (value, len as u8), 1 + (draw % 64) as u16)?;
    }
    Ok(())
}

// Both modules answer alike, at an address of the width.
fn agree_at<const W: u32, L: Ledger>(
    rt: &impl Abort,
    tables: (&ScanTable<W>, &RangeTable<W>),
    value: u128,
    steps: &mut Steps<L>,
)
    requires { (1 ≤ W) × (W ≤ 128) }
{
    if let Some(addr) = Addr::new(value) {
        let plain = tables.0.lookup(addr, steps);
        assert_eq!(rt; tables.1.lookup(addr, steps), plain, "at {value}");
    }
}

fn agree_on_routes<const W: u32, L: Ledger>(
    rt: &impl Abort,
    alloc: Global,
    steps: &mut Steps<L>,
) -> Result<(), Fail>
    requires { (17 ≤ W) × (W ≤ 128) }
{
    let mut view = RouteView::<W>::new(alloc);
    fill(&mut view)?;
    assert_eq!(rt; view.len(), ROUTES);
    let rows = view.rows(alloc)?;
    let plain: ScanTable<W> = ScanTable::build(alloc, rows.as_slice())?;
    let range: RangeTable<W> = RangeTable::build(alloc, rows.as_slice())?;
    for row in rows.as_slice() {
        let end = row.0.last().value().saturating_add(1);
        for start in [row.0.first().value(), end] {
            agree_at(rt, (&plain, &range), start.saturating_sub(1), steps);
            agree_at(rt, (&plain, &range), start, steps);
            agree_at(rt, (&plain, &range), start.saturating_add(1), steps);
        }
    }
    Ok(())
}

fn agree_on_both_widths<L: Ledger>(rt: &impl Abort, alloc: Global, blank: Blank) -> Result<(), Fail>
    requires name { blank.name ≡ L.name }
    requires parts { blank.parts ≡ L.parts }
    requires some { 0 < blank.parts }
{
    let mut steps = Steps::<L>::new(alloc, blank)?;
    agree_on_routes::<32, L>(rt, alloc, &mut steps)?;
    agree_on_routes::<128, L>(rt, alloc, &mut steps)
}

#[test]
fn ranges_answer_as_the_plain_module(rt: HostRuntime) -> Result<(), Fail> {
    agree_on_both_widths::<Brand>(&rt, rt.alloc(), Blank::new(1))
}
