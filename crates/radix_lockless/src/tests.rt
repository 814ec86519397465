//! Drawn edits beside a scan, and nested prefixes.
ghost use Rattle.std.specs.Prelude.{◌≡◌, ◌<◌, ◌≤◌, IfOk, OnOk};
ghost use Rattle.module_trait.specs.Rows.{HaveIndexes};
ghost use Rattle.radix_lockless.specs.Table.{IsRadixOf};

use crate::RadixTable;
use module_trait::{Edit, Module, RouteView, ScanTable, Steps, Verdict};
use prefix_width::{Addr, Prefix};
use std::alloc::Global;
use std::marker::Brand;
use std::process::Abort;
use std::sync::ledger::{Blank, Ledger};
use std::test::Fail;

/// An address and a length.
type Parts = (u128, u8);

const NET_8: Parts = (0x0a00_0000, 8);

const LOW_9: Parts = (0x0a00_0000, 9);

const HIGH_9: Parts = (0x0a80_0000, 9);

const INNER_16: Parts = (0x0a01_0000, 16);

const INNER_24: Parts = (0x0a01_0200, 24);

/// How many edits are drawn.
const EDITS: usize = 5_000;

fn prefix<const W: u32>(parts: Parts) -> Option<Prefix<W>>
    requires { (1 ≤ W) × (W ≤ 128) }
{
    Prefix::masked(Addr::new(parts.0)?, parts.1)
}

// Gives a prefix an index of 1 or more.
fn put<const W: u32>(view: &mut RouteView<W>, parts: Parts, index: u16) -> Result<(), Fail>
    requires width { (1 ≤ W) × (W ≤ 128) }
    requires indexes { HaveIndexes view.old }
    requires index { 1 ≤ index }
    ensures { OnOk result (HaveIndexes view.new) }
{
    let prefix = prefix(parts).ok_or("no prefix")?;
    view.set(prefix, Some(index))?;
    Ok(())
}

fn built<const W: u32>(alloc: Global, view: &RouteView<W>) -> Result<RadixTable<W>, Fail>
    requires { HaveIndexes view.now }
    ensures { IfOk result (λ table. IsRadixOf view.now table) }
{
    let rows = view.rows(alloc)?;
    Ok(RadixTable::build(alloc, rows.as_slice())?)
}

// Sets the view, and tells the table, which takes every edit.
fn edit_to<const W: u32>(
    rt: &impl Abort,
    alloc: Global,
    table: &mut RadixTable<W>,
    view: &mut RouteView<W>,
    parts: Parts,
    after: Option<u16>,
) -> Result<(), Fail>
    requires width { (1 ≤ W) × (W ≤ 128) }
    requires stands { IsRadixOf view.old table.old }
    ensures { OnOk result (IsRadixOf view.new table.new) }
{
    let prefix = prefix(parts).ok_or("no prefix")?;
    let _len = view.len();
    let before = view.get(&prefix);
    if before == after {
        return Ok(());
    }
    view.set(prefix, after)?;
    match Edit::new(prefix, before, after) {
        Some(edit) => {
            let verdict = table.change(alloc, &edit, view)?;
            assert!(rt; verdict == Verdict::Done);
            Ok(())
        }
        None => Err("no edit".into()),
    }
}

fn ask<const W: u32, L: Ledger>(
    table: &RadixTable<W>,
    value: u128,
    steps: &mut Steps<L>,
) -> Result<Option<u16>, Fail>
    requires { (1 ≤ W) × (W ≤ 128) }
{
    let addr = Addr::new(value).ok_or("no address")?;
    Ok(table.lookup(addr, steps))
}

fn take_edits<L: Ledger>(rt: &impl Abort, alloc: Global, blank: Blank) -> Result<(), Fail>
    requires name { blank.name ≡ L.name }
    requires parts { blank.parts ≡ L.parts }
    requires some { 0 < blank.parts }
{
    let mut steps = Steps::<L>::new(alloc, blank)?;
    let mut view = RouteView::<32>::new(alloc);
    put(&mut view, NET_8, 1)?;
    put(&mut view, LOW_9, 2)?;
    put(&mut view, HIGH_9, 3)?;
    let mut table = built(alloc, &view)?;
    assert_eq!(rt; table.bound(), 33);
    table.settle(alloc)?;
    let copy = table.copy(alloc)?;
    edit_to(rt, alloc, &mut table, &mut view, LOW_9, Some(4))?;
    assert_eq!(rt; ask(&table, 0x0a00_0001, &mut steps)?, Some(4));
    edit_to(rt, alloc, &mut table, &mut view, LOW_9, None)?;
    assert_eq!(rt; ask(&table, 0x0a00_0001, &mut steps)?, Some(1));
    edit_to(rt, alloc, &mut table, &mut view, HIGH_9, None)?;
    assert_eq!(rt; ask(&table, 0x0a80_0001, &mut steps)?, Some(1));
    let verdict = table.change_batch(alloc, &[], &view)?;
    assert!(rt; verdict == Verdict::Done);
    assert_eq!(rt; ask(&copy, 0x0a00_0001, &mut steps)?, Some(2));
    assert_eq!(rt; ask(&copy, 0x0a80_0001, &mut steps)?, Some(3));
    Ok(())
}

#[test]
fn every_edit_is_done_and_a_copy_stays(rt: HostRuntime) -> Result<(), Fail> {
    take_edits::<Brand>(&rt, rt.alloc(), Blank::new(1))
}

fn take_the_middle_out<L: Ledger>(rt: &impl Abort, alloc: Global, blank: Blank) -> Result<(), Fail>
    requires name { blank.name ≡ L.name }
    requires parts { blank.parts ≡ L.parts }
    requires some { 0 < blank.parts }
{
    let mut steps = Steps::<L>::new(alloc, blank)?;
    let mut view = RouteView::<32>::new(alloc);
    put(&mut view, NET_8, 1)?;
    put(&mut view, INNER_16, 2)?;
    put(&mut view, INNER_24, 3)?;
    let first = built(alloc, &view)?;
    // A table that was copied is given nodes of its own by the edit.
    let mut table = first.copy(alloc)?;
    edit_to(rt, alloc, &mut table, &mut view, INNER_16, None)?;
    for (value, before, after) in [
        (0x0a00_0000, Some(1), Some(1)),
        (0x0a01_0000, Some(2), Some(1)),
        (0x0a01_0100, Some(2), Some(1)),
        (0x0a01_02ff, Some(3), Some(3)),
        (0x0b00_0000, None, None),
    ] {
        assert_eq!(rt;
            ask(&first, value, &mut steps)?,
            before,
            "before at {value}"
        );
        assert_eq!(rt; ask(&table, value, &mut steps)?, after, "after at {value}");
    }
    Ok(())
}

#[test]
fn nested_prefixes_without_the_middle_one(rt: HostRuntime) -> Result<(), Fail> {
    take_the_middle_out::<Brand>(&rt, rt.alloc(), Blank::new(1))
}

fn ask_at_128_bits<L: Ledger>(rt: &impl Abort, alloc: Global, blank: Blank) -> Result<(), Fail>
    requires name { blank.name ≡ L.name }
    requires parts { blank.parts ≡ L.parts }
    requires some { 0 < blank.parts }
{
    let mut steps = Steps::<L>::new(alloc, blank)?;
    let mut view = RouteView::<128>::new(alloc);
    put(&mut view, (0, 0), 1)?;
    put(&mut view, (u128::MAX, 128), 2)?;
    let table = built(alloc, &view)?;
    assert_eq!(rt; table.bound(), 129);
    assert_eq!(rt; ask(&table, u128::MAX, &mut steps)?, Some(2));
    assert_eq!(rt; ask(&table, u128::MAX - 1, &mut steps)?, Some(1));
    assert_eq!(rt; ask(&table, 0, &mut steps)?, Some(1));
    Ok(())
}

#[test]
fn a_default_route_and_one_address(rt: HostRuntime) -> Result<(), Fail> {
    ask_at_128_bits::<Brand>(&rt, rt.alloc(), Blank::new(1))
}

#[test]
fn the_preference_is_less_from_100000_routes_on(rt: HostRuntime) {
    for (routes, want) in [(0, 200), (99_999, 200), (100_000, 100), (u32::MAX, 100)] {
        assert_eq!(rt; RadixTable::<32>::pref(routes), want, "at {routes}");
    }
}

// The next number of a linear congruential generator.
fn next_draw(x: u64) -> u64 {
    x.wrapping_mul(6_364_136_223_846_793_005)
        .wrapping_add(1_442_695_040_888_963_407)
}

// The table answers as the plain module with the view's rows, and as a new table, at the first
// address of each prefix of 6 bits.
fn agree<const W: u32, L: Ledger>(
    rt: &impl Abort,
    alloc: Global,
    table: &RadixTable<W>,
    view: &RouteView<W>,
    steps: &mut Steps<L>,
) -> Result<(), Fail>
    requires width { (7 ≤ W) × (W ≤ 128) }
    requires indexes { HaveIndexes view.now }
{
    let rows = view.rows(alloc)?;
    let plain: ScanTable<W> = ScanTable::build(alloc, rows.as_slice())?;
    let fresh: RadixTable<W> = RadixTable::build(alloc, rows.as_slice())?;
    for top in 0..64u8 {
        let addr = Addr::new(u128::from(top) << (W - 6)).ok_or("no address")?;
        let want = plain.lookup(addr, steps);
        assert_eq!(rt; table.lookup(addr, steps), want, "at {top}");
        assert_eq!(rt; fresh.lookup(addr, steps), want, "anew at {top}");
    }
    Ok(())
}

// Edits of drawn prefixes of up to 6 bits, half of which take a row out.
fn draw_edits<const W: u32, L: Ledger>(
    rt: &impl Abort,
    alloc: Global,
    steps: &mut Steps<L>,
) -> Result<(), Fail>
    requires { (7 ≤ W) × (W ≤ 128) }
{
    let mut view = RouteView::<W>::new(alloc);
    let mut table = built(alloc, &view)?;
    let mut x = 1;
    for _ in 0..EDITS {
        x = next_draw(x);
        let draw = x >> 32;
        let value = u128::from(draw & 0x3f) << (W - 6);
        let len = ((draw >> 6) % 7) as u8;
        let index = 1 + (draw >> 9) % 64;
        let after = if draw & 0x8000_0000 == 0 {
            None
        } else {
            Some(index as u16)
        };
        edit_to(rt, alloc, &mut table, &mut view, (value, len), after)?;
        agree(rt, alloc, &table, &view, steps)?;
    }
    Ok(())
}

fn draw_on_both_widths<L: Ledger>(rt: &impl Abort, alloc: Global, blank: Blank) -> Result<(), Fail>
    requires name { blank.name ≡ L.name }
    requires parts { blank.parts ≡ L.parts }
    requires some { 0 < blank.parts }
{
    let mut steps = Steps::<L>::new(alloc, blank)?;
    draw_edits::<32, L>(rt, alloc, &mut steps)?;
    draw_edits::<128, L>(rt, alloc, &mut steps)
}

#[test]
fn drawn_edits_answer_as_the_plain_module(rt: HostRuntime) -> Result<(), Fail> {
    draw_on_both_widths::<Brand>(&rt, rt.alloc(), Blank::new(1))
}
