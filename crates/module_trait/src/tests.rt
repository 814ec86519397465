//! The scan, views and edits, by hand.
ghost use Rattle.std.specs.Prelude.{◌≡◌, ◌<◌, ◌≤◌, IfOk, OnOk};
ghost use Rattle.module_trait.specs.Rows.{HaveIndexes};

use crate::{Edit, Module, RouteView, ScanTable, Steps, Verdict};
use prefix_width::{Addr, Prefix};
use std::alloc::Global;
use std::marker::Brand;
use std::process::Abort;
use std::sync::ledger::{Blank, Ledger};
use std::test::Fail;

const NET_8: (u128, u8) = (0x0a00_0000, 8);

const LOW_9: (u128, u8) = (0x0a00_0000, 9);

const HIGH_9: (u128, u8) = (0x0a80_0000, 9);

fn prefix(parts: (u128, u8)) -> Option<Prefix<32>> {
    Prefix::masked(Addr::new(parts.0)?, parts.1)
}

// Gives a prefix an index of 1 or more.
fn put(view: &mut RouteView<32>, parts: (u128, u8), index: u16) -> Result<(), Fail>
    requires indexes { HaveIndexes view.old }
    requires index { 1 ≤ index }
    ensures { OnOk result (HaveIndexes view.new) }
{
    let prefix = prefix(parts).ok_or("no prefix")?;
    view.set(prefix, Some(index))?;
    Ok(())
}

// Sets the view, and tells the table.
fn edit_to<M: Module<32>>(
    alloc: Global,
    table: &mut M,
    view: &mut RouteView<32>,
    parts: (u128, u8),
    after: Option<u16>,
) -> Result<Verdict, Fail>
    requires { M.stands table.old view.old }
    ensures { IfOk result (λ verdict. verdict ≡ Verdict.Done → M.stands table.new view.new) }
{
    let prefix = prefix(parts).ok_or("no prefix")?;
    let _len = view.len();
    let before = view.get(&prefix);
    view.set(prefix, after)?;
    match Edit::new(prefix, before, after) {
        Some(edit) => Ok(table.change(alloc, &edit, view)?),
        None => Err("no edit".into()),
    }
}

fn ask<L: Ledger>(
    table: &ScanTable<32>,
    value: u128,
    steps: &mut Steps<L>,
) -> Result<Option<u16>, Fail> {
    let addr = Addr::new(value).ok_or("no address")?;
    Ok(table.lookup(addr, steps))
}

#[test]
fn an_edit_has_two_sides_that_differ(rt: HostRuntime) -> Result<(), Fail> {
    let prefix = prefix(LOW_9).ok_or("no prefix")?;
    for (before, after, made) in [
        (None, Some(1), true),
        (Some(1), None, true),
        (Some(1), Some(2), true),
        (None, None, false),
        (Some(1), Some(1), false),
        (Some(0), Some(1), false),
        (Some(1), Some(0), false),
    ] {
        match Edit::new(prefix, before, after) {
            Some(edit) => {
                assert!(rt; made);
                assert_eq!(rt; edit.prefix(), prefix);
                assert_eq!(rt; edit.before(), before);
                assert_eq!(rt; edit.after(), after);
            }
            None => assert!(rt; !made),
        }
    }
    Ok(())
}

#[test]
fn a_view_is_an_ordered_map(rt: HostRuntime) -> Result<(), Fail> {
    let alloc = rt.alloc();
    let mut view = RouteView::<32>::new(alloc);
    for (parts, index) in [(HIGH_9, 3), (LOW_9, 9), (NET_8, 1), (LOW_9, 2)] {
        view.set(prefix(parts).ok_or("no prefix")?, Some(index))?;
    }
    let outer = prefix(NET_8).ok_or("no prefix")?;
    let low = prefix(LOW_9).ok_or("no prefix")?;
    let high = prefix(HIGH_9).ok_or("no prefix")?;
    let inner = prefix((0x0a81_0000, 16)).ok_or("no prefix")?;
    assert_eq!(rt; view.len(), 3);
    assert_eq!(rt; view.get(&low), Some(2));
    assert_eq!(rt; view.get(&inner), None);
    assert_eq!(rt; view.cover(&inner), Some((high, 3)));
    assert_eq!(rt; view.cover(&high), Some((outer, 1)));
    assert_eq!(rt; view.cover(&outer), None);
    let all = [(outer, 1), (low, 2), (high, 3)];
    assert!(rt; view.rows(alloc)?.as_slice() == all.as_slice());
    assert!(rt; view.rows_under(alloc, &outer)?.as_slice() == all.as_slice());
    assert!(rt; view.rows_under(alloc, &high)?.as_slice() == [(high, 3)].as_slice());
    view.set(high, None)?;
    assert_eq!(rt; view.rows_under(alloc, &high)?.len(), 0);
    assert_eq!(rt; view.cover(&inner), Some((outer, 1)));
    Ok(())
}

// With a counter of this ledger.
fn take_every_edit<L: Ledger>(rt: &impl Abort, alloc: Global, blank: Blank) -> Result<(), Fail>
    requires name { blank.name ≡ L.name }
    requires parts { blank.parts ≡ L.parts }
    requires some { 0 < blank.parts }
{
    let mut steps = Steps::<L>::new(alloc, blank)?;
    let mut view = RouteView::<32>::new(alloc);
    put(&mut view, NET_8, 1)?;
    put(&mut view, LOW_9, 2)?;
    put(&mut view, HIGH_9, 3)?;
    let rows = view.rows(alloc)?;
    let mut table: ScanTable<32> = ScanTable::build(alloc, rows.as_slice())?;
    assert_eq!(rt; table.bound(), 3);
    assert_eq!(rt; ask(&table, 0x0a00_0001, &mut steps)?, Some(2));
    assert_eq!(rt; ask(&table, 0x0b00_0000, &mut steps)?, None);
    let verdict = edit_to(alloc, &mut table, &mut view, LOW_9, Some(4))?;
    assert!(rt; verdict == Verdict::Done);
    let verdict = edit_to(alloc, &mut table, &mut view, LOW_9, None)?;
    assert!(rt; verdict == Verdict::Done);
    let verdict = edit_to(alloc, &mut table, &mut view, HIGH_9, None)?;
    assert!(rt; verdict == Verdict::Done);
    let copy = table.copy(alloc)?;
    assert_eq!(rt; ask(&table, 0x0a80_0001, &mut steps)?, Some(1));
    assert_eq!(rt; ask(&copy, 0x0a80_0001, &mut steps)?, Some(1));
    let verdict = table.change_batch(alloc, &[], &view)?;
    assert!(rt; verdict == Verdict::Done);
    assert_eq!(rt; ScanTable::<32>::pref(7), 50);
    Ok(())
}

#[test]
fn the_plain_module_takes_every_edit(rt: HostRuntime) -> Result<(), Fail> {
    take_every_edit::<Brand>(&rt, rt.alloc(), Blank::new(1))
}
