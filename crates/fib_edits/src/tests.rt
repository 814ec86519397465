//! Edits from one version to the next, by hand.
ghost use Rattle.std.specs.Prelude.{OnOk};
ghost use Rattle.module_trait.specs.Rows.{HaveIndexes};

use crate::{Touched, follow, law_indexes_are_kept, law_rows_are_named, view_of};
use module_trait::{Edit, RouteView};
use nhop_index::IndexBook;
use prefix_width::{Addr, Nexthop, Path, Prefix};
use rib_store::{Command, Rib};
use std::alloc::Global;
use std::process::Abort;
use std::test::Fail;

/// 10.0.0.0, 10.1.0.0, 10.2.0.0 and 192.0.0.0.
const TEN: u128 = 0x0a00_0000;

const ONE: u128 = 0x0a01_0000;

const TWO: u128 = 0x0a02_0000;

const NET: u128 = 0xc000_0000;

/// 10.0.0.0/8, or the network of 16 bits at another address.
fn prefix(base: u128) -> Option<Prefix<32>> {
    let len = if base == TEN { 8 } else { 16 };
    Prefix::masked(Addr::new(base)?, len)
}

/// The path by the host of 192.0.0.0/16, or by the attached interface 1 where the host is 0.
fn path(host: u128) -> Option<Path<32>> {
    if host == 0 {
        return Path::new(Nexthop::direct(1, 0)?, 1);
    }
    Path::new(Nexthop::via(Addr::new(NET | host)?, 0, 0), 1)
}

fn add(base: u128, host: u128) -> Option<Command<32>> {
    Some(Command::Add {
        prefix: prefix(base)?,
        path: path(host)?,
    })
}

fn change(base: u128, host: u128) -> Option<Command<32>> {
    Some(Command::Change {
        prefix: prefix(base)?,
        path: path(host)?,
    })
}

fn delete(base: u128) -> Option<Command<32>> {
    Some(Command::Delete {
        prefix: prefix(base)?,
        gateway: None,
    })
}

/// A table, its book of indexes, and the rows of its last version.
#[derive(Drop)]
struct Course {
    rib: Rib<32, 2_047>,
    book: IndexBook<32, 4, 2_047>,
    touched: Touched<32>,
    view: RouteView<32>,
}

/// Runs the commands.
fn run(
    alloc: Global,
    rib: &mut Rib<32, 2_047>,
    touched: &mut Touched<32>,
    commands: &[Option<Command<32>>],
) -> Result<(), Fail> {
    for command in commands {
        let command = (*command).ok_or("no command")?;
        touched.add_command(&command, rib)?;
        rib.apply(alloc, &command)?;
    }
    Ok(())
}

/// The edits of the next version, after these commands.
fn next_version(
    rt: &impl Abort,
    alloc: Global,
    course: &mut Course,
    commands: &[Option<Command<32>>],
) -> Result<Vec<Edit<32>>, Fail>
    requires { HaveIndexes course.old.view }
    ensures { OnOk result (HaveIndexes course.new.view) }
{
    run(alloc, &mut course.rib, &mut course.touched, commands)?;
    let targets = course.rib.targets(alloc)?;
    let indexes = course.book.next(alloc, &targets)?;
    let edits = course
        .touched
        .edits(alloc, &course.rib, &indexes, &course.view)?;
    follow(&mut course.view, &edits)?;
    let view = view_of(alloc, &course.rib, &indexes)?;
    assert_eq!(rt; course.view.rows(alloc)?, view.rows(alloc)?);
    assert!(rt; course.touched.len() >= edits.len());
    course.view = view;
    course.touched.clear();
    Ok(edits)
}

/// An edit of a network from an index to another, 0 being no row.
type Row = (u128, u16, u16);

/// Whether an edit is this one.
fn is_edit(edit: &Edit<32>, row: Row) -> bool {
    let (base, before, after) = row;
    Some(edit.prefix()) == prefix(base)
        && edit.before().unwrap_or(0) == before
        && edit.after().unwrap_or(0) == after
}

#[test]
fn versions_have_their_edits(rt: HostRuntime) -> Result<(), Fail> {
    let alloc = rt.alloc();
    let mut course = Course {
        rib: Rib::new(alloc),
        book: IndexBook::new(alloc),
        touched: Touched::new(alloc),
        view: RouteView::new(alloc),
    };
    let versions: [(&[Option<Command<32>>], &[Row]); 12] = [
        (&[], &[]),
        (&[add(TEN, 1)], &[(TEN, 0, 1)]),
        (&[change(TEN, 2)], &[(TEN, 1, 2)]),
        (&[change(TEN, 3)], &[(TEN, 2, 3)]),
        (&[change(TEN, 4)], &[(TEN, 3, 4)]),
        (&[change(TEN, 5)], &[(TEN, 4, 1)]),
        (&[add(ONE, 1)], &[(ONE, 0, 2)]),
        (&[change(ONE, 5)], &[(ONE, 2, 1)]),
        (&[change(ONE, 5), delete(TWO)], &[]),
        (&[add(TWO, 0), add(TEN, 6)], &[(TEN, 1, 5), (TWO, 0, 4)]),
        (&[Some(Command::Flush)], &[(TEN, 5, 0), (ONE, 1, 0)]),
        (&[delete(TWO), Some(Command::Sync)], &[(TWO, 4, 0)]),
    ];
    for (i, (commands, want)) in versions.iter().enumerate() {
        let edits = next_version(&rt, alloc, &mut course, commands)?;
        assert_eq!(rt; edits.len(), want.len(), "at {i}");
        for (edit, row) in edits.iter().zip(want.iter()) {
            assert!(rt; is_edit(edit, *row), "at {i}");
        }
    }
    Ok(())
}

#[test]
fn the_laws_are_proved() {
    law_indexes_are_kept::<32>();
    law_rows_are_named::<32>();
}
