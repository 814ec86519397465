//! What changes of a table cost.
ghost use Rattle.std.specs.Prelude.{◌≡◌, ◌≤◌, IfOk, OnOk};
ghost use Rattle.module_trait.specs.Rows.{HaveIndexes};
ghost use Rattle.radix_lockless.specs.Table.{IsRadixOf};

use crate::OutOfMemory;
use bench_kit::{Fault, cpu_time};
use module_trait::{Edit, Module, RouteView};
use prefix_width::Prefix;
use radix_lockless::RadixTable;
use std::alloc::Global;
use std::time::{CpuClock, Duration};

/// The index of the prefixes that are changed before a copy. No drawn route has it.
const BEFORE_COPY: u16 = 65;

/// The index of the prefixes whose changes are measured. No drawn route has it.
const CHANGED: u16 = 66;

/// How many copies are made. The fastest one counts.
const COPIES: u16 = 100;

/// What the edits and the copies of a trie were measured at, without what its view of the routes
/// takes.
#[derive(Clone, Copy)]
pub(crate) struct EditFigures {
    /// The processor time of a new index for every prefix.
    pub(crate) changes: Duration,
    /// The processor time of taking every row out and putting it back, one after the other.
    pub(crate) removals: Duration,
    /// The processor time of a copy after three nodes were changed.
    pub(crate) copy: Duration,
}

/// Edits the rows of prefixes in a trie, and copies it.
pub(crate) fn measure_edits<const W: u32, R: CpuClock + AllocGlobal>(
    rt: &R,
    view: &mut RouteView<W>,
    prefixes: &[Prefix<W>],
) -> Result<EditFigures, Fault>
    requires { HaveIndexes view.old }
{
    let alloc = rt.alloc();
    let rows = view.rows(alloc)?;
    let mut table: RadixTable<W> = RadixTable::build(alloc, rows.as_slice())?;
    let copy = time_copies(rt, &mut table, view, prefixes)?;
    let start = cpu_time(rt)?;
    replace_rows(alloc, &mut table, view, prefixes)?;
    let removals = cpu_time(rt)?.saturating_sub(start);
    let start = cpu_time(rt)?;
    change_rows(alloc, &mut table, view, prefixes, CHANGED)?;
    let changes = cpu_time(rt)?.saturating_sub(start);
    let start = cpu_time(rt)?;
    replace_in_view(view, prefixes)?;
    let removals = removals.saturating_sub(cpu_time(rt)?.saturating_sub(start));
    let start = cpu_time(rt)?;
    change_in_view(view, prefixes, CHANGED)?;
    let changes = changes.saturating_sub(cpu_time(rt)?.saturating_sub(start));
    Ok(EditFigures {
        changes,
        removals,
        copy,
    })
}

/// Sets the index of a prefix, or takes its row out for `None`, in the view and in the trie. An
/// index that is there already changes nothing.
fn edit_to<const W: u32>(
    alloc: Global,
    table: &mut RadixTable<W>,
    view: &mut RouteView<W>,
    prefix: &Prefix<W>,
    after: Option<u16>,
) -> Result<(), OutOfMemory>
    requires { IsRadixOf view.old table.old }
    ensures { OnOk result (IsRadixOf view.new table.new) }
{
    let _len = view.len();
    let before = view.get(prefix);
    let edit = match Edit::new(*prefix, before, after) {
        Some(edit) => edit,
        None => return Ok(()),
    };
    view.set(*prefix, after)?;
    table.change(alloc, &edit, view)?;
    Ok(())
}

/// Gives each prefix an index.
fn change_rows<const W: u32>(
    alloc: Global,
    table: &mut RadixTable<W>,
    view: &mut RouteView<W>,
    prefixes: &[Prefix<W>],
    index: u16,
) -> Result<(), OutOfMemory>
    requires { IsRadixOf view.old table.old }
    ensures { OnOk result (IsRadixOf view.new table.new) }
{
    for prefix in prefixes {
        let _before = view.get(prefix);
        edit_to(alloc, table, view, prefix, Some(index))?;
    }
    Ok(())
}

/// Takes the row of each prefix out and puts it back.
fn replace_rows<const W: u32>(
    alloc: Global,
    table: &mut RadixTable<W>,
    view: &mut RouteView<W>,
    prefixes: &[Prefix<W>],
) -> Result<(), OutOfMemory>
    requires { IsRadixOf view.old table.old }
    ensures { OnOk result (IsRadixOf view.new table.new) }
{
    for prefix in prefixes {
        let index = view.get(prefix);
        edit_to(alloc, table, view, prefix, None)?;
        edit_to(alloc, table, view, prefix, index)?;
    }
    Ok(())
}

/// Does in the view alone what [`change_rows`] does there.
fn change_in_view<const W: u32>(
    view: &mut RouteView<W>,
    prefixes: &[Prefix<W>],
    index: u16,
) -> Result<(), OutOfMemory> {
    for prefix in prefixes {
        let _before = view.get(prefix);
        view.set(*prefix, Some(index))?;
    }
    Ok(())
}

/// Does in the view alone what [`replace_rows`] does there.
fn replace_in_view<const W: u32>(
    view: &mut RouteView<W>,
    prefixes: &[Prefix<W>],
) -> Result<(), OutOfMemory> {
    for prefix in prefixes {
        let index = view.get(prefix);
        view.set(*prefix, None)?;
        let _none = view.get(prefix);
        view.set(*prefix, index)?;
    }
    Ok(())
}

/// The least time of a copy after the nodes of three prefixes were changed, which lie anywhere.
fn time_copies<const W: u32, R: CpuClock + AllocGlobal>(
    rt: &R,
    table: &mut RadixTable<W>,
    view: &mut RouteView<W>,
    prefixes: &[Prefix<W>],
) -> Result<Duration, Fault>
    requires { IsRadixOf view.old table.old }
    ensures { OnOk result (IsRadixOf view.new table.new) }
{
    let alloc = rt.alloc();
    table.settle(alloc)?;
    let mut least = Duration::MAX;
    for round in 0..COPIES {
        let first = 3 * round as usize;
        if first + 3 > prefixes.len() {
            break;
        }
        let three = &prefixes[first..first + 3];
        change_rows(alloc, table, view, three, BEFORE_COPY)?;
        let start = cpu_time(rt)?;
        table.settle(alloc)?;
        let _copy = table.copy(alloc)?;
        least = least.min(cpu_time(rt)?.saturating_sub(start));
    }
    Ok(least)
}
