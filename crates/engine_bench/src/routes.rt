//! Drawn routes in a view, and where their ranges start.
ghost use Rattle.std.specs.Prelude.{◌≡◌, ◌+◌, ◌-◌, ◌^◌, ◌<◌, ◌≤◌, IfOk, OnOk, length};
ghost use Rattle.module_trait.specs.Rows.{AreRows, HaveIndexes};
ghost use Rattle.module_trait.specs.Starts.{starts_of, with_end_of};
ghost use Rattle.std.specs.BTreeSet.{insert_key};
ghost use Rattle.std.specs.Option.{SomeIff};
ghost use Rattle.std.specs.Ordering.{nat_cmp};

use crate::OutOfMemory;
use crate::family::draw_route;
use bench_kit::Draws;
use module_trait::RouteView;
use prefix_width::{Addr, Prefix};
use std::alloc::Global;
use std::collections::BTreeSet;

/// Distinct routes.
#[derive(Drop)]
pub(crate) struct Routes<const W: u32> {
    /// Their prefixes in the order in which they are drawn.
    pub(crate) prefixes: Vec<Prefix<W>>,
    /// The rows, ascending.
    pub(crate) rows: Vec<(Prefix<W>, u16)>,
}

/// Drawn routes as a view of their rows, with their prefixes in the order in which they are drawn.
#[derive(Drop)]
pub(crate) struct Drawing<const W: u32> {
    /// The prefixes.
    pub(crate) prefixes: Vec<Prefix<W>>,
    /// The rows.
    pub(crate) view: RouteView<W>,
}

/// Draws so many distinct routes. A prefix that is there already is left out, so there may be
/// fewer in the end where there are hardly as many prefixes.
pub(crate) fn draw_view<const W: u32>(
    alloc: Global,
    count: usize,
) -> Result<Drawing<W>, OutOfMemory>
    requires { (1 ≤ W) × (W ≤ 128) }
    ensures { IfOk result (λ drawing. HaveIndexes drawing.view) }
{
    let mut draws = Draws::new(1);
    let mut prefixes = Vec::new(alloc);
    let mut view = RouteView::new(alloc);
    for _ in 0..count.saturating_mul(64) {
        if prefixes.len() >= count {
            break;
        }
        let drawn = draw_route::<W>(&mut draws);
        if let Some(prefix) = prefix_of(drawn.value, drawn.len) {
            add(&mut prefixes, &mut view, prefix, drawn.index)?;
        }
    }
    Ok(Drawing { prefixes, view })
}

/// Draws so many distinct routes, as [`draw_view`] does.
pub(crate) fn draw_routes<const W: u32>(
    alloc: Global,
    count: usize,
) -> Result<Routes<W>, OutOfMemory>
    requires { (1 ≤ W) × (W ≤ 128) }
    ensures { IfOk result (λ routes. AreRows routes.rows.items) }
{
    let Drawing { prefixes, view } = draw_view(alloc, count)?;
    let rows = view.rows(alloc)?;
    Ok(Routes { prefixes, rows })
}

/// The prefix of this length that contains the address. `None` where either is out of range.
fn prefix_of<const W: u32>(value: u128, len: u8) -> Option<Prefix<W>>
    requires { (1 ≤ W) × (W ≤ 128) }
{
    Prefix::masked(Addr::new(value)?, len)
}

/// Adds a route, unless its prefix is there already.
fn add<const W: u32>(
    prefixes: &mut Vec<Prefix<W>>,
    view: &mut RouteView<W>,
    prefix: Prefix<W>,
    index: u16,
) -> Result<(), OutOfMemory>
    requires indexes { HaveIndexes view.old }
    requires index { 1 ≤ index }
    ensures { OnOk result (HaveIndexes view.new) }
{
    if view.get(&prefix).is_none() {
        prefixes.push(prefix)?;
        view.set(prefix, Some(index))?;
    }
    Ok(())
}

/// How many starts the rows have: as many cells a range table makes of them.
pub(crate) fn count_starts<const W: u32>(
    alloc: Global,
    rows: &[(Prefix<W>, u16)],
) -> Result<usize, OutOfMemory>
    ensures { IfOk result (λ count. count ≡ length (starts_of W rows.now)) }
{
    let mut starts = BTreeSet::new(alloc);
    starts.insert(0)?;
    for row in rows {
        add_starts(&mut starts, &row.0)?;
    }
    Ok(starts.len())
}

/// Adds the first address of a prefix and the one behind its last.
fn add_starts<const W: u32>(
    starts: &mut BTreeSet<u128>,
    prefix: &Prefix<W>,
) -> Result<(), OutOfMemory>
    ensures { OnOk result (starts.new.keys ≡ with_end_of W (insert_key nat_cmp starts.old.keys prefix.now.base) prefix.now) }
{
    let _len = prefix.len();
    starts.insert(prefix.first().value())?;
    if let Some(end) = end_of(prefix) {
        starts.insert(end)?;
    }
    Ok(())
}

/// The address behind the last one. `None` where the last one is the greatest.
fn end_of<const W: u32>(prefix: &Prefix<W>) -> Option<u128>
    ensures { SomeIff result (prefix.now.base + 2 ^ (W - prefix.now.len) < 2 ^ W) (prefix.now.base + 2 ^ (W - prefix.now.len)) }
{
    let _len = prefix.len();
    let last = prefix.last().value();
    if last < Addr::<W>::greatest().value() {
        Some(last + 1)
    } else {
        None
    }
}

/// How many nodes a trie of the rows has: one for each row, and one for each prefix without a row
/// that is the longest one over two neighbours.
pub(crate) fn count_nodes<const W: u32>(
    alloc: Global,
    rows: &[(Prefix<W>, u16)],
) -> Result<usize, OutOfMemory> {
    let mut prefixes = BTreeSet::new(alloc);
    for i in 0..rows.len() {
        prefixes.insert(rows[i].0)?;
        if i > 0 {
            let len = rows[i].0.common_len(&rows[i - 1].0);
            if let Some(shared) = Prefix::masked(rows[i].0.addr(), len) {
                prefixes.insert(shared)?;
            }
        }
    }
    Ok(prefixes.len())
}
