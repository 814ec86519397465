//! A copy of the table's rows, and the scan.
ghost use Rattle.std.specs.Prelude.{◌≡◌, ◌≤◌, [], length, IfOk, option_copied};
ghost use Rattle.prefix_width.specs.Longest.{longest, longer, only_if_in};
ghost use Rattle.rib_store.specs.Answer.{answer};

use crate::OutOfMemory;
use crate::rib::Rib;
use nhgrp_slots::{Paths, pick};
use prefix_width::{Addr, Nexthop, Prefix};
use std::alloc::Global;
use std::marker::Model;

/// A route: a prefix and its paths.
type Row<const W: u32> = (Prefix<W>, Paths<W>);

/// The rows of a table as they were, seen as that table.
#[derive(Drop)]
pub struct Rows<const W: u32> {
    rows: Vec<Row<W>>,
}

impl<const W: u32> Model for Rows<W> {
    ghost use Rattle.std.specs.Prelude.{length, ◌≤◌};
    ghost use Rattle.rib_store.specs.Table.{Table};
    ghost use Rattle.rib_store.specs.Limits.{routes_max};

    ghost Value = { Table };

    ghost view = { λ r. r.rows.items };

    ghost invariant = { λ r. length r.rows.items ≤ routes_max };
}

impl<const W: u32> Rows<W> {
    /// The empty table.
    pub fn new(alloc: Global) -> Rows<W>
        ensures { result ≡ [] }
    {
        Rows {
            rows: Vec::new(alloc),
        }
    }

    /// How many rows there are.
    pub fn len(&self) -> u32
        ensures { result ≡ length self.now }
    {
        self.rows.len() as u32
    }

    /// The nexthop of a flow to an address, by looking at every row: the plain program of the
    /// definition. It takes no memory.
    pub fn answer(&self, addr: &Addr<W>, flow: u32) -> Option<Nexthop<W>>
        ensures { result ≡ answer W self.now addr.now flow }
    {
        let (_, paths) = longest_row(&self.rows, addr)?;
        pick(paths, flow)
    }
}

impl<const W: u32, const LIVE: u32> Rib<W, LIVE> {
    /// A copy of the rows.
    pub fn rows(&self, alloc: Global) -> Result<Rows<W>, OutOfMemory>
        ensures { IfOk result (λ rows. rows ≡ self.now.rows) }
    {
        let _few = self.len();
        let mut rows = Vec::new(alloc);
        for (prefix, paths) in self.iter() {
            rows.push((*prefix, paths.copy(alloc)?))?;
        }
        Ok(Rows { rows })
    }
}

/// The longest row that contains the address.
fn longest_row<'a, const W: u32>(rows: &'a [Row<W>], addr: &Addr<W>) -> Option<&'a Row<W>>
    ensures { option_copied result ≡ longest W rows.now addr.now }
{
    let mut best = None;
    for row in rows {
        best = longer_of(best, row, addr);
    }
    best
}

/// The best row so far, or the next one where it contains the address and is longer.
fn longer_of<'a, const W: u32>(
    best: Option<&'a Row<W>>,
    row: &'a Row<W>,
    addr: &Addr<W>,
) -> Option<&'a Row<W>>
    ensures { option_copied result ≡ longer (option_copied best.entry) (only_if_in W addr.now row.now) }
{
    if !row.0.contains(addr) {
        return best;
    }
    match best {
        Some(other) => {
            if other.0.len() < row.0.len() {
                Some(row)
            } else {
                Some(other)
            }
        }
        None => Some(row),
    }
}
