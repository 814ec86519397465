//! Answers beside the scan of a version's rows.
ghost use Rattle.std.specs.Prelude.{◌≡◌, ◌++◌, [], IfOk, OnOk};
ghost use Rattle.fib_soak.specs.Rows.{rows_after, scanned, with_row};

use crate::OutOfMemory;
use crate::course::Course;
use crate::rows::{Row, changes_after, hop_of, row_after};
use prefix_width::{Addr, Nexthop, Prefix, longest_match};
use std::alloc::Global;

/// The rows of a course after so many turns.
#[derive(Drop)]
pub(crate) struct Rows {
    turns: u64,
    rows: Vec<(Prefix<32>, Row)>,
}

/// Puts a row behind others, if there is one.
fn push_row(
    rows: &mut Vec<(Prefix<32>, Row)>,
    prefix: Prefix<32>,
    row: Option<Row>,
) -> Result<(), OutOfMemory>
    ensures { OnOk result (rows.new.items ≡ rows.old.items ++ with_row prefix row []) }
{
    if let Some(row) = row {
        rows.push((prefix, row))?;
    }
    Ok(())
}

impl Rows {
    /// The rows after so many turns.
    pub(crate) fn new(alloc: Global, course: &Course, turns: u64) -> Result<Rows, OutOfMemory>
        ensures turns { IfOk result (λ rows. rows.turns ≡ turns) }
        ensures rows { IfOk result (λ rows. rows.rows.items ≡ rows_after course.now.prefixes.items turns) }
    {
        let count = course.prefixes.len();
        let mut rows = Vec::with_capacity(alloc, count)?;
        for place in 0..count {
            let changes = changes_after(turns, place as u64, count as u64);
            let row = row_after(place as u64, changes);
            push_row(&mut rows, course.prefixes[place], row)?;
        }
        Ok(Rows { turns, rows })
    }

    /// Makes the rows anew where they are of another turn.
    pub(crate) fn follow(
        &mut self,
        alloc: Global,
        course: &Course,
        turns: u64,
    ) -> Result<(), OutOfMemory>
        requires before { self.old.rows.items ≡ rows_after course.now.prefixes.items self.old.turns }
        ensures after { self.new.rows.items ≡ rows_after course.now.prefixes.items self.new.turns }
        ensures turns { OnOk result (self.new.turns ≡ turns) }
    {
        if self.turns != turns {
            *self = Rows::new(alloc, course, turns)?;
        }
        Ok(())
    }

    /// The nexthop of the longest row that contains the address: each row is looked at.
    pub(crate) fn scan(&self, addr: &Addr<32>, flow: u32) -> Option<Nexthop<32>>
        ensures { result ≡ scanned self.now.rows.items addr.now flow }
    {
        match longest_match(&self.rows, addr) {
            Some((_, row)) => Some(hop_of(row, flow)),
            None => None,
        }
    }
}
