//! Cells in a row that is read alone.
ghost use Rattle.std.specs.Prelude.{◌≡◌, IfOk};

use crate::OutOfMemory;
use crate::cell_reads::CellReads;
use crate::steps::Steps;
use std::alloc::Global;
use std::marker::Model;
use std::sync::ledger::Ledger;

/// A row of cells, seen as a list, which nothing but a counted read looks into.
#[derive(Drop)]
pub struct Cells<T> {
    cells: Vec<T>,
}

impl<T> Model for Cells<T> {
    ghost use Rattle.std.specs.Prelude.{List};

    ghost Value = { List T };

    ghost view = { λ c. c.cells.items };
}

impl<T> Cells<T> {
    /// The cells of a vector.
    pub fn new(cells: Vec<T>) -> Cells<T>
        ensures { result ≡ cells.items }
    {
        Cells { cells }
    }
}

impl<T> CellReads for Cells<T> {
    type Cell = T;

    ghost cells = { λ row. row };

    fn len(&self) -> usize {
        self.cells.len()
    }

    fn at<L: Ledger>(&self, i: usize, steps: &mut Steps<L>) -> &T {
        steps.tick();
        &self.cells[i]
    }
}

impl<T: Copy> Cells<T> {
    /// The same cells.
    pub fn copy(&self, alloc: Global) -> Result<Cells<T>, OutOfMemory>
        ensures { IfOk result (λ copy. copy ≡ self.now) }
    {
        let cells = Vec::from_slice(alloc, self.cells.as_slice())?;
        Ok(Cells { cells })
    }
}
