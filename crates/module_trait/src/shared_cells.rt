//! A row of cells that its copies share.
ghost use Rattle.std.specs.Prelude.{◌≡◌, IfOk};

use crate::OutOfMemory;
use crate::cell_reads::CellReads;
use crate::steps::Steps;
use std::alloc::Global;
use std::marker::Model;
use std::sync::Arc;
use std::sync::ledger::Ledger;

/// A row of cells that clones share, which nothing but a counted read looks into.
#[derive(Drop)]
pub struct SharedCells<T> {
    cells: Arc<Vec<T>>,
}

impl<T> Model for SharedCells<T> {
    ghost use Rattle.std.specs.Prelude.{List, Vec};
    ghost use Rattle.std.specs.declared.alloc.Global.{Global};
    ghost use Rattle.std.specs.Arc.{arc_value};

    ghost Value = { List T };

    ghost view = { λ c. (arc_value {X = Vec T Global} c.cells).items };
}

impl<T: Copy + Drop> SharedCells<T> {
    /// A row of these cells.
    pub fn new(alloc: Global, cells: &[T]) -> Result<SharedCells<T>, OutOfMemory>
        ensures { IfOk result (λ row. row ≡ cells.now) }
    {
        let cells = Vec::from_slice(alloc, cells)?;
        Ok(SharedCells {
            cells: Arc::new(alloc, cells)?,
        })
    }
}

impl<T: Drop> Clone for SharedCells<T> {
    ghost use Rattle.std.specs.Prelude.{◌≡◌};

    ghost is_clone = { λ row clone. clone ≡ row };

    fn clone(&self) -> Result<SharedCells<T>, OutOfMemory> {
        Ok(SharedCells {
            cells: Arc::try_clone(&self.cells)?,
        })
    }
}

impl<T> CellReads for SharedCells<T> {
    type Cell = T;

    ghost cells = { λ row. row };

    fn len(&self) -> usize {
        self.cells.len()
    }

    fn at<L: Ledger>(&self, i: usize, steps: &mut Steps<L>) -> &T {
        steps.tick();
        &self.cells[i]
    }
}
