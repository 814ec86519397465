//! The starts of ranges with their indexes.
ghost use Rattle.std.specs.Prelude.{◌≡◌, ℕ, ◌+◌, ◌^◌, ◌<◌, ◌≤◌, Some, IfOk, IfSome, length, slice_get};
ghost use Rattle.range_search.specs.Bisect.{IsLast};

use crate::{OutOfMemory, bisect};
use module_trait::{CellReads, Cells, Steps};
use std::alloc::Global;
use std::marker::Model;
use std::sync::ledger::Ledger;

/// Cells of starts and indexes, which ascend. A cell takes 8 bytes where every start fits 32 bits,
/// as those of IPv4 do, else 32.
#[derive(Drop)]
pub(crate) struct StartCells {
    narrow: Cells<(u32, u16)>,
    // The cells where `narrow` has none.
    wide: Cells<(u128, u16)>,
}

impl Model for StartCells {
    ghost use Rattle.std.specs.Prelude.{List, ℕ};
    ghost use Rattle.range_search.specs.Bisect.{either_cells};

    ghost Value = { List (ℕ × ℕ) };

    ghost view = { λ c. either_cells c.narrow c.wide };
}

#[tactic(auto, using(crate::proofs::EitherLemmas::either_wide, crate::proofs::EitherLemmas::either_narrow))]
impl StartCells {
    /// The cells of a vector.
    pub(crate) fn new(alloc: Global, cells: Vec<(u128, u16)>) -> Result<StartCells, OutOfMemory>
        ensures { IfOk result (λ made. made ≡ cells.items) }
    {
        match narrowed(alloc, cells.as_slice())? {
            Some(narrow) => Ok(StartCells {
                narrow: Cells::new(narrow),
                wide: Cells::new(Vec::new(alloc)),
            }),
            None => Ok(StartCells {
                narrow: Cells::new(Vec::new(alloc)),
                wide: Cells::new(cells),
            }),
        }
    }

    /// How many cells there are.
    pub(crate) fn len(&self) -> usize
        ensures { result ≡ length self.now }
    {
        let len = self.narrow.len();
        if len == 0 { self.wide.len() } else { len }
    }

    /// The cell at a place, in one step.
    pub(crate) fn at<L: Ledger>(&self, i: usize, steps: &mut Steps<L>) -> (u128, u16)
        requires { i < length self.now }
        ensures value { slice_get self.now i ≡ Some result }
        ensures cost { steps.new ≡ steps.old + 1 }
    {
        if self.narrow.len() == 0 {
            return *self.wide.at(i, steps);
        }
        let cell = *self.narrow.at(i, steps);
        (u128::from(cell.0), cell.1)
    }

    /// The same cells.
    pub(crate) fn copy(&self, alloc: Global) -> Result<StartCells, OutOfMemory>
        ensures { IfOk result (λ copy. copy ≡ self.now) }
    {
        Ok(StartCells {
            narrow: self.narrow.copy(alloc)?,
            wide: self.wide.copy(alloc)?,
        })
    }

    /// The index of the last cell that begins at or before an address, in as many steps as the
    /// number of cells has binary digits.
    pub(crate) fn last_index<L: Ledger>(&self, value: u128, steps: &mut Steps<L>) -> u16
        ensures last { IsLast (λ (n : ℕ). n) self.now value result }
        ensures cost { (bits : ℕ) → length self.now < 2 ^ bits → steps.new ≤ steps.old + bits }
    {
        let len = self.narrow.len();
        if len == 0 {
            return bisect::last_index(&self.wide, value, steps);
        }
        match u32::try_from(value) {
            Ok(value) => bisect::last_index(&self.narrow, value, steps),
            // Every cell begins before it.
            Err(_) => {
                let (_start, index) = *self.narrow.at(len - 1, steps);
                index
            }
        }
    }
}

/// The cells with starts of 32 bits, `None` where one does not fit.
fn narrowed(alloc: Global, cells: &[(u128, u16)]) -> Result<Option<Vec<(u32, u16)>>, OutOfMemory>
    ensures { IfOk result (λ made. IfSome made (λ narrow. narrow.items ≡ cells.now)) }
{
    let mut narrow = Vec::with_capacity(alloc, cells.len())?;
    for cell in cells {
        match u32::try_from(cell.0) {
            Ok(start) => narrow.push((start, cell.1))?,
            Err(_) => return Ok(None),
        }
    }
    Ok(Some(narrow))
}
