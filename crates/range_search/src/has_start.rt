//! Whether a cell begins at an address.
ghost use Rattle.std.specs.Prelude.{◌≡◌, ◌<◌, ◌↔◌, IsTrue, IfOk};
ghost use Rattle.std.specs.Map.{keys_of};
ghost use Rattle.module_trait.specs.Starts.{IsIn, IsUp};

use crate::OutOfMemory;
use crate::start_cells::StartCells;
use module_trait::Steps;
use std::alloc::Global;
use std::marker::Brand;
use std::sync::ledger::{Blank, Ledger};

/// Whether one of the cells, which ascend, begins at an address, with a counter of its own.
pub(crate) fn has_start(alloc: Global, cells: &StartCells, value: u128) -> Result<bool, OutOfMemory>
    requires { IsUp (keys_of cells.now) }
    ensures { IfOk result (λ has. IsTrue has ↔ IsIn value (keys_of cells.now)) }
{
    has_start_counted::<Brand>(alloc, cells, value, Blank::new(1))
}

/// [`has_start`] with the counter of a ledger, which the blank is for.
fn has_start_counted<L: Ledger>(
    alloc: Global,
    cells: &StartCells,
    value: u128,
    blank: Blank,
) -> Result<bool, OutOfMemory>
    requires name { blank.name ≡ L.name }
    requires parts { blank.parts ≡ L.parts }
    requires some { 0 < blank.parts }
    requires up { IsUp (keys_of cells.now) }
    ensures { IfOk result (λ has. IsTrue has ↔ IsIn value (keys_of cells.now)) }
{
    let mut steps: Steps<L> = Steps::new(alloc, blank)?;
    Ok(begins_at(cells, value, &mut steps))
}

/// Whether one of the cells begins at an address, by bisection.
fn begins_at<L: Ledger>(cells: &StartCells, value: u128, steps: &mut Steps<L>) -> bool
    requires { IsUp (keys_of cells.now) }
    ensures { IsTrue result ↔ IsIn value (keys_of cells.now) }
{
    let mut low = 0;
    let mut high = cells.len();
    while low < high {
        let middle = low + (high - low) / 2;
        let (start, _index) = cells.at(middle, steps);
        if start == value {
            return true;
        }
        if start < value {
            low = middle + 1;
        } else {
            high = middle;
        }
    }
    false
}
