//! Whether two lists have the same starts.
ghost use Rattle.std.specs.Prelude.{◌≡◌, ◌<◌, ◌↔◌, IsTrue, IfOk, length};
ghost use Rattle.std.specs.Map.{keys_of};

use crate::OutOfMemory;
use crate::start_cells::StartCells;
use module_trait::Steps;
use std::alloc::Global;
use std::marker::Brand;
use std::sync::ledger::{Blank, Ledger};

/// Whether the cells have the starts of others, with a counter of its own.
pub(crate) fn same_starts(
    alloc: Global,
    cells: &StartCells,
    others: &[(u128, u16)],
) -> Result<bool, OutOfMemory>
    ensures { IfOk result (λ same. IsTrue same ↔ (keys_of cells.now ≡ keys_of others.now)) }
{
    same_starts_counted::<Brand>(alloc, cells, others, Blank::new(1))
}

/// [`same_starts`] with the counter of a ledger, which the blank is for.
fn same_starts_counted<L: Ledger>(
    alloc: Global,
    cells: &StartCells,
    others: &[(u128, u16)],
    blank: Blank,
) -> Result<bool, OutOfMemory>
    requires name { blank.name ≡ L.name }
    requires parts { blank.parts ≡ L.parts }
    requires some { 0 < blank.parts }
    ensures { IfOk result (λ same. IsTrue same ↔ (keys_of cells.now ≡ keys_of others.now)) }
{
    let mut steps: Steps<L> = Steps::new(alloc, blank)?;
    if cells.len() != others.len() {
        return Ok(false);
    }
    Ok(starts_agree(cells, others, &mut steps))
}

/// Whether as many cells have the same starts.
fn starts_agree<L: Ledger>(cells: &StartCells, others: &[(u128, u16)], steps: &mut Steps<L>) -> bool
    requires { length cells.now ≡ length others.now }
    ensures { IsTrue result ↔ (keys_of cells.now ≡ keys_of others.now) }
{
    for i in 0..others.len() {
        if cells.at(i, steps).0 != others[i].0 {
            return false;
        }
    }
    true
}
