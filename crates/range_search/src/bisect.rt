//! The search among the starts of ranges.
ghost use Rattle.std.specs.Prelude.{◌≡◌, ℕ, ◌+◌, ◌-◌, ◌^◌, ◌<◌, ◌≤◌, if◌then◌else◌, length};
ghost use Rattle.range_search.specs.Bisect.{IsLast};

use crate::start::Start;
use module_trait::{CellReads, Cells, Steps};
use std::sync::ledger::Ledger;

/// The index of the last of ascending cells that begins at or before an address, in as many steps
/// as the number of cells has binary digits.
pub(crate) fn last_index<S: Start, L: Ledger>(
    cells: &Cells<(S, u16)>,
    value: S,
    steps: &mut Steps<L>,
) -> u16
    ensures last { IsLast S.number cells.now (S.number value) result }
    ensures cost { (bits : ℕ) → length cells.now < 2 ^ bits → steps.new ≤ steps.old + bits }
{
    match value.next() {
        Some(limit) => index_before(cells, limit, steps),
        None => end_index(cells, value, steps),
    }
}

/// The same for a limit, which is behind the address.
// What is left is half of what was left on either side, so that the number of turns hangs on no
// address, and the index is kept beside it, which spares a read at the end.
fn index_before<S: Start, L: Ledger>(cells: &Cells<(S, u16)>, limit: S, steps: &mut Steps<L>) -> u16
    requires { 0 < S.number limit }
    ensures last { IsLast S.number cells.now (S.number limit - 1) result }
    ensures cost { (bits : ℕ) → length cells.now < 2 ^ bits → steps.new ≤ steps.old + bits }
{
    let mut index = 0u16;
    let mut low = 0;
    let mut size = cells.len();
    while size > 0 {
        let half = size / 2;
        let next = low + (size - half);
        let cell = *cells.at(next - 1, steps);
        let begun = cell.0.is_before(limit);
        index = pick_index(begun, cell.1, index);
        low = pick_place(begun, next, low);
        size = half;
    }
    index
}

/// The same for the last of all addresses, which no cell is behind.
fn end_index<S: Start, L: Ledger>(cells: &Cells<(S, u16)>, value: S, steps: &mut Steps<L>) -> u16
    requires { S.number value + 1 ≡ S.count }
    ensures last { IsLast S.number cells.now (S.number value) result }
    ensures cost { (bits : ℕ) → length cells.now < 2 ^ bits → steps.new ≤ steps.old + bits }
{
    let len = cells.len();
    if len == 0 {
        return 0;
    }
    // Taken apart at once: with a copy of the cell here the compiler makes jumps of the choices in
    // the loop above.
    let (start, index) = *cells.at(len - 1, steps);
    // It tells that the start is no greater than the last address.
    let _before = start.is_before(value);
    index
}

// Looked up in place of chosen, which would be compiled to a jump that hangs on the address.
fn pick_index(first: bool, a: u16, b: u16) -> u16
    ensures { result ≡ (if first then a else b) }
{
    [b, a][first as usize]
}

// The same for places.
fn pick_place(first: bool, a: usize, b: usize) -> usize
    ensures { result ≡ (if first then a else b) }
{
    [b, a][first as usize]
}
