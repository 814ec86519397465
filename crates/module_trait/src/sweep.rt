//! One sweep over rows gives the cells of all addresses.
ghost use Rattle.std.specs.Prelude.{◌≡◌, ℕ, ◌-◌, ◌^◌, ◌<◌, ◌≤◌, [], ◌∷◌, ◌++◌, List, All, IfOk, OnOk, vec_len};
ghost use Rattle.std.specs.Map.{keys_of};
ghost use Rattle.prefix_width.specs.Prefix.{Block};
ghost use Rattle.module_trait.specs.Rows.{AreBlocks, IsAscending};
ghost use Rattle.module_trait.specs.Starts.{AreRight, starts_of};
ghost use Rattle.module_trait.specs.Sweep.{IsSweep, ComesAfter, IsPast, begun, with_end};

use crate::OutOfMemory;
use prefix_width::{Addr, Prefix};
use std::alloc::Global;
use std::collections::VecDeque;

/// The cells of rows, in one sweep over them: a cell is a start, and the index of the longest row
/// from there on, 0 for none. A row's two starts are placed when the sweep comes to its first
/// address, and each cell is passed once, so the time grows as the number of rows. The rows ascend
/// by prefix.
pub fn cells_of<const W: u32>(
    alloc: Global,
    rows: &[(Prefix<W>, u16)],
) -> Result<Vec<(u128, u16)>, OutOfMemory>
    requires { IsAscending rows.now }
    ensures blocks { OnOk result (AreBlocks W rows.now) }
    ensures starts { IfOk result (λ cells. keys_of cells.items ≡ starts_of W rows.now) }
    ensures right { IfOk result (λ cells. AreRight W rows.now cells.items) }
{
    let mut cells = Vec::new(alloc);
    cells.push((0, 0))?;
    let mut ahead = VecDeque::new(alloc);
    for row in rows {
        place(&mut cells, &mut ahead, row)?;
    }
    pass_all(&mut cells, &mut ahead)?;
    Ok(cells)
}

/// Moves the sweep on to a row's first address, and places the row's two starts. `cells` are those
/// up to the sweep's address, and `ahead` those past it, the nearest first.
fn place<const W: u32>(
    cells: &mut Vec<(u128, u16)>,
    ahead: &mut VecDeque<(u128, u16)>,
    row: &(Prefix<W>, u16),
) -> Result<(), OutOfMemory>
    requires { 0 < vec_len cells.old }
    ensures some { OnOk result (0 < vec_len cells.new) }

    // Where these were the cells of the rows before, they are now those of the rows with this one.
    ensures sweep { OnOk result ((front : List (Block × ℕ)) → IsSweep W front cells.old.items ahead.old.items → ComesAfter front row.now → IsSweep W (front ++ row.now ∷ []) cells.new.items ahead.new.items) }
{
    let prefix = &row.0;
    let _len = prefix.len();
    let base = prefix.first().value();
    pass(cells, ahead, base)?;
    let outer = begin(cells, base, row.1)?;
    let last = prefix.last().value();
    if last < Addr::<W>::greatest().value() {
        end_at(ahead, last + 1, outer)?;
    }
    Ok(())
}

/// Moves the sweep on to an address: the cells up to it are no longer ahead.
fn pass(
    cells: &mut Vec<(u128, u16)>,
    ahead: &mut VecDeque<(u128, u16)>,
    base: u128,
) -> Result<(), OutOfMemory>
    ensures whole { OnOk result (cells.new.items ++ ahead.new.items ≡ cells.old.items ++ ahead.old.items) }
    ensures below { OnOk result (All (λ c. c.0 ≤ base) cells.old.items → All (λ c. c.0 ≤ base) cells.new.items) }
    ensures past { OnOk result (IsPast base ahead.new.items) }
    ensures len { OnOk result (vec_len cells.old ≤ vec_len cells.new) }
{
    while let Some(next) = ahead.front().copied() {
        if next.0 > base {
            break;
        }
        cells.push(next)?;
        ahead.pop_front();
    }
    Ok(())
}

/// Moves the sweep on past every cell.
fn pass_all(
    cells: &mut Vec<(u128, u16)>,
    ahead: &mut VecDeque<(u128, u16)>,
) -> Result<(), OutOfMemory>
    ensures { OnOk result (cells.new.items ≡ cells.old.items ++ ahead.old.items) }
{
    while let Some(cell) = ahead.pop_front() {
        cells.push(cell)?;
    }
    Ok(())
}

/// Lets a row begin at the sweep's address: its cell comes last, in place of one that is there. The
/// answer is the index up to there.
fn begin(cells: &mut Vec<(u128, u16)>, base: u128, index: u16) -> Result<u16, OutOfMemory>
    requires { 0 < vec_len cells.old }
    ensures cells { (most : List (ℕ × ℕ)) (last : ℕ × ℕ) → cells.old.items ≡ most ++ last ∷ [] → OnOk result (cells.new.items ≡ begun most last base index) }
    ensures outer { (most : List (ℕ × ℕ)) (last : ℕ × ℕ) → cells.old.items ≡ most ++ last ∷ [] → IfOk result (λ outer. outer ≡ last.1) }
    ensures some { OnOk result (0 < vec_len cells.new) }
{
    let last = cells[cells.len() - 1];
    if last.0 == base {
        cells.pop();
    }
    cells.push((base, index))?;
    Ok(last.1)
}

/// Lets a row end before an address: the outer index comes back there, unless a cell is there.
fn end_at(ahead: &mut VecDeque<(u128, u16)>, end: u128, outer: u16) -> Result<(), OutOfMemory>
    ensures { OnOk result (ahead.new.items ≡ with_end ahead.old.items end outer) }
{
    match ahead.front() {
        Some(next) if next.0 == end => {}
        _ => ahead.push_front((end, outer))?,
    }
    Ok(())
}
