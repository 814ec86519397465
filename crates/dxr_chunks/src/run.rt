//! The fragments of one chunk, from the cells of all rows.
ghost use Rattle.std.specs.Prelude.{◌≡◌, ◌≢◌, ℕ, ◌+◌, ◌*◌, ◌^◌, ◌<◌, ◌∷◌, [], ◌++◌, Some, IfOk, OnOk, slice_get};
ghost use Rattle.std.specs.Map.{keys_of};
ghost use Rattle.module_trait.specs.Starts.{IsUp};
ghost use Rattle.dxr_chunks.specs.Making.{ArePassed, AddsRun};

use crate::OutOfMemory;

/// The first address of a chunk.
pub(crate) fn base_of(chunk: u32) -> u128
    ensures { result ≡ chunk * 2 ^ 16 }
{
    u128::from(chunk) * 65_536
}

/// How many cells start at or below the first address of a chunk, below which so many start. The
/// cells ascend by their starts, of which the first is 0.
pub fn pass_border(cells: &[(u128, u16)], passed: usize, chunk: u32) -> usize
    requires first { slice_get (keys_of cells.now) 0 ≡ Some 0 }
    requires ascending { IsUp (keys_of cells.now) }
    requires passed { ArePassed cells.now (chunk * 2 ^ 16) passed }
    ensures some { 0 < result }
    ensures passed { ArePassed cells.now (chunk * 2 ^ 16 + 1) result }
{
    let base = base_of(chunk);
    if passed == cells.len() {
        return passed;
    }
    if cells[passed].0 == base {
        passed + 1
    } else {
        passed
    }
}

/// Adds the run of a chunk, at or below whose first address so many cells start. The answer is how
/// many start below the addresses of the chunk behind it. Neighbours with one index are merged. The
/// cells ascend by their starts, and one starts at or below the chunk at least.
pub fn add_run(
    fragments: &mut Vec<(u16, u16)>,
    cells: &[(u128, u16)],
    begun: usize,
    chunk: u32,
) -> Result<usize, OutOfMemory>
    requires ascending { IsUp (keys_of cells.now) }
    requires chunk { chunk < 2 ^ 16 }
    requires some { 0 < begun }
    requires begun { ArePassed cells.now (chunk * 2 ^ 16 + 1) begun }
    ensures passed { IfOk result (ArePassed cells.now ((chunk + 1) * 2 ^ 16)) }
    ensures run { OnOk result (AddsRun cells.now chunk fragments.old.items fragments.new.items) }
{
    let base = base_of(chunk);
    let mut index = cells[begun - 1].1;
    fragments.push((0, index))?;
    let mut passed = begun;
    while passed < cells.len() {
        let cell = cells[passed];
        let start = cell.0 - base;
        if start >= 65_536 {
            break;
        }
        push_changed(fragments, (start as u16, cell.1), index)?;
        index = cell.1;
        passed += 1;
    }
    Ok(passed)
}

/// Adds a fragment, unless it has the index before it.
fn push_changed(
    fragments: &mut Vec<(u16, u16)>,
    fragment: (u16, u16),
    before: u16,
) -> Result<(), OutOfMemory>
    ensures other { fragment.1 ≢ before → OnOk result (fragments.new.items ≡ fragments.old.items ++ fragment ∷ []) }
    ensures same { fragment.1 ≡ before → OnOk result (fragments.new.items ≡ fragments.old.items) }
{
    if fragment.1 != before {
        fragments.push(fragment)?;
    }
    Ok(())
}
