//! The search in a chunk's fragments.
ghost use Rattle.std.specs.Prelude.{◌≡◌, ℕ, ◌+◌, ◌-◌, ◌^◌, ◌<◌, ◌≤◌, Some, length, slice_get, slice_range};
ghost use Rattle.std.specs.Map.{keys_of};
ghost use Rattle.dxr_chunks.specs.Fragments.{IsAlternating, index_in};

use module_trait::{CellReads, Steps};
use std::sync::ledger::Ledger;

/// Half a run forward where the fragment there starts at or below the offset, else the same place.
/// This is computed, since a branch on it would be mispredicted every other time.
fn forward_if_below(low: usize, half: usize, start: u16, offset: u16) -> usize
    requires { low + half ≤ usize.MAX }
    ensures below { start ≤ offset → result ≡ low + half }
    ensures above { offset < start → result ≡ low }
{
    let below = (u32::from(offset) + 65_536 - u32::from(start)) / 65_536;
    low + half * below as usize
}

/// The index of the last fragment from one place up to another that starts at or below an offset.
/// `first` is below `end`, which is at most the number of fragments.
pub fn index_in_run<C: CellReads<Cell = (u16, u16)>, L: Ledger>(
    fragments: &C,
    first: usize,
    end: usize,
    offset: u16,
    steps: &mut Steps<L>,
) -> u16
    requires some { first < end }
    requires within { end ≤ length (C.cells fragments.now) }
    ensures answer { IsAlternating (slice_range (C.cells fragments.now) first end) → slice_get (keys_of (slice_range (C.cells fragments.now) first end)) 0 ≡ Some 0 → result ≡ index_in (slice_range (C.cells fragments.now) first end) offset }
    ensures cost { (bits : ℕ) → end - first ≤ 2 ^ bits → steps.new ≤ steps.old + bits + 1 }
{
    let mut low = first;
    let mut size = end - first;
    while size > 1 {
        let half = size / 2;
        let start = fragments.at(low + half, steps).0;
        low = forward_if_below(low, half, start, offset);
        size -= half;
    }
    fragments.at(low, steps).1
}
