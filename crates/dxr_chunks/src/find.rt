ghost use Rattle.std.specs.Prelude.{◌≡◌, ℕ, ◌+◌, ◌*◌, ◌^◌, ◌<◌, ◌≤◌};
ghost use Rattle.dxr_chunks.specs.Chunk.{AreLinked, IsChunk};

use crate::bisect::index_in_run;
use crate::cell::{Cell, PackedCell};
use crate::made::Run;
use module_trait::{CellReads, NodeReads, Steps};
use std::sync::ledger::Ledger;

/// The index at an offset in a chunk, 0 for none: one read of its cell, one of the run at a key,
/// and at most 17 of fragments.
pub(crate) fn index_in_chunk<C: NodeReads<Node = PackedCell>, R: NodeReads<Node = Run>, L: Ledger>(
    cells: &C,
    runs: &R,
    chunk: usize,
    offset: u16,
    steps: &mut Steps<L>,
) -> u16
    requires chunk { chunk < 2 ^ 16 }
    requires linked { AreLinked (C.node cells.now) (R.node runs.now) }
    ensures answer { (answer : ℕ → ℕ) → IsChunk answer chunk (C.node cells.now chunk) (R.node runs.now) → result ≡ answer (chunk * 2 ^ 16 + offset) }
    ensures cost { (answer : ℕ → ℕ) → IsChunk answer chunk (C.node cells.now chunk) (R.node runs.now) → steps.new ≤ steps.old + 19 }
{
    match cells.at(chunk, steps).cell() {
        Cell::Direct(index) => index,
        Cell::Run(key) => {
            let run = runs.at(key, steps);
            index_in_run(run, 0, run.len(), offset, steps)
        }
    }
}
