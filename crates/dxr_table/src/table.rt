//! The table of direct cells and fragments, built as a whole.
ghost use Rattle.std.specs.Prelude.{◌≡◌, ℕ, ◌+◌, ◌*◌, ◌^◌, ◌<◌, ◌≤◌, Some, IfOk, length, min, slice_get};
ghost use Rattle.std.specs.Map.{keys_of};
ghost use Rattle.module_trait.specs.Starts.{IsUp};
ghost use Rattle.dxr_table.specs.Dxr.{AreRightChunks, IsDxrOf};
ghost use Rattle.dxr_table.specs.Making.{AnswersAs};

use crate::OutOfMemory;
use crate::making::chunks_of;
use dxr_chunks::index_in_run;
use module_trait::{CellReads, Cells, Edit, Module, RouteView, Steps, Verdict, cells_of};
use prefix_width::{Addr, Prefix};
use std::alloc::Global;
use std::marker::Model;
use std::sync::ledger::Ledger;

/// The most steps that a lookup takes: one for each end of a run, and 17 for its fragments.
const BOUND: u64 = 19;

/// Direct cells and fragments. A chunk is the addresses with one value of the 16 leading bits: its
/// cell has either an index, 0 for none, or a run of fragments, and a fragment has the index from
/// its 16-bit start on.
#[derive(Drop)]
pub struct DxrTable {
    // The place of each chunk's first fragment, and behind them the number of fragments.
    firsts: Cells<u32>,
    // The index of each chunk that has no fragment.
    indexes: Cells<u16>,
    // The fragments of all chunks, one run behind the other.
    fragments: Cells<(u16, u16)>,
}

impl Model for DxrTable {
    ghost use Rattle.std.specs.Prelude.{◌^◌};
    ghost use Rattle.dxr_table.specs.Dxr.{Dxr, HasChunks};

    ghost Value = { Dxr };

    ghost view = { λ t. record { firsts = t.firsts; indexes = t.indexes; fragments = t.fragments } };

    ghost invariant = { λ t. HasChunks (2 ^ 16) (record { firsts = t.firsts; indexes = t.indexes; fragments = t.fragments }) };
}

impl DxrTable {
    /// The table that answers as cells do.
    fn of_cells(alloc: Global, cells: &[(u128, u16)]) -> Result<DxrTable, OutOfMemory>
        requires first { slice_get (keys_of cells.now) 0 ≡ Some 0 }
        requires ascending { IsUp (keys_of cells.now) }
        ensures { IfOk result (AnswersAs cells.now) }
    {
        let chunks = chunks_of(alloc, cells)?;
        Ok(DxrTable {
            firsts: Cells::new(chunks.firsts),
            indexes: Cells::new(chunks.indexes),
            fragments: Cells::new(chunks.fragments),
        })
    }

    /// How many bytes its cells and fragments take, at most as many as a number can tell.
    pub fn bytes(&self) -> usize
        ensures { result ≡ min (4 * length self.now.firsts + 2 * length self.now.indexes + 4 * length self.now.fragments) usize.MAX }
    {
        let cells = 4 * self.firsts.len() + 2 * self.indexes.len();
        self.fragments.len().saturating_mul(4).saturating_add(cells)
    }

    /// The index at an offset in a chunk, 0 for none.
    fn index_at<L: Ledger>(&self, chunk: usize, offset: u16, steps: &mut Steps<L>) -> u16
        requires { chunk < 2 ^ 16 }
        ensures answer { (answer : ℕ → ℕ) → AreRightChunks answer (2 ^ 16) self.now → result ≡ answer (chunk * 2 ^ 16 + offset) }
        ensures cost { (answer : ℕ → ℕ) → AreRightChunks answer (2 ^ 16) self.now → steps.new ≤ steps.old + 19 }
    {
        let first = *self.firsts.at(chunk, steps) as usize;
        let end = *self.firsts.at(chunk + 1, steps) as usize;
        if first == end {
            return *self.indexes.at(chunk, steps);
        }
        index_in_run(&self.fragments, first, end, offset, steps)
    }
}

impl Module<32> for DxrTable {
    ghost use Rattle.module_trait.specs.declared.edit.Verdict.TheVariants.{Rebuild};
    ghost use Rattle.prefix_width.specs.Choice.{preference as preferred};
    ghost use Rattle.prefix_width.specs.declared.module.Kind.TheVariants.{Dxr};

    ghost stands = { λ table rows. IsDxrOf rows table };

    ghost is_bound = { λ _ n. n ≡ 19 };

    ghost is_verdict = { λ _ _ verdict. verdict ≡ Rebuild };

    ghost is_batch_verdict = { λ _ _ _ verdict. verdict ≡ Rebuild };

    ghost preference = { λ routes. preferred 32 routes Dxr };

    fn empty(alloc: Global) -> Result<Self, OutOfMemory> {
        let table = DxrTable::of_cells(alloc, &[(0, 0)])?;
        Ok(table)
    }

    fn load(&mut self, alloc: Global, rows: &[(Prefix<32>, u16)]) -> Result<(), OutOfMemory> {
        let cells = cells_of(alloc, rows)?;
        *self = DxrTable::of_cells(alloc, cells.as_slice())?;
        Ok(())
    }

    fn find<L: Ledger>(&self, addr: &Addr<32>, steps: &mut Steps<L>) -> Option<u16> {
        let value = addr.value();
        let index = self.index_at((value >> 16) as usize, (value % 65_536) as u16, steps);
        if index == 0 { None } else { Some(index) }
    }

    fn bound(&self) -> u64 {
        BOUND
    }

    fn change(
        &mut self,
        alloc: Global,
        edit: &Edit<32>,
        view: &RouteView<32>,
    ) -> Result<Verdict, OutOfMemory> {
        // Built whole, it takes no edit.
        Ok(Verdict::Rebuild)
    }

    fn change_batch(
        &mut self,
        alloc: Global,
        edits: &[Edit<32>],
        view: &RouteView<32>,
    ) -> Result<Verdict, OutOfMemory> {
        Ok(Verdict::Rebuild)
    }

    fn copy(&self, alloc: Global) -> Result<Self, OutOfMemory> {
        Ok(DxrTable {
            firsts: self.firsts.copy(alloc)?,
            indexes: self.indexes.copy(alloc)?,
            fragments: self.fragments.copy(alloc)?,
        })
    }

    fn pref(routes: u32) -> u8 {
        if routes < 1_000 { 150 } else { 240 }
    }
}
