//! The module of sorted ranges.
ghost use Rattle.std.specs.Prelude.{◌≡◌, ◌≢◌, length, Ok, OnOk, IfOk, IsTrue, IsSome};
ghost use Rattle.std.specs.Map.{keys_of};
ghost use Rattle.module_trait.specs.Rows.{AreBlocks, IsAscending};
ghost use Rattle.module_trait.specs.Starts.{AreRight, IsIn, IsUp, starts_of};
ghost use Rattle.range_search.specs.Range.{IsRangeOf, IsDigits, IsRangeVerdict};

use crate::OutOfMemory;
use crate::compare::same_starts;
use crate::has_start::has_start;
use crate::start_cells::StartCells;
use module_trait::{Edit, Module, RouteView, Steps, Verdict, cells_of, read_edits};
use prefix_width::{Addr, Prefix};
use std::alloc::Global;
use std::sync::ledger::Ledger;

/// Sorted ranges: one cell for each start, ascending, with the index of the longest row from there
/// on, 0 for none. A cell of IPv4 takes 8 bytes, and one of IPv6 32.
#[derive(Drop)]
pub struct RangeTable<const W: u32> {
    cells: StartCells,
}

impl<const W: u32> RangeTable<W> {
    /// Takes the cells of these rows, where the starts stay.
    fn take_over(
        &mut self,
        alloc: Global,
        rows: &[(Prefix<W>, u16)],
    ) -> Result<Verdict, OutOfMemory>
        requires { IsAscending rows.now }
        ensures blocks { OnOk result (AreBlocks W rows.now) }
        ensures starts { result ≡ Ok Verdict.Done → keys_of self.new.cells ≡ starts_of W rows.now }
        ensures right { result ≡ Ok Verdict.Done → AreRight W rows.now self.new.cells }
        ensures stay { result ≡ Ok Verdict.Done → keys_of self.old.cells ≡ starts_of W rows.now }
        ensures moved { result ≡ Ok Verdict.Rebuild → keys_of self.old.cells ≢ starts_of W rows.now }
        ensures no_batch { result ≢ Ok Verdict.Batch }
        ensures not_done { result ≢ Ok Verdict.Done → self.new ≡ self.old }
    {
        let cells = cells_of(alloc, rows)?;
        if !same_starts(alloc, &self.cells, cells.as_slice())? {
            return Ok(Verdict::Rebuild);
        }
        self.cells = StartCells::new(alloc, cells)?;
        Ok(Verdict::Done)
    }
}

impl<const W: u32> RangeTable<W> {
    /// Whether an edit puts a row where no cell begins, so that the starts move.
    fn begins_anew(&self, alloc: Global, edit: &Edit<W>) -> Result<bool, OutOfMemory>
        requires { IsUp (keys_of self.now.cells) }
        ensures row { IfOk result (λ anew. IsTrue anew → IsSome edit.now.after) }
        ensures start { IfOk result (λ anew. IsTrue anew → IsIn edit.now.prefix.base (keys_of self.now.cells) → ⊥) }
    {
        if edit.after().is_none() {
            return Ok(false);
        }
        let has = has_start(alloc, &self.cells, edit.prefix().first().value())?;
        Ok(!has)
    }
}

impl<const W: u32> Module<W> for RangeTable<W> {
    ghost use Rattle.prefix_width.specs.Choice.{preference as preferred};
    ghost use Rattle.prefix_width.specs.declared.module.Kind.TheVariants.{Range};

    ghost stands = { λ table rows. IsRangeOf W rows table.cells };

    ghost is_bound = { λ rows n. IsDigits n (length (starts_of W rows)) };

    ghost is_verdict = { λ before after verdict. IsRangeVerdict W before after verdict };

    ghost is_batch_verdict = { λ _ before after verdict. IsRangeVerdict W before after verdict };

    ghost preference = { λ routes. preferred W routes Range };

    fn empty(alloc: Global) -> Result<Self, OutOfMemory> {
        let cells = Vec::from_slice(alloc, &[(0, 0)])?;
        Ok(RangeTable {
            cells: StartCells::new(alloc, cells)?,
        })
    }

    fn load(&mut self, alloc: Global, rows: &[(Prefix<W>, u16)]) -> Result<(), OutOfMemory> {
        self.cells = StartCells::new(alloc, cells_of(alloc, rows)?)?;
        Ok(())
    }

    fn find<L: Ledger>(&self, addr: &Addr<W>, steps: &mut Steps<L>) -> Option<u16> {
        let index = self.cells.last_index(addr.value(), steps);
        if index == 0 { None } else { Some(index) }
    }

    fn bound(&self) -> u64 {
        match self.cells.len().checked_ilog2() {
            Some(log) => u64::from(log) + 1,
            None => 0,
        }
    }

    fn change(
        &mut self,
        alloc: Global,
        edit: &Edit<W>,
        view: &RouteView<W>,
    ) -> Result<Verdict, OutOfMemory> {
        let _after = edit.after();
        if self.begins_anew(alloc, edit)? {
            return Ok(Verdict::Rebuild);
        }
        let rows = view.rows(alloc)?;
        self.take_over(alloc, rows.as_slice())
    }

    fn change_batch(
        &mut self,
        alloc: Global,
        edits: &[Edit<W>],
        view: &RouteView<W>,
    ) -> Result<Verdict, OutOfMemory> {
        read_edits(edits);
        for edit in edits {
            if self.begins_anew(alloc, edit)? {
                return Ok(Verdict::Rebuild);
            }
        }
        let rows = view.rows(alloc)?;
        self.take_over(alloc, rows.as_slice())
    }

    fn copy(&self, alloc: Global) -> Result<Self, OutOfMemory> {
        Ok(RangeTable {
            cells: self.cells.copy(alloc)?,
        })
    }

    fn pref(routes: u32) -> u8 {
        1u32.max(253u32.saturating_sub(routes / 4)) as u8
    }
}
