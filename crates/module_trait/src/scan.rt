//! The module that looks at each row.
ghost use Rattle.std.specs.Prelude.{◌≡◌, length};
ghost use Rattle.prefix_width.specs.Longest.{longer, only_if_in};

use crate::OutOfMemory;
use crate::cell_reads::CellReads;
use crate::cells::Cells;
use crate::edit::{Edit, Verdict};
use crate::module::Module;
use crate::steps::Steps;
use crate::view::RouteView;
use prefix_width::{Addr, Prefix};
use std::alloc::Global;
use std::sync::ledger::Ledger;

/// The plain module: the rows themselves, of which a lookup reads every one.
#[derive(Drop)]
pub struct ScanTable<const W: u32> {
    rows: Cells<(Prefix<W>, u16)>,
}

/// The best row so far, or the next one where it contains the address and is longer.
fn longer_row<const W: u32>(
    best: Option<(Prefix<W>, u16)>,
    row: &(Prefix<W>, u16),
    addr: &Addr<W>,
) -> Option<(Prefix<W>, u16)>
    ensures { result ≡ longer best.entry (only_if_in W addr.now row.now) }
{
    if !row.0.contains(addr) {
        return best;
    }
    match best {
        Some(other) if other.0.len() >= row.0.len() => Some(other),
        _ => Some(*row),
    }
}

impl<const W: u32> ScanTable<W> {
    ghost use Rattle.std.specs.Prelude.{IfOk, OnOk, OnErr};
    ghost use Rattle.module_trait.specs.declared.edit.Verdict.TheVariants.{Done};

    /// Takes the view's rows in place of its own.
    fn take_over(&mut self, alloc: Global, view: &RouteView<W>) -> Result<Verdict, OutOfMemory>
        ensures verdict { IfOk result (λ verdict. verdict ≡ Done) }
        ensures rows { OnOk result (self.new.rows ≡ view.now) }
        ensures err { OnErr result (self.new ≡ self.old) }
    {
        self.rows = Cells::new(view.rows(alloc)?);
        Ok(Verdict::Done)
    }
}

impl<const W: u32> Module<W> for ScanTable<W> {
    ghost use Rattle.module_trait.specs.declared.edit.Verdict.TheVariants.{Done};
    ghost use Rattle.prefix_width.specs.Choice.{preference as preferred};
    ghost use Rattle.prefix_width.specs.declared.module.Kind.TheVariants.{Scan};

    ghost stands = { λ table rows. table.rows ≡ rows };

    ghost is_bound = { λ rows n. n ≡ length rows };

    ghost is_verdict = { λ _ _ verdict. verdict ≡ Done };

    ghost is_batch_verdict = { λ _ _ _ verdict. verdict ≡ Done };

    ghost preference = { λ routes. preferred W routes Scan };

    fn empty(alloc: Global) -> Result<Self, OutOfMemory> {
        Ok(ScanTable {
            rows: Cells::new(Vec::new(alloc)),
        })
    }

    fn load(&mut self, alloc: Global, rows: &[(Prefix<W>, u16)]) -> Result<(), OutOfMemory> {
        self.rows = Cells::new(Vec::from_slice(alloc, rows)?);
        Ok(())
    }

    fn find<L: Ledger>(&self, addr: &Addr<W>, steps: &mut Steps<L>) -> Option<u16> {
        let mut best: Option<(Prefix<W>, u16)> = None;
        for i in 0..self.rows.len() {
            best = longer_row(best, self.rows.at(i, steps), addr);
        }
        match best {
            Some(row) => Some(row.1),
            None => None,
        }
    }

    fn bound(&self) -> u64 {
        self.rows.len() as u64
    }

    fn change(
        &mut self,
        alloc: Global,
        edit: &Edit<W>,
        view: &RouteView<W>,
    ) -> Result<Verdict, OutOfMemory> {
        self.take_over(alloc, view)
    }

    fn change_batch(
        &mut self,
        alloc: Global,
        edits: &[Edit<W>],
        view: &RouteView<W>,
    ) -> Result<Verdict, OutOfMemory> {
        self.take_over(alloc, view)
    }

    fn copy(&self, alloc: Global) -> Result<Self, OutOfMemory> {
        Ok(ScanTable {
            rows: self.rows.copy(alloc)?,
        })
    }

    fn pref(routes: u32) -> u8 {
        50
    }
}
