//! Direct cells and chunks in a family of any width.
ghost use Rattle.std.specs.Prelude.{◌≡◌, ◌≢◌, ℕ, ◌+◌, ◌≤◌, List, Ok, IfOk, OnOk};
ghost use Rattle.prefix_width.specs.Prefix.{Block};
ghost use Rattle.prefix_width.specs.Longest.{longest};
ghost use Rattle.module_trait.specs.Edit.{undone_all, HaveAfter, AreOfDistinct};
ghost use Rattle.module_trait.specs.Rows.{AreRows, index_of};
ghost use Rattle.dxr_chunks.specs.Table.{IsChunksOf, IsSameAs, KeepsUntouched};
ghost use Rattle.dxr_chunks.specs.Touch.{IsBatchVerdict};

use crate::OutOfMemory;
use dxr_chunks::ChunkTable;
use module_trait::{Edit, Module, RouteView, Steps, Verdict};
use prefix_width::{Addr, Prefix};
use std::alloc::Global;
use std::marker::Model;
use std::sync::ledger::Ledger;
use std::thread::Threads;

/// Direct cells and chunks of IPv4: there is one at `W` of 32, and none at any other width.
#[derive(Drop)]
pub struct InetDxr<const W: u32> {
    table: ChunkTable,
}

impl<const W: u32> Model for InetDxr<W> {
    ghost use Rattle.std.specs.Prelude.{◌≡◌};
    ghost use Rattle.dxr_chunks.specs.Table.{Chunked};

    ghost Value = { Chunked };

    ghost view = { λ t. t.table };

    ghost invariant = { λ t. W ≡ 32 };
}

impl<const W: u32> InetDxr<W> {
    /// The table of these rows.
    pub(crate) fn build(alloc: Global, rows: &[(Prefix<W>, u16)]) -> Result<InetDxr<W>, OutOfMemory>
        requires width { W ≡ 32 }
        requires rows { AreRows rows.now }
        ensures { IfOk result (λ table. IsChunksOf rows.now table) }
    {
        let mut table = ChunkTable::empty(alloc)?;
        table.load_rows(alloc, rows)?;
        Ok(InetDxr { table })
    }

    /// The index of the longest row that contains the address.
    pub(crate) fn find<L: Ledger>(&self, addr: &Addr<W>, steps: &mut Steps<L>) -> Option<u16>
        ensures answer { (rows : List (Block × ℕ)) → IsChunksOf rows self.now → result ≡ index_of (longest W rows addr.now) }
        ensures cost { (rows : List (Block × ℕ)) → IsChunksOf rows self.now → steps.new ≤ steps.old + 19 }
    {
        let table = &self.table;
        table.find_at(addr, steps)
    }

    /// Takes edits over, unless they touch more than 4,096 chunks. Each chunk that they don't touch
    /// stays.
    pub(crate) fn change_batch(
        &mut self,
        alloc: Global,
        edits: &[Edit<W>],
        view: &RouteView<W>,
    ) -> Result<Verdict, OutOfMemory>
        requires distinct { AreOfDistinct edits.now }
        requires after { HaveAfter edits.now view.now }
        requires before { IsChunksOf (undone_all edits.now view.now) self.old }
        ensures verdict { IfOk result (IsBatchVerdict edits.now) }
        ensures no_batch { result ≢ Ok Verdict.Batch }
        ensures done { result ≡ Ok Verdict.Done → IsChunksOf view.now self.new }
        ensures untouched { result ≡ Ok Verdict.Done → KeepsUntouched edits.now self.old self.new }
        ensures not_done { result ≢ Ok Verdict.Done → self.new ≡ self.old }
    {
        let table = &mut self.table;
        table.take_batch(alloc, edits, view)
    }

    /// As [`InetDxr::change_batch`], and with the same answer. The chunks are made in pieces, each of
    /// which may be made in a thread of its own.
    pub(crate) fn change_batch_par<R: Threads + Sync>(
        &mut self,
        rt: &R,
        alloc: Global,
        edits: &[Edit<W>],
        view: &RouteView<W>,
    ) -> Result<Verdict, OutOfMemory>
        requires distinct { AreOfDistinct edits.now }
        requires after { HaveAfter edits.now view.now }
        requires before { IsChunksOf (undone_all edits.now view.now) self.old }
        ensures verdict { IfOk result (IsBatchVerdict edits.now) }
        ensures no_batch { result ≢ Ok Verdict.Batch }
        ensures done { result ≡ Ok Verdict.Done → IsChunksOf view.now self.new }
        ensures untouched { result ≡ Ok Verdict.Done → KeepsUntouched edits.now self.old self.new }
        ensures not_done { result ≢ Ok Verdict.Done → self.new ≡ self.old }
    {
        let table = &mut self.table;
        table.change_batch_par(rt, alloc, edits, view)
    }

    /// Readies it for copies.
    pub(crate) fn settle(&mut self, alloc: Global) -> Result<(), OutOfMemory>
        ensures stands { (rows : List (Block × ℕ)) → IsChunksOf rows self.old → IsChunksOf rows self.new }
        ensures same { self.new ≡ record self.old { unsettled = self.new.unsettled } }
        ensures settled { OnOk result (self.new.unsettled ≡ 0) }
    {
        self.table.settle(alloc)
    }

    /// A table of the same rows, with the same cell of each chunk and the same run at each key.
    pub(crate) fn copy(&self, alloc: Global) -> Result<InetDxr<W>, OutOfMemory>
        ensures stands { IfOk result (λ copy. (rows : List (Block × ℕ)) → IsChunksOf rows self.now → IsChunksOf rows copy) }
        ensures same { IfOk result (λ copy. IsSameAs self.now copy) }
        ensures made { IfOk result (λ copy. copy.made ≤ self.now.unsettled) }
    {
        Ok(InetDxr {
            table: self.table.copy(alloc)?,
        })
    }
}
