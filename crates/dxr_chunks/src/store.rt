//! Where direct cells and runs of fragments are kept.
ghost use Rattle.std.specs.Prelude.{◌≡◌, ◌≢◌, ℕ, ◌+◌, ◌*◌, ◌^◌, ◌<◌, ◌≤◌, Some, None, [], IfOk, length};
ghost use Rattle.module_trait.specs.Nodes.{node_at};
ghost use Rattle.dxr_chunks.specs.Chunk.{HasTwo, IsChunk, runs_of};
ghost use Rattle.dxr_chunks.specs.Store.{HasLinks, IsPut};

use crate::OutOfMemory;
use crate::cell::{Cell, PackedCell};
use crate::made::{Made, Run};
use module_trait::{FrozenNodes, NodeReads, Nodes, Steps};
use std::alloc::Global;
use std::sync::ledger::Ledger;

/// How many chunks there are.
pub(crate) const CHUNKS: u32 = 65_536;

/// How many cells share a page: few pages for a copy to share, and short ones to make anew.
pub(crate) const CELL_PAGE: usize = 1_024;

/// How many runs share a page. A page that is made anew raises the count of each.
pub(crate) const RUN_PAGE: usize = 64;

/// Cells by chunk and runs by key, which may be written to.
#[derive(Drop)]
pub(crate) struct Store {
    pub(crate) cells: Nodes<PackedCell, CELL_PAGE>,
    pub(crate) runs: Nodes<Run, RUN_PAGE>,
}

/// A copy of the cells and runs, which is only read.
#[derive(Drop)]
pub(crate) struct FrozenStore {
    pub(crate) cells: FrozenNodes<PackedCell, CELL_PAGE>,
    pub(crate) runs: FrozenNodes<Run, RUN_PAGE>,
}

impl Store {
    /// No cell at all. It takes no memory.
    pub(crate) fn bare(alloc: Global) -> Store {
        Store {
            cells: Nodes::new(alloc),
            runs: Nodes::new(alloc),
        }
    }

    /// A cell without an index for each chunk, and no run.
    pub(crate) fn new(alloc: Global) -> Result<Store, OutOfMemory>
        ensures links { IfOk result HasLinks }
        ensures chunks { IfOk result (λ store. (k : ℕ) → k < 2 ^ 16 → IsChunk (λ a. 0) k (node_at store.cells.slots k) (node_at store.runs.slots)) }
    {
        let mut cells = Nodes::new(alloc);
        cells.reserve(CHUNKS as usize)?;
        for chunk in 0..CHUNKS as usize {
            // New nodes hand their keys out in order, which their contract does not say.
            if cells.put(PackedCell::direct(0)) != chunk {
                return Err(OutOfMemory);
            }
        }
        Ok(Store {
            cells,
            runs: Nodes::new(alloc),
        })
    }

    /// Makes a chunk have this. A run takes the room of one. It takes no memory.
    pub(crate) fn put<L: Ledger>(&mut self, chunk: usize, made: Made, steps: &mut Steps<L>)
        requires chunk { chunk < 2 ^ 16 }
        requires links { HasLinks self.old }
        requires fits { HasTwo made }
        requires room { runs_of made ≤ self.old.runs.spare }
        ensures { IsPut self.old self.new chunk made }
    {
        let cell = self.cells.at(chunk, steps).cell();
        match made {
            Made::Index(index) => self.put_index(chunk, cell, index),
            Made::Fragments(run) => self.put_run(chunk, cell, run),
        }
    }

    // Gives a chunk, whose cell is this, one index.
    fn put_index(&mut self, chunk: usize, cell: Cell, index: u16)
        requires chunk { chunk < 2 ^ 16 }
        requires links { HasLinks self.old }
        requires cell { node_at self.old.cells.slots chunk ≡ Some cell }
        ensures { IsPut self.old self.new chunk (Made.Index index) }
    {
        self.cells.set(chunk, PackedCell::direct(index));
        if let Cell::Run(key) = cell {
            self.runs.take(key);
        }
    }

    // Gives a chunk, whose cell is this, a run: at the key that it has, or at a new one.
    fn put_run(&mut self, chunk: usize, cell: Cell, run: Run)
        requires chunk { chunk < 2 ^ 16 }
        requires links { HasLinks self.old }
        requires cell { node_at self.old.cells.slots chunk ≡ Some cell }
        requires two { 2 ≤ length run }
        requires room { 1 ≤ self.old.runs.spare }
        ensures { IsPut self.old self.new chunk (Made.Fragments run) }
    {
        match cell {
            Cell::Run(key) => self.runs.set(key, run),
            Cell::Direct(_) => {
                let key = self.runs.put(run);
                self.cells.set(chunk, PackedCell::run(key));
            }
        }
    }
}
