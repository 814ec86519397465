//! The chunks of all rows, made one after another.
ghost use Rattle.std.specs.Prelude.{◌≡◌, ◌≢◌, ℕ, ◌+◌, ◌*◌, ◌^◌, ◌<◌, ◌≤◌, [], ◌∷◌, ◌++◌, List, Some, IfOk, OnOk, length, slice_get, vec_len};
ghost use Rattle.std.specs.Map.{keys_of};
ghost use Rattle.module_trait.specs.Starts.{IsUp};
ghost use Rattle.dxr_chunks.specs.Making.{ArePassed};
ghost use Rattle.dxr_table.specs.Making.{AreMade};

use crate::OutOfMemory;
use dxr_chunks::{add_run, pass_border};
use std::alloc::Global;
use std::marker::Model;

/// How many chunks there are.
const CHUNKS: u32 = 65_536;

/// The chunks of a table so far.
#[derive(Drop)]
pub(crate) struct Chunks {
    /// The place of each chunk's first fragment, and behind them the number of fragments.
    pub(crate) firsts: Vec<u32>,
    /// The index of each chunk that has no fragment.
    pub(crate) indexes: Vec<u16>,
    /// The fragments of all chunks.
    pub(crate) fragments: Vec<(u16, u16)>,
}

impl Model for Chunks {
    ghost use Rattle.dxr_table.specs.Dxr.{Dxr};

    ghost Value = { Dxr };

    ghost view = { λ c. record { firsts = c.firsts.items; indexes = c.indexes.items; fragments = c.fragments.items } };
}

/// The chunks that answer as cells do, in one walk over chunks and cells.
pub(crate) fn chunks_of(alloc: Global, cells: &[(u128, u16)]) -> Result<Chunks, OutOfMemory>
    requires first { slice_get (keys_of cells.now) 0 ≡ Some 0 }
    requires ascending { IsUp (keys_of cells.now) }
    ensures { IfOk result (AreMade cells.now (2 ^ 16)) }
{
    let mut chunks = Chunks::new(alloc)?;
    let mut passed = 0;
    for chunk in 0..CHUNKS {
        passed = chunks.add(cells, passed, chunk)?;
    }
    Ok(chunks)
}

impl Chunks {
    /// No chunk.
    fn new(alloc: Global) -> Result<Chunks, OutOfMemory>
        ensures { IfOk result (λ chunks. (cells : List (ℕ × ℕ)) → AreMade cells 0 chunks) }
    {
        let mut firsts = Vec::with_capacity(alloc, CHUNKS as usize + 1)?;
        firsts.push(0)?;
        let indexes = Vec::with_capacity(alloc, CHUNKS as usize)?;
        let fragments = Vec::new(alloc);
        Ok(Chunks {
            firsts,
            indexes,
            fragments,
        })
    }

    /// Adds the next chunk, below whose addresses so many cells start. The answer is how many start
    /// below those of the chunk behind it.
    fn add(
        &mut self,
        cells: &[(u128, u16)],
        passed: usize,
        chunk: u32,
    ) -> Result<usize, OutOfMemory>
        requires first { slice_get (keys_of cells.now) 0 ≡ Some 0 }
        requires ascending { IsUp (keys_of cells.now) }
        requires chunk { chunk < 2 ^ 16 }
        requires passed { ArePassed cells.now (chunk * 2 ^ 16) passed }
        ensures passed { IfOk result (ArePassed cells.now ((chunk + 1) * 2 ^ 16)) }
        ensures made { OnOk result (AreMade cells.now chunk self.old → AreMade cells.now (chunk + 1) self.new) }
    {
        let first = self.fragments.len();
        let begun = pass_border(cells, passed, chunk);
        let passed = add_run(&mut self.fragments, cells, begun, chunk)?;
        let index = take_single(&mut self.fragments, first);
        self.indexes.push(index)?;
        self.firsts.push(place_of(self.fragments.len())?)?;
        Ok(passed)
    }
}

/// A place among fragments. As many as no place of 32 bits can tell would take 16 gigabytes.
fn place_of(place: usize) -> Result<u32, OutOfMemory>
    ensures { IfOk result (λ short. short ≡ place) }
{
    match u32::try_from(place) {
        Ok(short) => Ok(short),
        Err(_) => Err(OutOfMemory),
    }
}

/// Takes a run of one fragment, which begins at a place, out again: its index answers everywhere. A
/// longer run stays, and the answer is 0.
fn take_single(fragments: &mut Vec<(u16, u16)>, first: usize) -> u16
    requires { first ≤ vec_len fragments.old }
    ensures single { (front : List (ℕ × ℕ)) (only : ℕ × ℕ) → fragments.old.items ≡ front ++ only ∷ [] → length front ≡ first → (fragments.new.items ≡ front) × (result ≡ only.1) }
    ensures run { first + 2 ≤ vec_len fragments.old → fragments.new.items ≡ fragments.old.items }
{
    if fragments.len() - first != 1 {
        return 0;
    }
    match fragments.pop() {
        Some(only) => only.1,
        None => 0,
    }
}
