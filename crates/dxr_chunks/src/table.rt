//! The table of direct cells and chunks.
ghost use Rattle.std.specs.Prelude.{◌≡◌, ◌≢◌, ℕ, ◌+◌, ◌*◌, ◌^◌, ◌<◌, ◌≤◌, List, Ok, IfOk, OnOk, OnErr};
ghost use Rattle.prefix_width.specs.Longest.{longest};
ghost use Rattle.prefix_width.specs.Prefix.{Block};
ghost use Rattle.module_trait.specs.Edit.{AreOfDistinct, HaveAfter, undone_all};
ghost use Rattle.module_trait.specs.Rows.{AreRows, index_of};
ghost use Rattle.dxr_chunks.specs.Chunk.{AreMade};
ghost use Rattle.dxr_chunks.specs.Form.{chunked};
ghost use Rattle.dxr_chunks.specs.Table.{AreRightChunks, IsChunksOf, IsLinked, IsRemade, IsSameAs, KeepsUntouched};
ghost use Rattle.dxr_chunks.specs.Touch.{IsBatchVerdict};

use crate::OutOfMemory;
use crate::form::{Form, frozen, index_in_form, remake_form, settle_form, store_of};
use crate::made::Made;
use crate::making::make_each;
use crate::pieces::make_pieces;
use crate::store::Store;
use crate::touched::{MOST, touched};
use module_trait::{Boxed, Edit, Module, RouteView, Steps, Verdict, cells_of, read_edits};
use prefix_width::{Addr, Prefix};
use std::alloc::Global;
use std::marker::Model;
use std::sync::ledger::Ledger;
use std::thread::Threads;

/// The most steps that a lookup takes: one for a cell, one for a run, and 17 for its fragments.
const BOUND: u64 = 19;

/// Direct cells and shared chunks. A chunk is the addresses with one value of the 16 leading bits:
/// its cell has either an index, 0 for none, or the key of a run of fragments, and a fragment has
/// the index from its 16-bit start on. A batch of edits makes the chunks that it touches anew, and
/// no other. A table that was copied from another shares its cells and runs, and is given its own
/// by its first batch.
#[derive(Drop)]
pub struct ChunkTable {
    // Behind a pointer, so that a table is as small as one.
    form: Boxed<Form>,
}

impl Model for ChunkTable {
    ghost use Rattle.dxr_chunks.specs.Form.{chunked};
    ghost use Rattle.dxr_chunks.specs.Table.{Chunked, IsLinked};

    ghost Value = { Chunked };

    ghost view = { λ t. chunked t.form };

    ghost invariant = { λ t. IsLinked (chunked t.form) };
}

/// Puts chunks in behind the pointer.
fn remake_behind(
    alloc: Global,
    form: &mut Boxed<Form>,
    news: Vec<(u32, Made)>,
) -> Result<(), OutOfMemory>
    requires linked { IsLinked (chunked form.old) }
    requires made { (answer : ℕ → ℕ) × AreMade answer news.items }
    ensures ok { OnOk result (IsRemade (chunked form.old) (chunked form.new) news.items) }
    ensures err { OnErr result (chunked form.new ≡ chunked form.old) }
{
    let mut work = form.replace(Form::Working(Store::bare(alloc)));
    let outcome = remake_form(alloc, &mut work, news);
    form.replace(work);
    outcome
}

impl ChunkTable {
    /// As [`Module::load`], with rows of any width that is 32.
    pub fn load_rows<const W: u32>(
        &mut self,
        alloc: Global,
        rows: &[(Prefix<W>, u16)],
    ) -> Result<(), OutOfMemory>
        requires width { W ≡ 32 }
        requires rows { AreRows rows.now }
        ensures ok { OnOk result (IsChunksOf rows.now self.new) }
        ensures err { OnErr result (self.new ≡ self.old) }
    {
        let cells = cells_of(alloc, rows)?;
        let store = store_of(alloc, cells.as_slice())?;
        self.form.replace(Form::Working(store));
        Ok(())
    }

    /// As [`Module::find`], with an address of any width that is 32.
    pub fn find_at<const W: u32, L: Ledger>(
        &self,
        addr: &Addr<W>,
        steps: &mut Steps<L>,
    ) -> Option<u16>
        requires { W ≡ 32 }
        ensures answer { (rows : List (Block × ℕ)) → IsChunksOf rows self.now → result ≡ index_of (longest W rows addr.now) }
        ensures cost { (rows : List (Block × ℕ)) → IsChunksOf rows self.now → steps.new ≤ steps.old + 19 }
    {
        // Its low half alone: read from where the whole was just stored, the upper bits would have
        // to wait for that store.
        let value = addr.value() as u32;
        let index = self.index_at((value >> 16) as usize, (value % 65_536) as u16, steps);
        if index == 0 { None } else { Some(index) }
    }

    /// The index at an offset in a chunk, 0 for none.
    fn index_at<L: Ledger>(&self, chunk: usize, offset: u16, steps: &mut Steps<L>) -> u16
        requires { chunk < 2 ^ 16 }
        ensures answer { (answer : ℕ → ℕ) → AreRightChunks answer self.now → result ≡ answer (chunk * 2 ^ 16 + offset) }
        ensures cost { (answer : ℕ → ℕ) → AreRightChunks answer self.now → steps.new ≤ steps.old + 19 }
    {
        index_in_form(self.form.get(), chunk, offset, steps)
    }

    /// As [`Module::change_batch`], with edits and a view of any width that is 32. The chunks that
    /// the edits touch are made from the view, and put in when all memory for it is there. Each
    /// other chunk keeps its cell, the key in it, and its fragments.
    pub fn take_batch<const W: u32>(
        &mut self,
        alloc: Global,
        edits: &[Edit<W>],
        view: &RouteView<W>,
    ) -> Result<Verdict, OutOfMemory>
        requires width { W ≡ 32 }
        requires distinct { AreOfDistinct edits.now }
        requires after { HaveAfter edits.now view.now }
        requires before { IsChunksOf (undone_all edits.now view.now) self.old }
        ensures verdict { IfOk result (IsBatchVerdict edits.now) }
        ensures no_batch { result ≢ Ok Verdict.Batch }
        ensures done { result ≡ Ok Verdict.Done → IsChunksOf view.now self.new }
        ensures untouched { result ≡ Ok Verdict.Done → KeepsUntouched edits.now self.old self.new }
        ensures not_done { result ≢ Ok Verdict.Done → self.new ≡ self.old }
    {
        read_edits(edits);
        let _len = view.len();
        let chunks = touched(alloc, edits)?;
        if chunks.len() > MOST {
            return Ok(Verdict::Rebuild);
        }
        let news = make_each(alloc, view, chunks.as_slice())?;
        self.put_in(alloc, news)?;
        Ok(Verdict::Done)
    }

    /// As [`ChunkTable::take_batch`], and with the same answer. The chunks are made in at most eight
    /// pieces, each of which may be made in a thread of its own.
    pub fn change_batch_par<const W: u32, R: Threads + Sync>(
        &mut self,
        rt: &R,
        alloc: Global,
        edits: &[Edit<W>],
        view: &RouteView<W>,
    ) -> Result<Verdict, OutOfMemory>
        requires width { W ≡ 32 }
        requires distinct { AreOfDistinct edits.now }
        requires after { HaveAfter edits.now view.now }
        requires before { IsChunksOf (undone_all edits.now view.now) self.old }
        ensures verdict { IfOk result (IsBatchVerdict edits.now) }
        ensures no_batch { result ≢ Ok Verdict.Batch }
        ensures done { result ≡ Ok Verdict.Done → IsChunksOf view.now self.new }
        ensures untouched { result ≡ Ok Verdict.Done → KeepsUntouched edits.now self.old self.new }
        ensures not_done { result ≢ Ok Verdict.Done → self.new ≡ self.old }
    {
        read_edits(edits);
        let _len = view.len();
        let chunks = touched(alloc, edits)?;
        if chunks.len() > MOST {
            return Ok(Verdict::Rebuild);
        }
        let news = make_pieces(rt, alloc, view, chunks.as_slice())?;
        self.put_in(alloc, news)?;
        Ok(Verdict::Done)
    }

    /// Puts chunks in.
    fn put_in(&mut self, alloc: Global, news: Vec<(u32, Made)>) -> Result<(), OutOfMemory>
        requires { (answer : ℕ → ℕ) × AreMade answer news.items }
        ensures ok { OnOk result (IsRemade self.old self.new news.items) }
        ensures err { OnErr result (self.new ≡ self.old) }
    {
        remake_behind(alloc, &mut self.form, news)?;
        Ok(())
    }
}

impl Module<32> for ChunkTable {
    ghost use Rattle.module_trait.specs.declared.edit.Verdict.TheVariants.{Batch, Done};
    ghost use Rattle.dxr_chunks.specs.Touch.{IsBatchVerdict};
    ghost use Rattle.prefix_width.specs.Choice.{preference as preferred};
    ghost use Rattle.prefix_width.specs.declared.module.Kind.TheVariants.{Dxr};

    ghost stands = { λ table rows. IsChunksOf rows table };

    ghost is_bound = { λ _ n. n ≡ 19 };

    ghost is_verdict = { λ _ _ verdict. verdict ≡ Batch };

    ghost is_batch_verdict = { λ edits _ _ verdict. IsBatchVerdict edits verdict };

    ghost preference = { λ routes. preferred 32 routes Dxr };

    fn empty(alloc: Global) -> Result<Self, OutOfMemory> {
        let store = Store::new(alloc)?;
        let form = Boxed::new(alloc, Form::Working(store))?;
        let table = ChunkTable { form };
        Ok(table)
    }

    fn load(&mut self, alloc: Global, rows: &[(Prefix<32>, u16)]) -> Result<(), OutOfMemory> {
        self.load_rows(alloc, rows)
    }

    fn find<L: Ledger>(&self, addr: &Addr<32>, steps: &mut Steps<L>) -> Option<u16> {
        self.find_at(addr, steps)
    }

    fn bound(&self) -> u64 {
        BOUND
    }

    fn change(
        &mut self,
        alloc: Global,
        edit: &Edit<32>,
        view: &RouteView<32>,
    ) -> Result<Verdict, OutOfMemory> {
        // Chunks are made in batches.
        Ok(Verdict::Batch)
    }

    fn change_batch(
        &mut self,
        alloc: Global,
        edits: &[Edit<32>],
        view: &RouteView<32>,
    ) -> Result<Verdict, OutOfMemory>
        requires distinct { AreOfDistinct edits.now }
        requires after { HaveAfter edits.now view.now }
        requires before { IsChunksOf (undone_all edits.now view.now) self.old }
        ensures verdict { IfOk result (IsBatchVerdict edits.now) }
        ensures no_batch { result ≢ Ok Verdict.Batch }
        ensures done { result ≡ Ok Verdict.Done → IsChunksOf view.now self.new }
        ensures not_done { result ≢ Ok Verdict.Done → self.new ≡ self.old }

        // Each chunk that no edit touches keeps its cell, the key in it, and its fragments.
        ensures untouched { result ≡ Ok Verdict.Done → KeepsUntouched edits.now self.old self.new }
    {
        self.take_batch(alloc, edits, view)
    }

    fn settle(&mut self, alloc: Global) -> Result<(), OutOfMemory>
        ensures stands { (rows : List (Block × ℕ)) → IsChunksOf rows self.old → IsChunksOf rows self.new }

        // No page is left that was written to, and all else is as before.
        ensures same { self.new ≡ record self.old { unsettled = self.new.unsettled } }
        ensures settled { OnOk result (self.new.unsettled ≡ 0) }
    {
        let mut work = self.form.replace(Form::Working(Store::bare(alloc)));
        let outcome = settle_form(alloc, &mut work);
        self.form.replace(work);
        outcome
    }

    fn copy(&self, alloc: Global) -> Result<Self, OutOfMemory>
        ensures stands { IfOk result (λ copy. (rows : List (Block × ℕ)) → IsChunksOf rows self.now → IsChunksOf rows copy) }

        // The same cell of each chunk, and the same run at each key.
        ensures same { IfOk result (λ copy. IsSameAs self.now copy) }

        // It shares each page but those that were written to since the table was settled.
        ensures made { IfOk result (λ copy. copy.made ≤ self.now.unsettled) }
    {
        let form = frozen(self.form.get(), alloc)?;
        Ok(ChunkTable {
            form: Boxed::new(alloc, form)?,
        })
    }

    fn pref(routes: u32) -> u8 {
        if routes < 1_000 { 150 } else { 240 }
    }
}
