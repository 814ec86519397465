//! Chunks are made from the rows of a view.
ghost use Rattle.std.specs.Prelude.{◌≡◌, ◌≢◌, [], ◌∷◌, ℕ, ◌+◌, ◌*◌, ◌^◌, ◌<◌, ◌≤◌, ◌++◌, Some, IfOk, OnOk, slice_get};
ghost use Rattle.std.specs.List.{AllByRecursion};
ghost use Rattle.std.specs.Map.{keys_of};
ghost use Rattle.std.specs.Option.{option_to_list};
ghost use Rattle.module_trait.specs.Rows.{AreBlocks, IsAscending};
ghost use Rattle.module_trait.specs.Starts.{IsUp, index_at};
ghost use Rattle.dxr_chunks.specs.Chunk.{AreMade, AreRest, IsMade};
ghost use Rattle.dxr_chunks.specs.Fragments.{AreFragments, index_in};
ghost use Rattle.dxr_chunks.specs.Making.{ArePassed};

use crate::OutOfMemory;
use crate::made::{Made, Run};
use crate::run::{add_run, base_of, pass_border};
use crate::store::CHUNKS;
use module_trait::{RouteView, cells_of};
use prefix_width::{Addr, Prefix};
use std::alloc::Global;

/// What a chunk has whose fragments are these: a single one is an index.
fn made_of(alloc: Global, run: &[(u16, u16)]) -> Result<Made, OutOfMemory>
    ensures { IfOk result (λ made. (answer : ℕ → ℕ) (k : ℕ) → AreFragments answer k run.now → IsMade answer k made) }
{
    if run.len() == 1 {
        return Ok(Made::Index(run[0].1));
    }
    Ok(Made::Fragments(Run::new(alloc, run)?))
}

/// Adds what a chunk has, unless that is no index.
fn add_indexed(news: &mut Vec<(u32, Made)>, chunk: u32, made: Made) -> Result<(), OutOfMemory>
    ensures none { made ≡ Made.Index 0 → OnOk result (news.new.items ≡ news.old.items) }
    ensures some { made ≢ Made.Index 0 → OnOk result (news.new.items ≡ news.old.items ++ (chunk, made) ∷ []) }
{
    match made {
        Made::Index(0) => Ok(()),
        made => {
            news.push((chunk, made))?;
            Ok(())
        }
    }
}

/// What each chunk has that is not without an index everywhere, where all answer as cells do, in
/// one walk over chunks and cells.
pub(crate) fn make_all(
    alloc: Global,
    cells: &[(u128, u16)],
) -> Result<Vec<(u32, Made)>, OutOfMemory>
    requires first { slice_get (keys_of cells.now) 0 ≡ Some 0 }
    requires ascending { IsUp (keys_of cells.now) }
    ensures made { IfOk result (λ news. AreMade (index_in cells.now) news.items) }
    ensures rest { IfOk result (λ news. AreRest (index_in cells.now) (2 ^ 16) news.items) }
{
    let mut news = Vec::new(alloc);
    let mut run = Vec::new(alloc);
    let mut passed = 0;
    for chunk in 0..CHUNKS {
        let begun = pass_border(cells, passed, chunk);
        run.clear();
        passed = add_run(&mut run, cells, begun, chunk)?;
        let made = made_of(alloc, run.as_slice())?;
        add_indexed(&mut news, chunk, made)?;
    }
    Ok(news)
}

/// How many cells start at or below the first address of a chunk, of which there are few.
fn begun_in(cells: &[(u128, u16)], chunk: u32) -> usize
    requires { slice_get (keys_of cells.now) 0 ≡ Some 0 }
    ensures some { 0 < result }
    ensures passed { ArePassed cells.now (chunk * 2 ^ 16 + 1) result }
{
    let base = base_of(chunk);
    let mut begun = 0;
    while begun < cells.len() && cells[begun].0 <= base {
        begun += 1;
    }
    begun
}

/// A row, if there is one, and behind it others.
fn joined<const W: u32>(
    alloc: Global,
    first: &Option<(Prefix<W>, u16)>,
    others: &[(Prefix<W>, u16)],
) -> Result<Vec<(Prefix<W>, u16)>, OutOfMemory>
    ensures { IfOk result (λ rows. rows.items ≡ option_to_list first.now ++ others.now) }
{
    let mut rows = Vec::with_capacity(alloc, others.len())?;
    if let Some(first) = first {
        rows.push(*first)?;
    }
    rows.extend_from_slice(others)?;
    Ok(rows)
}

/// The rows that decide a chunk's answers: the longest that covers it whole, and those under it.
fn rows_at<const W: u32>(
    alloc: Global,
    view: &RouteView<W>,
    chunk: u32,
) -> Result<Vec<(Prefix<W>, u16)>, OutOfMemory>
    requires width { W ≡ 32 }
    requires chunk { chunk < 2 ^ 16 }
    ensures ascending { IfOk result (λ rows. IsAscending rows.items) }
    ensures answers { IfOk result (λ rows. (x : ℕ) → x < 2 ^ 16 → index_at 32 rows.items (chunk * 2 ^ 16 + x) ≡ index_at 32 view.now (chunk * 2 ^ 16 + x)) }
{
    let _len = view.len();
    let Some(first) = Addr::<W>::new(base_of(chunk)) else {
        unreachable!()
    };
    let Some(prefix) = Prefix::masked(first, 16) else {
        unreachable!()
    };
    let _block = prefix.len();
    let cover = view.cover(&prefix);
    let under = view.rows_under(alloc, &prefix)?;
    let rows = joined(alloc, &cover, under.as_slice())?;
    Ok(rows)
}

/// What a chunk has where it answers as cells do, of which few start below it.
fn make_of(alloc: Global, cells: &[(u128, u16)], chunk: u32) -> Result<Made, OutOfMemory>
    requires first { slice_get (keys_of cells.now) 0 ≡ Some 0 }
    requires ascending { IsUp (keys_of cells.now) }
    requires chunk { chunk < 2 ^ 16 }
    ensures { IfOk result (IsMade (index_in cells.now) chunk) }
{
    let begun = begun_in(cells, chunk);
    let mut run = Vec::new(alloc);
    add_run(&mut run, cells, begun, chunk)?;
    let made = made_of(alloc, run.as_slice())?;
    Ok(made)
}

/// What a chunk has where it answers as a view's rows do.
fn make<const W: u32>(alloc: Global, view: &RouteView<W>, chunk: u32) -> Result<Made, OutOfMemory>
    requires width { W ≡ 32 }
    requires chunk { chunk < 2 ^ 16 }
    ensures { IfOk result (IsMade (index_at 32 view.now) chunk) }
{
    let rows = rows_at(alloc, view, chunk)?;
    let cells = cells_of(alloc, rows.as_slice())?;
    let made = make_of(alloc, cells.as_slice(), chunk)?;
    Ok(made)
}

/// What each of some chunks has where they answer as a view's rows do.
pub(crate) fn make_each<const W: u32>(
    alloc: Global,
    view: &RouteView<W>,
    chunks: &[u32],
) -> Result<Vec<(u32, Made)>, OutOfMemory>
    requires width { W ≡ 32 }
    requires chunks { AllByRecursion (λ k. k < 2 ^ 16) chunks.now }
    ensures made { IfOk result (λ news. AreMade (index_at 32 view.now) news.items) }
    ensures keys { IfOk result (λ news. keys_of news.items ≡ chunks.now) }
{
    let mut news = Vec::with_capacity(alloc, chunks.len())?;
    for chunk in chunks {
        let made = make(alloc, view, *chunk)?;
        news.push((*chunk, made))?;
    }
    Ok(news)
}
