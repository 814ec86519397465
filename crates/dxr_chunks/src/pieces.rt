//! Chunks are made in pieces, each in a thread of its own.
ghost use Rattle.std.specs.Prelude.{◌≡◌, ◌^◌, ◌<◌, IfOk, OnOk};
ghost use Rattle.std.specs.List.{AllByRecursion};
ghost use Rattle.std.specs.Map.{keys_of};
ghost use Rattle.module_trait.specs.Starts.{index_at};
ghost use Rattle.dxr_chunks.specs.Chunk.{AreMade};
ghost use Rattle.dxr_chunks.specs.Pieces.{AreWhole, all_of};

use crate::OutOfMemory;
use crate::made::Made;
use crate::making::make_each;
use module_trait::RouteView;
use std::alloc::Global;
use std::thread;
use std::thread::Threads;

/// How many pieces there are at most, and so how many threads.
const PIECES: usize = 8;

/// What all pieces have, one behind the other.
fn gathered(
    alloc: Global,
    pieces: Vec<Result<Vec<(u32, Made)>, OutOfMemory>>,
) -> Result<Vec<(u32, Made)>, OutOfMemory>
    ensures whole { OnOk result (AreWhole pieces.items) }
    ensures all { IfOk result (λ news. news.items ≡ all_of pieces.items) }
{
    let mut news = Vec::new(alloc);
    for piece in pieces {
        let mut part = piece?;
        news.append(&mut part)?;
    }
    Ok(news)
}

/// As [`make_each`], in at most eight pieces, each of which may be made in a thread of its own.
pub(crate) fn make_pieces<const W: u32, R: Threads + Sync>(
    rt: &R,
    alloc: Global,
    view: &RouteView<W>,
    chunks: &[u32],
) -> Result<Vec<(u32, Made)>, OutOfMemory>
    requires width { W ≡ 32 }
    requires chunks { AllByRecursion (λ k. k < 2 ^ 16) chunks.now }
    ensures made { IfOk result (λ news. AreMade (index_at 32 view.now) news.items) }
    ensures keys { IfOk result (λ news. keys_of news.items ≡ chunks.now) }
{
    let size = chunks.len() / PIECES + 1;
    let make_piece = |_start: usize, piece: &[u32]| -> Result<Vec<(u32, Made)>, OutOfMemory>
        requires { (W ≡ 32) × AllByRecursion (λ k. k < 2 ^ 16) piece.now }
        ensures { IfOk result (λ news. AreMade (index_at 32 view.entry.now) news.items × (keys_of news.items ≡ piece.now)) }
    { make_each(alloc, view, piece) };
    let pieces = thread::map_chunks(rt, alloc, chunks, size, &make_piece)?;
    let news = gathered(alloc, pieces)?;
    Ok(news)
}
