//! What edits of a table of chunks cost.
ghost use Rattle.std.specs.Prelude.{OnOk};
ghost use Rattle.module_trait.specs.Rows.{HaveIndexes};
ghost use Rattle.dxr_chunks.specs.Table.{IsChunksOf};

use crate::OutOfMemory;
use crate::batch::{edit_each, take_version};
use bench_kit::{Fault, cpu_time};
use dxr_chunks::ChunkTable;
use module_trait::{Module, RouteView};
use prefix_width::Prefix;
use std::alloc::Global;
use std::time::{CpuClock, Duration};

/// How long the prefixes are that are edited.
const LEN: u8 = 24;

/// How many prefixes are edited at most.
const EDITS: usize = 256;

/// How often they are edited. The fastest round counts.
const ROUNDS: u16 = 20;

/// The first index that an edit leaves. No drawn route has it or one above.
const FIRST_INDEX: u16 = 65;

/// What the edits of a table of chunks were measured at, without what its view of the routes
/// takes.
#[derive(Clone, Copy)]
pub(crate) struct ChunkFigures {
    /// How many prefixes were edited.
    pub(crate) edits: usize,
    /// The processor time of an edit of each, one after the other, with a copy for readers behind
    /// each.
    pub(crate) single: Duration,
    /// The processor time of all edits in one batch, and a copy.
    pub(crate) batch: Duration,
}

/// Edits the first prefixes of 24 bits in a table of chunks, which lie anywhere.
pub(crate) fn measure_chunks<R: CpuClock + AllocGlobal>(
    rt: &R,
    view: &mut RouteView<32>,
    prefixes: &[Prefix<32>],
) -> Result<ChunkFigures, Fault>
    requires { HaveIndexes view.old }
{
    let alloc = rt.alloc();
    let rows = view.rows(alloc)?;
    let mut table: ChunkTable = ChunkTable::build(alloc, rows.as_slice())?;
    let edited = edited(alloc, prefixes)?;
    let (single, batch) = time_rounds(rt, &mut table, view, edited.as_slice())?;
    Ok(ChunkFigures {
        edits: edited.len(),
        single,
        batch,
    })
}

/// The prefixes that are edited.
fn edited(alloc: Global, prefixes: &[Prefix<32>]) -> Result<Vec<Prefix<32>>, OutOfMemory> {
    let mut edited = Vec::with_capacity(alloc, EDITS)?;
    for prefix in prefixes {
        if edited.len() < EDITS && prefix.len() == LEN {
            edited.push(*prefix)?;
        }
    }
    Ok(edited)
}

/// The least times of the edits one after the other, and in one batch.
fn time_rounds<R: CpuClock + AllocGlobal>(
    rt: &R,
    table: &mut ChunkTable,
    view: &mut RouteView<32>,
    prefixes: &[Prefix<32>],
) -> Result<(Duration, Duration), Fault>
    requires { IsChunksOf view.old table.old }
{
    let mut single = Duration::MAX;
    let mut batch = Duration::MAX;
    for round in 0..ROUNDS {
        let index = FIRST_INDEX + 2 * round;
        single = single.min(time_singles(rt, table, view, prefixes, index)?);
        batch = batch.min(time_batch(rt, table, view, prefixes, index + 1)?);
    }
    Ok((single, batch))
}

/// The processor time of giving each prefix an index, one after the other.
fn time_singles<R: CpuClock + AllocGlobal>(
    rt: &R,
    table: &mut ChunkTable,
    view: &mut RouteView<32>,
    prefixes: &[Prefix<32>],
    index: u16,
) -> Result<Duration, Fault>
    requires { IsChunksOf view.old table.old }
    ensures { OnOk result (IsChunksOf view.new table.new) }
{
    let mut sum = Duration::ZERO;
    for i in 0..prefixes.len() {
        let one = time_batch(rt, table, view, &prefixes[i..i + 1], index)?;
        sum = sum.saturating_add(one);
    }
    Ok(sum)
}

/// The processor time of giving all prefixes an index in one batch, with the copy behind it.
fn time_batch<R: CpuClock + AllocGlobal>(
    rt: &R,
    table: &mut ChunkTable,
    view: &mut RouteView<32>,
    prefixes: &[Prefix<32>],
    index: u16,
) -> Result<Duration, Fault>
    requires { IsChunksOf view.old table.old }
    ensures { OnOk result (IsChunksOf view.new table.new) }
{
    let alloc = rt.alloc();
    let edits = edit_each(alloc, view, prefixes, Some(index))?;
    let start = cpu_time(rt)?;
    let _copy = take_version(alloc, table, edits.as_slice(), view)?;
    let taken = cpu_time(rt)?.saturating_sub(start);
    Ok(taken)
}
