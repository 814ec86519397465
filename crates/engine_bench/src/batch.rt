//! Batches of edits, and the version behind each.
ghost use Rattle.std.specs.Prelude.{ℕ, List, IfOk, OnOk};
ghost use Rattle.prefix_width.specs.Prefix.{Block};
ghost use Rattle.module_trait.specs.Edit.{AreOfDistinct, HaveAfter, undone_all};
ghost use Rattle.dxr_chunks.specs.Table.{IsChunksOf};
ghost use Rattle.engine_bench.specs.Batch.{IsBatch};

use crate::OutOfMemory;
use bench_kit::Fault;
use dxr_chunks::ChunkTable;
use module_trait::{Edit, Module, RouteView, Verdict};
use prefix_width::Prefix;
use std::alloc::Global;

/// Gives each prefix an index in the view, or takes its row out for `None`, and answers with the
/// edits that this is, the last one first. A prefix that has the index already is left out.
pub(crate) fn edit_each<const W: u32>(
    alloc: Global,
    view: &mut RouteView<W>,
    prefixes: &[Prefix<W>],
    index: Option<u16>,
) -> Result<Vec<Edit<W>>, OutOfMemory>
    ensures { IfOk result (λ edits. IsBatch index view.old view.new edits.items) }
{
    let mut edits = Vec::with_capacity(alloc, prefixes.len())?;
    for prefix in prefixes {
        edit_one(view, &mut edits, prefix, index)?;
    }
    Ok(edits)
}

/// Gives a prefix an index in the view, as the first of the edits.
fn edit_one<const W: u32>(
    view: &mut RouteView<W>,
    edits: &mut Vec<Edit<W>>,
    prefix: &Prefix<W>,
    index: Option<u16>,
) -> Result<(), OutOfMemory>
    ensures { OnOk result ((rows : List (Block × ℕ)) → IsBatch index rows view.old edits.old.items → IsBatch index rows view.new edits.new.items) }
{
    let _len = view.len();
    let before = view.get(prefix);
    let Some(edit) = Edit::new(*prefix, before, index) else {
        return Ok(());
    };
    edits.insert(0, edit)?;
    view.set(*prefix, index)?;
    Ok(())
}

/// Takes a batch over, and answers with a copy for readers.
pub(crate) fn take_version(
    alloc: Global,
    table: &mut ChunkTable,
    edits: &[Edit<32>],
    view: &RouteView<32>,
) -> Result<ChunkTable, Fault>
    requires distinct { AreOfDistinct edits.now }
    requires after { HaveAfter edits.now view.now }
    requires before { IsChunksOf (undone_all edits.now view.now) table.old }
    ensures table { OnOk result (IsChunksOf view.now table.new) }
    ensures copy { IfOk result (IsChunksOf view.now) }
{
    match table.change_batch(alloc, edits, view)? {
        Verdict::Done => {}
        _ => return Err(Fault::Unmade),
    }
    table.settle(alloc)?;
    Ok(table.copy(alloc)?)
}
