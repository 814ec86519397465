//! The chunks that edits touch.
ghost use Rattle.std.specs.Prelude.{◌≡◌, ◌^◌, ◌<◌, ◌≤◌, IfOk, OnOk};
ghost use Rattle.std.specs.List.{AllByRecursion};
ghost use Rattle.prefix_width.specs.Prefix.{IsBlock};
ghost use Rattle.dxr_chunks.specs.Touch.{AddsTouched, AreTouched};

use crate::OutOfMemory;
use module_trait::Edit;
use prefix_width::Prefix;
use std::alloc::Global;
use std::collections::BTreeSet;

/// How many chunks a batch may touch. Where there are more, the table is to be built anew.
pub(crate) const MOST: usize = 4_096;

/// The chunks that edits touch, ascending: all of them, or more than [`MOST`].
pub(crate) fn touched<const W: u32>(
    alloc: Global,
    edits: &[Edit<W>],
) -> Result<Vec<u32>, OutOfMemory>
    requires { W ≡ 32 }
    ensures touched { IfOk result (λ chunks. AreTouched 4096 edits.now chunks.items) }
    ensures chunks { IfOk result (λ chunks. AllByRecursion (λ k. k < 2 ^ 16) chunks.items) }
    ensures prefixes { OnOk result (AllByRecursion (λ e. IsBlock 32 e.prefix) edits.now) }
{
    let mut numbers = BTreeSet::new(alloc);
    for edit in edits {
        let prefix = edit.prefix();
        add_touched(&mut numbers, &prefix)?;
    }
    let chunks = listed(alloc, &numbers)?;
    Ok(chunks)
}

/// The numbers, ascending.
fn listed(alloc: Global, numbers: &BTreeSet<u32>) -> Result<Vec<u32>, OutOfMemory>
    ensures { IfOk result (λ list. list.items ≡ numbers.now.keys) }
{
    let mut list = Vec::with_capacity(alloc, numbers.len())?;
    for number in numbers.iter() {
        list.push(*number)?;
    }
    Ok(list)
}

/// Adds the chunks that a prefix touches, until there are more than [`MOST`].
fn add_touched<const W: u32>(
    numbers: &mut BTreeSet<u32>,
    prefix: &Prefix<W>,
) -> Result<(), OutOfMemory>
    requires { W ≡ 32 }
    ensures added { OnOk result (AddsTouched 4096 prefix.now numbers.old.keys numbers.new.keys) }
    ensures below { OnOk result (AllByRecursion (λ k. k < 2 ^ 16) numbers.old.keys → AllByRecursion (λ k. k < 2 ^ 16) numbers.new.keys) }
    ensures block { OnOk result (IsBlock 32 prefix.now) }
{
    let _len = prefix.len();
    let first = (prefix.first().value() >> 16) as u32;
    let last = (prefix.last().value() >> 16) as u32;
    for chunk in first..last + 1 {
        if numbers.len() > MOST {
            break;
        }
        numbers.insert(chunk)?;
    }
    Ok(())
}
