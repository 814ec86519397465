//! Edits are made in a trie.
ghost use Rattle.std.specs.Prelude.{◌≡◌, ℕ, ◌*◌, ◌≤◌, List, [], length, max, OnOk, OnErr};
ghost use Rattle.prefix_width.specs.Prefix.{Block};
ghost use Rattle.module_trait.specs.Nodes.{node_at};
ghost use Rattle.module_trait.specs.Rows.{IsAscending};
ghost use Rattle.radix_lockless.specs.Trie.{StandsFor};
ghost use Rattle.radix_lockless.specs.Spot.{IsChange, IsLittle};
ghost use Rattle.radix_lockless.specs.Table.{IsEdited, IsSound, working};

use crate::OutOfMemory;
use crate::add::add;
use crate::remove::remove;
use crate::trie::{Trie, spot_of};
use module_trait::{Counting, Edit, Steps, run_apart};
use prefix_width::Prefix;
use std::alloc::Global;
use std::mem;
use std::sync::ledger::Ledger;

/// Gives a prefix an index, or takes it away. There is room for two nodes.
pub(crate) fn set_row<const W: u32, L: Ledger>(
    trie: &mut Trie<W>,
    prefix: &Prefix<W>,
    index: Option<u16>,
    steps: &mut Steps<L>,
)
    requires sound { IsSound (working trie.old) }
    requires room { 2 ≤ trie.old.nodes.spare }
    ensures change { IsChange trie.old trie.new prefix.now index }
    ensures little { IsLittle trie.old trie.new }
{
    let _len = prefix.len();
    let spot = spot_of(&trie.nodes, trie.root, prefix, steps);
    match index {
        Some(index) => add(trie, &spot, prefix, index),
        None => remove(trie, &spot, prefix),
    }
}

/// Edits that are made, the last one first, with a counter.
#[derive(Drop)]
struct Editing<'a, const W: u32> {
    trie: Trie<W>,
    edits: &'a [Edit<W>],
}

impl<'a, const W: u32> Counting for Editing<'a, W> {
    ghost use Rattle.std.specs.Prelude.{◌*◌, ◌≤◌, length};
    ghost use Rattle.radix_lockless.specs.Table.{IsEdited, IsSound, working};

    ghost ready = { λ work. IsSound (working work.trie) × (2 * length work.edits.now ≤ work.trie.nodes.spare) };

    ghost leaves = { λ old new. IsEdited (working old.trie) (working new.trie) old.edits.now × (new.trie.nodes.spare ≤ old.trie.nodes.spare) };

    fn run<L: Ledger>(&mut self, steps: &mut Steps<L>) {
        for i in (0..self.edits.len()).rev() {
            let edit = self.edits[i];
            set_row(&mut self.trie, &edit.prefix(), edit.after(), steps);
        }
    }
}

/// Makes edits. The memory that they may take is taken before the first write.
pub(crate) fn apply<const W: u32>(
    alloc: Global,
    trie: &mut Trie<W>,
    edits: &[Edit<W>],
) -> Result<(), OutOfMemory>
    requires { IsSound (working trie.old) }
    ensures ok { OnOk result (IsEdited (working trie.old) (working trie.new) edits.now) }
    ensures err { OnErr result (working trie.new ≡ working trie.old) }
    ensures room { trie.new.nodes.spare ≤ max trie.old.nodes.spare (2 * length edits.now) }
{
    let room = match edits.len().checked_mul(2) {
        Some(room) => room,
        None => return Err(OutOfMemory),
    };
    trie.nodes.reserve(room)?;
    let mut work = Editing {
        trie: mem::replace(trie, Trie::new(alloc)),
        edits,
    };
    let outcome = run_apart(&mut work, alloc);
    let Editing { trie: after, .. } = work;
    *trie = after;
    outcome
}
