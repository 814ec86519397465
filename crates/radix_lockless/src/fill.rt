//! A trie of all rows.
ghost use Rattle.std.specs.Prelude.{◌≡◌, ◌*◌, ◌≤◌, [], length, IfOk};
ghost use Rattle.module_trait.specs.Nodes.{node_at};
ghost use Rattle.module_trait.specs.Rows.{IsAscending};
ghost use Rattle.radix_lockless.specs.Trie.{StandsFor};

use crate::OutOfMemory;
use crate::edits::set_row;
use crate::trie::Trie;
use module_trait::{Counting, Steps, run_apart};
use prefix_width::Prefix;
use std::alloc::Global;
use std::sync::ledger::Ledger;

/// Rows that are added to an empty trie one by one, with a counter.
#[derive(Drop)]
struct Filling<'a, const W: u32> {
    trie: Trie<W>,
    rows: &'a [(Prefix<W>, u16)],
}

impl<'a, const W: u32> Counting for Filling<'a, W> {
    ghost use Rattle.std.specs.Prelude.{◌*◌, ◌≤◌, [], length};
    ghost use Rattle.module_trait.specs.Nodes.{node_at};
    ghost use Rattle.module_trait.specs.Rows.{IsAscending};
    ghost use Rattle.radix_lockless.specs.Trie.{StandsFor};

    ghost ready = { λ work. IsAscending work.rows.now × (2 * length work.rows.now ≤ work.trie.nodes.spare) × StandsFor (node_at work.trie.nodes.slots) work.trie.root [] };

    ghost leaves = { λ old new. StandsFor (node_at new.trie.nodes.slots) new.trie.root old.rows.now };

    fn run<L: Ledger>(&mut self, steps: &mut Steps<L>) {
        for i in 0..self.rows.len() {
            let row = self.rows[i];
            set_row(&mut self.trie, &row.0, Some(row.1), steps);
        }
    }
}

/// A trie of these rows, whose prefixes ascend. The memory is taken before the first row.
pub(crate) fn filled<const W: u32>(
    alloc: Global,
    rows: &[(Prefix<W>, u16)],
) -> Result<Trie<W>, OutOfMemory>
    requires { IsAscending rows.now }
    ensures { IfOk result (λ trie. StandsFor (node_at trie.nodes.slots) trie.root rows.now) }
{
    let room = match rows.len().checked_mul(2) {
        Some(room) => room,
        None => return Err(OutOfMemory),
    };
    let mut trie = Trie::new(alloc);
    trie.nodes.reserve(room)?;
    let mut work = Filling { trie, rows };
    run_apart(&mut work, alloc)?;
    let Filling { trie: after, .. } = work;
    Ok(after)
}
