//! The nodes of a copy.
ghost use Rattle.std.specs.Prelude.{◌≡◌, ℕ, ◌+◌, ◌<◌, ◌≤◌, List, IfOk};
ghost use Rattle.prefix_width.specs.Prefix.{Block};
ghost use Rattle.prefix_width.specs.Longest.{longest};
ghost use Rattle.module_trait.specs.Nodes.{node_at, frozen_at};
ghost use Rattle.module_trait.specs.Rows.{index_of};
ghost use Rattle.radix_lockless.specs.Trie.{StandsFor};

use crate::OutOfMemory;
use crate::find::longest_in;
use crate::key::Key;
use crate::packed::Packed;
use crate::store::{NodeStore, PAGE};
use crate::word::Halves;
use module_trait::{FrozenNodes, Steps};
use prefix_width::Addr;
use std::alloc::Global;
use std::marker::Model;
use std::sync::ledger::Ledger;

/// A copy of the nodes of a trie, which is only read. One of the two is empty.
#[derive(Drop)]
pub(crate) struct FrozenStore<const W: u32> {
    narrow: FrozenNodes<Packed<W, u32>, PAGE>,
    wide: FrozenNodes<Packed<W, Halves>, PAGE>,
}

impl<const W: u32> Model for FrozenStore<W> {
    ghost use Rattle.module_trait.specs.Nodes.{Frozen};
    ghost use Rattle.radix_lockless.specs.declared.node.Node.{Node};
    ghost use Rattle.radix_lockless.specs.Store.{by_width};

    ghost Value = { Frozen (Node W) };

    ghost view = { λ s. by_width W s.narrow s.wide };
}

impl<const W: u32> FrozenStore<W> {
    /// The index of the longest row that contains the address.
    pub(crate) fn longest<L: Ledger>(
        &self,
        root: Option<Key>,
        addr: &Addr<W>,
        steps: &mut Steps<L>,
    ) -> Option<u16>
        requires { (rows : List (Block × ℕ)) × StandsFor (frozen_at PAGE self.now) root rows }
        ensures answer { (rows : List (Block × ℕ)) → StandsFor (frozen_at PAGE self.now) root rows → result ≡ index_of (longest W rows addr.now) }
        ensures cost { steps.new ≤ steps.old + (W + 1) }
    {
        if W <= 32 {
            longest_in(&self.narrow, root, addr, steps)
        } else {
            longest_in(&self.wide, root, addr, steps)
        }
    }

    /// The same nodes at the same keys. All pages are shared.
    pub(crate) fn copy(&self, alloc: Global) -> Result<FrozenStore<W>, OutOfMemory>
        ensures pages { IfOk result (λ copy. copy.pages ≡ self.now.pages) }
        ensures made { IfOk result (λ copy. copy.made ≡ 0) }
    {
        if W <= 32 {
            let narrow = self.narrow.copy(alloc)?;
            Ok(FrozenStore::narrow(alloc, narrow))
        } else {
            let wide = self.wide.copy(alloc)?;
            Ok(FrozenStore::wide(alloc, wide))
        }
    }

    /// A store with the same nodes at the same keys, which may be written to.
    pub(crate) fn thaw(&self, alloc: Global) -> Result<NodeStore<W>, OutOfMemory>
        ensures same { IfOk result (λ nodes. (key : ℕ) → node_at nodes.slots key ≡ frozen_at PAGE self.now key) }
        ensures spare { IfOk result (λ nodes. nodes.spare ≡ 0) }
        ensures unsettled { IfOk result (λ nodes. nodes.unsettled ≡ 0) }
    {
        if W <= 32 {
            let narrow = self.narrow.thaw(alloc)?;
            Ok(NodeStore::narrow(alloc, narrow))
        } else {
            let wide = self.wide.thaw(alloc)?;
            Ok(NodeStore::wide(alloc, wide))
        }
    }

    /// A copy of narrow nodes.
    pub(crate) fn narrow(alloc: Global, narrow: FrozenNodes<Packed<W, u32>, PAGE>) -> FrozenStore<W>
        requires { W ≤ 32 }
        ensures { result ≡ narrow.entry }
    {
        FrozenStore {
            narrow,
            wide: FrozenNodes::new(alloc),
        }
    }

    /// A copy of wide nodes.
    pub(crate) fn wide(alloc: Global, wide: FrozenNodes<Packed<W, Halves>, PAGE>) -> FrozenStore<W>
        requires { 32 < W }
        ensures { result ≡ wide.entry }
    {
        FrozenStore {
            narrow: FrozenNodes::new(alloc),
            wide,
        }
    }
}
