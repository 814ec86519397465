//! The nodes of a trie that takes changes.
ghost use Rattle.std.specs.Prelude.{◌≡◌, ℕ, ◌+◌, ◌<◌, ◌≤◌, List, [], Some, None, IsSome, IfOk, OnOk, max};
ghost use Rattle.prefix_width.specs.Prefix.{Block};
ghost use Rattle.prefix_width.specs.Longest.{longest};
ghost use Rattle.module_trait.specs.Nodes.{Updates, node_at, frozen_at};
ghost use Rattle.module_trait.specs.Rows.{index_of};
ghost use Rattle.radix_lockless.specs.Store.{by_width};
ghost use Rattle.radix_lockless.specs.Trie.{StandsFor};

use crate::OutOfMemory;
use crate::find::longest_in;
use crate::frozen_store::FrozenStore;
use crate::key::Key;
use crate::node::Node;
use crate::packed::Packed;
use crate::word::Halves;
use module_trait::{NodeReads, Nodes, Steps};
use prefix_width::Addr;
use std::alloc::Global;
use std::marker::Model;
use std::sync::ledger::Ledger;

/// How many keys share a page.
pub(crate) const PAGE: usize = 2_048;

/// The nodes of a trie, which may be written to. They are kept as narrow as their addresses allow,
/// so one of the two is empty.
#[derive(Drop)]
pub(crate) struct NodeStore<const W: u32> {
    narrow: Nodes<Packed<W, u32>, PAGE>,
    wide: Nodes<Packed<W, Halves>, PAGE>,
}

impl<const W: u32> Model for NodeStore<W> {
    ghost use Rattle.module_trait.specs.Nodes.{Store};
    ghost use Rattle.radix_lockless.specs.declared.node.Node.{Node};
    ghost use Rattle.radix_lockless.specs.Store.{by_width};

    ghost Value = { Store (Node W) };

    ghost view = { λ s. by_width W s.narrow s.wide };
}

impl<const W: u32> NodeStore<W> {
    /// No node at all, and no room.
    pub(crate) fn new(alloc: Global) -> NodeStore<W>
        ensures slots { result.slots ≡ [] }
        ensures spare { result.spare ≡ 0 }
        ensures unsettled { result.unsettled ≡ 0 }
    {
        NodeStore {
            narrow: Nodes::new(alloc),
            wide: Nodes::new(alloc),
        }
    }

    /// How many bytes a node takes.
    pub(crate) fn node_size() -> usize
        ensures { result ≡ by_width W 16 32 }
    {
        if W <= 32 {
            size_of::<Packed<W, u32>>()
        } else {
            size_of::<Packed<W, Halves>>()
        }
    }

    /// Makes room for `n` more nodes.
    pub(crate) fn reserve(&mut self, n: usize) -> Result<(), OutOfMemory>
        ensures spare { OnOk result (self.new.spare ≡ max self.old.spare n) }
        ensures slots { self.new.slots ≡ self.old.slots }
        ensures unsettled { self.new.unsettled ≡ self.old.unsettled }
        ensures most { self.new.spare ≤ max self.old.spare n }
    {
        if W <= 32 {
            self.narrow.reserve(n)
        } else {
            self.wide.reserve(n)
        }
    }

    /// Puts a node at a vacant key, which is the answer. It takes no memory.
    pub(crate) fn put(&mut self, node: &Node<W>) -> Key
        requires { 1 ≤ self.old.spare }
        ensures vacant { node_at self.old.slots result ≡ None }
        ensures updates { Updates self.old.slots self.new.slots result (Some node.now) }
        ensures spare { self.new.spare + 1 ≡ self.old.spare }
        ensures unsettled { self.new.unsettled ≤ self.old.unsettled + 1 }
    {
        // Its length tells that W is at most 128, which the wide form wants.
        let _len = node.prefix.len();
        let key = if W <= 32 {
            self.narrow.put(Packed::of(node))
        } else {
            self.wide.put(Packed::of(node))
        };
        Key::new(key)
    }

    /// Puts another node at a key that has one. It takes no memory.
    pub(crate) fn set(&mut self, key: Key, node: &Node<W>)
        requires { IsSome (node_at self.old.slots key) }
        ensures updates { Updates self.old.slots self.new.slots key (Some node.now) }
        ensures spare { self.new.spare ≡ self.old.spare }
        ensures unsettled { self.new.unsettled ≤ self.old.unsettled + 1 }
    {
        // As in `put`.
        let _len = node.prefix.len();
        if W <= 32 {
            self.narrow.set(key.number(), Packed::of(node))
        } else {
            self.wide.set(key.number(), Packed::of(node))
        }
    }

    /// Takes the node at a key out. It takes no memory.
    pub(crate) fn take(&mut self, key: Key)
        requires { IsSome (node_at self.old.slots key) }
        ensures updates { Updates self.old.slots self.new.slots key None }
        ensures spare { self.new.spare ≡ self.old.spare }
        ensures unsettled { self.new.unsettled ≤ self.old.unsettled + 1 }
    {
        if W <= 32 {
            self.narrow.take(key.number());
        } else {
            self.wide.take(key.number());
        }
    }

    /// The node at a key, in one step.
    pub(crate) fn at<L: Ledger>(&self, key: Key, steps: &mut Steps<L>) -> Node<W>
        requires { IsSome (node_at self.now.slots key) }
        ensures value { node_at self.now.slots key ≡ Some result }
        ensures cost { steps.new ≡ steps.old + 1 }
    {
        if W <= 32 {
            self.narrow.at(key.number(), steps).node()
        } else {
            self.wide.at(key.number(), steps).node()
        }
    }

    /// The index of the longest row that contains the address.
    pub(crate) fn longest<L: Ledger>(
        &self,
        root: Option<Key>,
        addr: &Addr<W>,
        steps: &mut Steps<L>,
    ) -> Option<u16>
        requires { (rows : List (Block × ℕ)) × StandsFor (node_at self.now.slots) root rows }
        ensures answer { (rows : List (Block × ℕ)) → StandsFor (node_at self.now.slots) root rows → result ≡ index_of (longest W rows addr.now) }
        ensures cost { steps.new ≤ steps.old + (W + 1) }
    {
        if W <= 32 {
            longest_in(&self.narrow, root, addr, steps)
        } else {
            longest_in(&self.wide, root, addr, steps)
        }
    }

    /// Makes the pages that were written to anew, so that copies share all of them.
    pub(crate) fn settle(&mut self, alloc: Global) -> Result<(), OutOfMemory>
        ensures slots { self.new.slots ≡ self.old.slots }
        ensures none { OnOk result (self.new.unsettled ≡ 0) }
    {
        if W <= 32 {
            self.narrow.settle(alloc)
        } else {
            self.wide.settle(alloc)
        }
    }

    /// A frozen copy: the same nodes at the same keys.
    pub(crate) fn copy(&self, alloc: Global) -> Result<FrozenStore<W>, OutOfMemory>
        ensures same { IfOk result (λ frozen. (key : ℕ) → frozen_at PAGE frozen key ≡ node_at self.now.slots key) }
        ensures made { IfOk result (λ frozen. frozen.made ≤ self.now.unsettled) }
    {
        if W <= 32 {
            let narrow = self.narrow.copy(alloc)?;
            Ok(FrozenStore::narrow(alloc, narrow))
        } else {
            let wide = self.wide.copy(alloc)?;
            Ok(FrozenStore::wide(alloc, wide))
        }
    }

    /// A store of narrow nodes.
    pub(crate) fn narrow(alloc: Global, narrow: Nodes<Packed<W, u32>, PAGE>) -> NodeStore<W>
        requires { W ≤ 32 }
        ensures { result ≡ narrow.entry }
    {
        NodeStore {
            narrow,
            wide: Nodes::new(alloc),
        }
    }

    /// A store of wide nodes.
    pub(crate) fn wide(alloc: Global, wide: Nodes<Packed<W, Halves>, PAGE>) -> NodeStore<W>
        requires { 32 < W }
        ensures { result ≡ wide.entry }
    {
        NodeStore {
            narrow: Nodes::new(alloc),
            wide,
        }
    }
}
