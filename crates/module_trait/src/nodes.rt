//! Nodes by their keys, whose copies share pages.
ghost use Rattle.std.specs.Prelude.{◌≡◌, ℕ, ◌+◌, ◌<◌, ◌≤◌, [], Some, None, IsSome, IfOk, OnOk, length, max};
ghost use Rattle.module_trait.specs.Nodes.{node_at, frozen_at, contents, marked, Updates, IsExact, IsKept};

use crate::OutOfMemory;
use crate::frozen::FrozenNodes;
use crate::node_reads::NodeReads;
use crate::pages::{Handle, cover, mark, pages_of, renew};
use crate::steps::Steps;
use slab::Slab;
use std::alloc::Global;
use std::marker::Model;
use std::sync::ledger::Ledger;

/// Every key is below this, so that 32 bits hold it and 65,536 numbers of 32 bits are no key.
pub const KEYS_MAX: usize = 4_294_901_760;

/// A store of nodes under keys that it picks, `PAGE` of which share a page. Beside the nodes stand
/// the pages of the last snapshot, which copies share, and a mark for each page that a write has
/// touched since. A copy raises one count for each page and makes those anew that were written to,
/// so fewer and longer pages cost a small table more and a large one less.
#[derive(Drop)]
pub struct Nodes<T, const PAGE: usize> {
    slab: Slab<T>,
    pages: Vec<Handle<T>>,
    // One for each page.
    marks: Vec<bool>,
    // How many more nodes were made room for.
    spare: usize,
}

impl<T, const PAGE: usize> Model for Nodes<T, PAGE> {
    ghost use Rattle.std.specs.Prelude.{◌*◌, length};
    ghost use Rattle.slab.specs.Slab.{slab_len};
    ghost use Rattle.module_trait.specs.Nodes.{Store, store_code, HasRoom, IsKept, contents, marked};

    ghost Value = { Store T };

    ghost coded = { store_code T.code };

    ghost view = { λ n. record { slots = n.slab.slots; spare = n.spare; unsettled = marked n.marks.items } };

    ghost invariant = { λ n. IsKept PAGE n.slab.slots (contents n.pages.items) n.marks.items × HasRoom n.spare n.slab.capacity (slab_len n.slab) (length n.pages.items * PAGE) };
}

impl<T, const PAGE: usize> Nodes<T, PAGE> {
    /// The nodes of a slab, beside pages that are kept.
    pub(crate) fn of(slab: Slab<T>, pages: Vec<Handle<T>>, marks: Vec<bool>) -> Nodes<T, PAGE>
        requires { IsKept PAGE slab.slots (contents pages.items) marks.items }
        ensures slots { result.slots ≡ slab.slots }
        ensures spare { result.spare ≡ 0 }
        ensures unsettled { result.unsettled ≡ marked marks.items }
    {
        Nodes {
            slab,
            pages,
            marks,
            spare: 0,
        }
    }
}

impl<T: Drop, const PAGE: usize> Nodes<T, PAGE> {
    /// No node at all, and no room. A page has room for one node at least.
    pub fn new(alloc: Global) -> Nodes<T, PAGE>
        requires { 0 < PAGE }
        ensures slots { result.slots ≡ [] }
        ensures spare { result.spare ≡ 0 }
        ensures unsettled { result.unsettled ≡ 0 }
    {
        Nodes {
            slab: Slab::new(alloc),
            pages: Vec::new(alloc),
            marks: Vec::new(alloc),
            spare: 0,
        }
    }

    /// Makes room for `n` more nodes, where there is less. There is none past [`KEYS_MAX`], which
    /// is told as want of memory.
    pub fn reserve(&mut self, n: usize) -> Result<(), OutOfMemory>
        ensures spare { OnOk result (self.new.spare ≡ max self.old.spare n) }
        ensures slots { self.new.slots ≡ self.old.slots }
        ensures unsettled { self.new.unsettled ≡ self.old.unsettled }
        ensures most { self.new.spare ≤ max self.old.spare n }
    {
        if n <= self.spare {
            return Ok(());
        }
        // What there was is not known any more where the slab grows and the pages do not.
        self.spare = 0;
        self.slab.reserve(n)?;
        if self.slab.capacity() > KEYS_MAX {
            return Err(OutOfMemory);
        }
        cover::<T, PAGE>(&self.slab, &mut self.pages, &mut self.marks)?;
        self.spare = n;
        Ok(())
    }

    /// Puts a node at a vacant key, which is the answer. It takes no memory. Room for one more was
    /// reserved.
    pub fn put(&mut self, node: T) -> usize
        requires { 1 ≤ self.old.spare }
        ensures vacant { node_at self.old.slots result ≡ None }
        ensures bound { result < KEYS_MAX }
        ensures updates { Updates self.old.slots self.new.slots result (Some node) }
        ensures spare { self.new.spare + 1 ≡ self.old.spare }
        ensures unsettled { self.new.unsettled ≤ self.old.unsettled + 1 }
    {
        let key = self.slab.insert_reserved(node);
        mark::<PAGE>(&mut self.marks, key);
        self.spare -= 1;
        key
    }

    /// Puts another node at a key that has one. It takes no memory.
    pub fn set(&mut self, key: usize, node: T)
        requires { IsSome (node_at self.old.slots key) }
        ensures updates { Updates self.old.slots self.new.slots key (Some node) }
        ensures spare { self.new.spare ≡ self.old.spare }
        ensures unsettled { self.new.unsettled ≤ self.old.unsettled + 1 }
    {
        self.slab[key] = node;
        mark::<PAGE>(&mut self.marks, key);
    }

    /// Takes the node at a key out. It takes no memory.
    pub fn take(&mut self, key: usize) -> T
        requires { IsSome (node_at self.old.slots key) }
        ensures value { node_at self.old.slots key ≡ Some result }
        ensures updates { Updates self.old.slots self.new.slots key None }
        ensures spare { self.new.spare ≡ self.old.spare }
        ensures unsettled { self.new.unsettled ≤ self.old.unsettled + 1 }
    {
        let node = self.slab.remove(key);
        mark::<PAGE>(&mut self.marks, key);
        node
    }
}

impl<T, const PAGE: usize> NodeReads for Nodes<T, PAGE> {
    type Node = T;

    ghost node = { λ nodes. node_at nodes.slots };

    fn at<L: Ledger>(&self, key: usize, steps: &mut Steps<L>) -> &T {
        steps.tick();
        &self.slab[key]
    }
}

impl<T: Clone + Drop, const PAGE: usize> Nodes<T, PAGE> {
    /// Makes the pages that were written to anew, so that copies share all of them. A clone of a
    /// node is that node.
    pub fn settle(&mut self, alloc: Global) -> Result<(), OutOfMemory>
        requires { IsExact T.is_clone }
        ensures slots { self.new.slots ≡ self.old.slots }
        ensures spare { self.new.spare ≡ self.old.spare }
        ensures none { OnOk result (self.new.unsettled ≡ 0) }
        ensures fewer { self.new.unsettled ≤ self.old.unsettled }
    {
        renew::<T, PAGE>(alloc, &self.slab, &mut self.pages, &mut self.marks)
    }

    /// A frozen copy: the same nodes at the same keys. It shares each page that was not written to
    /// since [`Nodes::settle`], and makes the others for this copy alone. A clone of a node is that
    /// node.
    pub fn copy(&self, alloc: Global) -> Result<FrozenNodes<T, PAGE>, OutOfMemory>
        requires { IsExact T.is_clone }
        ensures same { IfOk result (λ frozen. (key : ℕ) → frozen_at PAGE frozen key ≡ node_at self.now.slots key) }
        ensures made { IfOk result (λ frozen. frozen.made ≤ self.now.unsettled) }
    {
        let (pages, made) = pages_of::<T, PAGE>(alloc, &self.slab, &self.pages, &self.marks)?;
        Ok(FrozenNodes::of(pages, made))
    }
}

#[cfg(test)]
impl<T, const PAGE: usize> Nodes<T, PAGE> {
    /// How many nodes there is memory for.
    pub(crate) fn capacity(&self) -> usize {
        self.slab.capacity()
    }
}
