//! Nodes that are read alone, on shared pages.
ghost use Rattle.std.specs.Prelude.{◌≡◌, ℕ, ◌<◌, ◌≤◌, None, IfOk, IfNone, unwrap_or, option_copied};
ghost use Rattle.module_trait.specs.Nodes.{node_at, frozen_at, paged_at, contents, IsExact, IsBare, IsFilled};

use crate::OutOfMemory;
use crate::node_reads::NodeReads;
use crate::nodes::Nodes;
use crate::pages::{Handle, paged, share};
use crate::steps::Steps;
use slab::Slab;
use std::alloc::Global;
use std::marker::Model;
use std::sync::ledger::Ledger;

/// A copy of a store of nodes, which is only read. Its pages may be shared with the store and with
/// other copies.
#[derive(Drop)]
pub struct FrozenNodes<T, const PAGE: usize> {
    pages: Vec<Handle<T>>,
    // How many of the pages were made for it, and are not shared with the store.
    made: usize,
}

impl<T, const PAGE: usize> Model for FrozenNodes<T, PAGE> {
    ghost use Rattle.std.specs.Prelude.{◌<◌};
    ghost use Rattle.module_trait.specs.Nodes.{Frozen, frozen_code, contents};

    ghost Value = { Frozen T };

    ghost coded = { frozen_code T.code };

    ghost view = { λ f. record { pages = contents f.pages.items; made = f.made } };

    ghost invariant = { λ f. 0 < PAGE };
}

impl<T, const PAGE: usize> NodeReads for FrozenNodes<T, PAGE> {
    type Node = T;

    ghost node = { λ frozen. frozen_at PAGE frozen };

    fn at<L: Ledger>(&self, key: usize, steps: &mut Steps<L>) -> &T {
        steps.tick();
        match &self.pages[key / PAGE] {
            Some(page) => match &page[key % PAGE] {
                Some(node) => node,
                None => unreachable!(),
            },
            None => unreachable!(),
        }
    }
}

impl<T, const PAGE: usize> FrozenNodes<T, PAGE> {
    /// No node at all. A page has room for one node at least.
    pub fn new(alloc: Global) -> FrozenNodes<T, PAGE>
        requires { 0 < PAGE }
        ensures nodes { (key : ℕ) → frozen_at PAGE result key ≡ None }
        ensures made { result.made ≡ 0 }
    {
        FrozenNodes {
            pages: Vec::new(alloc),
            made: 0,
        }
    }

    /// The nodes of these pages, so many of which were made for it.
    pub(crate) fn of(pages: Vec<Handle<T>>, made: usize) -> FrozenNodes<T, PAGE>
        requires { 0 < PAGE }
        ensures pages { result.pages ≡ contents pages.items }
        ensures made { result.made ≡ made }
    {
        FrozenNodes { pages, made }
    }
}

impl<T: Drop, const PAGE: usize> FrozenNodes<T, PAGE> {
    /// The same nodes at the same keys. All pages are shared.
    pub fn copy(&self, alloc: Global) -> Result<FrozenNodes<T, PAGE>, OutOfMemory>
        ensures pages { IfOk result (λ copy. copy.pages ≡ self.now.pages) }
        ensures made { IfOk result (λ copy. copy.made ≡ 0) }
    {
        let pages = share(alloc, &self.pages)?;
        Ok(FrozenNodes { pages, made: 0 })
    }
}

impl<T: Clone + Drop, const PAGE: usize> FrozenNodes<T, PAGE> {
    /// A store with the same nodes at the same keys, which may be written to. A clone of a node is
    /// that node.
    pub fn thaw(&self, alloc: Global) -> Result<Nodes<T, PAGE>, OutOfMemory>
        requires { IsExact T.is_clone }
        ensures same { IfOk result (λ nodes. (key : ℕ) → node_at nodes.slots key ≡ frozen_at PAGE self.now key) }
        ensures spare { IfOk result (λ nodes. nodes.spare ≡ 0) }
        ensures unsettled { IfOk result (λ nodes. nodes.unsettled ≡ 0) }
    {
        let page_count = self.pages.len();
        if page_count > usize::MAX / PAGE {
            return Err(OutOfMemory);
        }
        let slab = rebuilt::<T, PAGE>(alloc, &self.pages, page_count * PAGE)?;
        let pages = share(alloc, &self.pages)?;
        let marks = vec![in alloc; false; page_count]?;
        Ok(Nodes::of(slab, pages, marks))
    }
}

// A slab with the nodes of the pages, at the same keys.
fn rebuilt<T: Clone + Drop, const PAGE: usize>(
    alloc: Global,
    pages: &Vec<Handle<T>>,
    count: usize,
) -> Result<Slab<T>, OutOfMemory>
    requires exact { IsExact T.is_clone }
    requires positive { 0 < PAGE }
    ensures same { IfOk result (λ slab. (key : ℕ) → key < count → paged_at PAGE (contents pages.now.items) key ≡ node_at slab.slots key) }
    ensures past { IfOk result (λ slab. (key : ℕ) → count ≤ key → node_at slab.slots key ≡ None) }
{
    match first_of::<T, PAGE>(pages, count) {
        Some(filler) => {
            let mut slab = filled::<T, PAGE>(alloc, pages, count, filler)?;
            clear::<T, PAGE>(&mut slab, pages, count);
            Ok(slab)
        }
        None => Ok(Slab::new(alloc)),
    }
}

// Some node, if there is one.
fn first_of<T, const PAGE: usize>(pages: &Vec<Handle<T>>, count: usize) -> Option<&T>
    requires { 0 < PAGE }
    ensures { IfNone result (IsBare PAGE (contents pages.now.items) count) }
{
    for key in 0..count {
        if let Some(node) = paged::<T, PAGE>(pages, key) {
            return Some(node);
        }
    }
    None
}

// A slab with a node at each key, the filler where the pages have none. A new slab hands its keys
// out in order, which its contract does not say, so each key is compared.
fn filled<T: Clone + Drop, const PAGE: usize>(
    alloc: Global,
    pages: &Vec<Handle<T>>,
    count: usize,
    filler: &T,
) -> Result<Slab<T>, OutOfMemory>
    requires exact { IsExact T.is_clone }
    requires positive { 0 < PAGE }
    ensures { IfOk result (λ slab. IsFilled PAGE (contents pages.now.items) slab.slots 0 count) }
{
    let mut slab = Slab::with_capacity(alloc, count)?;
    for key in 0..count {
        let node = clone_or(paged::<T, PAGE>(pages, key), filler)?;
        if slab.insert(node)? != key {
            return Err(OutOfMemory);
        }
    }
    Ok(slab)
}

// A clone of the node, or of the filler.
fn clone_or<T: Clone>(node: Option<&T>, filler: &T) -> Result<T, OutOfMemory>
    requires { IsExact T.is_clone }
    ensures { IfOk result (λ made. made ≡ unwrap_or (option_copied node.entry) filler.now) }
{
    match node {
        Some(node) => Ok(node.clone()?),
        None => Ok(filler.clone()?),
    }
}

// Takes the filler out of each key where the pages have none.
fn clear<T: Drop, const PAGE: usize>(slab: &mut Slab<T>, pages: &Vec<Handle<T>>, count: usize)
    requires filled { IsFilled PAGE (contents pages.now.items) slab.old.slots 0 count }
    requires positive { 0 < PAGE }
    ensures { IsFilled PAGE (contents pages.now.items) slab.new.slots count count }
{
    for key in 0..count {
        if paged::<T, PAGE>(pages, key).is_none() {
            slab.try_remove(key);
        }
    }
}
