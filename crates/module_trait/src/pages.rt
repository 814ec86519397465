//! How nodes lie on pages.
ghost use Rattle.std.specs.Prelude.{◌≡◌, ℕ, ◌+◌, ◌*◌, ◌/◌, ◌^◌, ◌<◌, ◌≤◌, None, length, OnOk, OnErr, IfOk, option_copied, slice_index_or, slice_set, true, false};
ghost use Rattle.module_trait.specs.Nodes.{node_at, paged_at, contents, cells_of, marked, IsExact, IsKept, IsPageOf, AreUnmarked, SameNodes};

use crate::OutOfMemory;
use slab::Slab;
use std::alloc::Global;
use std::sync::Arc;

/// What the keys of a page have. It ends with the last of them that is in use.
pub(crate) type Page<T> = Vec<Option<T>>;

/// A page that copies may share. Where none of its keys is in use there may be none.
pub(crate) type Handle<T> = Option<Arc<Page<T>>>;

/// The node at a key, if there is one.
pub(crate) fn paged<T, const PAGE: usize>(pages: &Vec<Handle<T>>, key: usize) -> Option<&T>
    requires { 0 < PAGE }
    ensures { option_copied result ≡ paged_at PAGE (contents pages.now.items) key }
{
    match pages.get(key / PAGE) {
        Some(Some(page)) => match page.get(key % PAGE) {
            Some(Some(node)) => Some(node),
            _ => None,
        },
        _ => None,
    }
}

/// Marks the page of this key, if there is one.
pub(crate) fn mark<const PAGE: usize>(marks: &mut Vec<bool>, key: usize)
    requires { 0 < PAGE }
    ensures { marks.new.items ≡ slice_set marks.old.items (key / PAGE) true }
{
    let page = key / PAGE;
    if page < marks.len() {
        marks[page] = true;
    }
}

/// Room for the page of each key that the slab may give: pages without a node, and not marked.
pub(crate) fn cover<T: Drop, const PAGE: usize>(
    slab: &Slab<T>,
    pages: &mut Vec<Handle<T>>,
    marks: &mut Vec<bool>,
) -> Result<(), OutOfMemory>
    requires { IsKept PAGE slab.now.slots (contents pages.old.items) marks.old.items }
    ensures kept { IsKept PAGE slab.now.slots (contents pages.new.items) marks.new.items }
    ensures whole { OnOk result (slab.now.capacity ≤ length (contents pages.new.items) * PAGE) }
    ensures marked { marked marks.new.items ≡ marked marks.old.items }
{
    let last = slab.capacity() / PAGE;
    if last >= usize::MAX / PAGE {
        return Err(OutOfMemory);
    }
    for page in pages.len()..last + 1 {
        marks.reserve(1)?;
        pages.push(None)?;
        marks.push_reserved(false);
    }
    Ok(())
}

// What a key has.
fn slot_at<T: Clone + Drop>(slab: &Slab<T>, key: usize) -> Result<Option<T>, OutOfMemory>
    requires { IsExact T.is_clone }
    ensures { IfOk result (λ slot. slot ≡ node_at slab.now.slots key) }
{
    match slab.get(key) {
        Some(node) => Ok(Some(node.clone()?)),
        None => Ok(None),
    }
}

// How many slots of a page there are up to the last of its keys that is in use.
fn slots_in<T: Drop, const PAGE: usize>(slab: &Slab<T>, base: usize) -> usize
    requires { base + PAGE ≤ 2 ^ 64 }
    ensures most { result ≤ PAGE }
    ensures rest { (i : ℕ) → result ≤ i → i < PAGE → node_at slab.now.slots (base + i) ≡ None }
{
    for i in (0..PAGE).rev() {
        if slab.contains(base + i) {
            return i + 1;
        }
    }
    0
}

// A page of the slots of its keys, up to the last one in use.
fn page_at<T: Clone + Drop, const PAGE: usize>(
    alloc: Global,
    slab: &Slab<T>,
    page: usize,
) -> Result<Handle<T>, OutOfMemory>
    requires exact { IsExact T.is_clone }
    requires fits { (page + 1) * PAGE ≤ 2 ^ 64 }
    ensures { IfOk result (λ made. IsPageOf PAGE slab.now.slots page (cells_of made)) }
{
    let base = page * PAGE;
    let count = slots_in::<T, PAGE>(slab, base);
    if count == 0 {
        return Ok(None);
    }
    let cells = slots_at(alloc, slab, base, count)?;
    Ok(Some(Arc::new(alloc, cells)?))
}

// The slots of so many keys.
fn slots_at<T: Clone + Drop>(
    alloc: Global,
    slab: &Slab<T>,
    base: usize,
    count: usize,
) -> Result<Vec<Option<T>>, OutOfMemory>
    requires exact { IsExact T.is_clone }
    requires fits { base + count ≤ 2 ^ 64 }
    ensures len { IfOk result (λ cells. length cells.items ≡ count) }
    ensures cells { IfOk result (λ cells. (i : ℕ) → i < count → slice_index_or cells.items i None ≡ node_at slab.now.slots (base + i)) }
{
    let mut cells = Vec::with_capacity(alloc, count)?;
    for i in 0..count {
        cells.push(slot_at(slab, base + i)?)?;
    }
    Ok(cells)
}

/// Makes each marked page anew, and takes its mark away.
pub(crate) fn renew<T: Clone + Drop, const PAGE: usize>(
    alloc: Global,
    slab: &Slab<T>,
    pages: &mut Vec<Handle<T>>,
    marks: &mut Vec<bool>,
) -> Result<(), OutOfMemory>
    requires exact { IsExact T.is_clone }
    requires kept { IsKept PAGE slab.now.slots (contents pages.old.items) marks.old.items }
    ensures kept { IsKept PAGE slab.now.slots (contents pages.new.items) marks.new.items }
    ensures len { length pages.new.items ≡ length pages.old.items }
    ensures none { OnOk result (marked marks.new.items ≡ 0) }
    ensures fewer { marked marks.new.items ≤ marked marks.old.items }
{
    for page in 0..marks.len() {
        if marks[page] {
            renew_page::<T, PAGE>(alloc, slab, pages, marks, page)?;
        }
    }
    Ok(())
}

// Makes a page anew, and takes its mark away.
fn renew_page<T: Clone + Drop, const PAGE: usize>(
    alloc: Global,
    slab: &Slab<T>,
    pages: &mut Vec<Handle<T>>,
    marks: &mut Vec<bool>,
    page: usize,
) -> Result<(), OutOfMemory>
    requires exact { IsExact T.is_clone }
    requires kept { IsKept PAGE slab.now.slots (contents pages.old.items) marks.old.items }
    requires within { page < length marks.old.items }
    ensures kept { IsKept PAGE slab.now.slots (contents pages.new.items) marks.new.items }
    ensures len { length pages.new.items ≡ length pages.old.items }
    ensures ok { OnOk result (marks.new.items ≡ slice_set marks.old.items page false) }
    ensures err { OnErr result (marks.new.items ≡ marks.old.items) }
{
    let made = page_at::<T, PAGE>(alloc, slab, page)?;
    pages[page] = made;
    marks[page] = false;
    Ok(())
}

/// Pages of all keys in use, shared where they are not marked. Beside them, how many were made.
pub(crate) fn pages_of<T: Clone + Drop, const PAGE: usize>(
    alloc: Global,
    slab: &Slab<T>,
    pages: &Vec<Handle<T>>,
    marks: &Vec<bool>,
) -> Result<(Vec<Handle<T>>, usize), OutOfMemory>
    requires exact { IsExact T.is_clone }
    requires kept { IsKept PAGE slab.now.slots (contents pages.now.items) marks.now.items }
    ensures same { IfOk result (λ shared. SameNodes PAGE (contents shared.0.items) slab.now.slots) }
    ensures made { IfOk result (λ shared. shared.1 ≡ marked marks.now.items) }
{
    let mut shared = Vec::with_capacity(alloc, pages.len())?;
    let mut made = 0;
    for page in 0..pages.len() {
        if marks[page] {
            shared.push(page_at::<T, PAGE>(alloc, slab, page)?)?;
            made += 1;
        } else {
            shared.push(owner_of(&pages[page])?)?;
        }
    }
    Ok((shared, made))
}

// One more owner of a page.
fn owner_of<T: Drop>(page: &Handle<T>) -> Result<Handle<T>, OutOfMemory>
    ensures { IfOk result (λ owner. cells_of owner ≡ cells_of page.now) }
{
    match page {
        Some(page) => Ok(Some(Arc::try_clone(page)?)),
        None => Ok(None),
    }
}

/// One more owner of each page.
pub(crate) fn share<T: Drop>(
    alloc: Global,
    pages: &Vec<Handle<T>>,
) -> Result<Vec<Handle<T>>, OutOfMemory>
    ensures { IfOk result (λ shared. contents shared.items ≡ contents pages.now.items) }
{
    let mut shared = Vec::with_capacity(alloc, pages.len())?;
    for page in pages {
        shared.push(owner_of(page)?)?;
    }
    Ok(shared)
}
