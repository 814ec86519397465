//! The indexes of a version and of the one before it.
ghost use Rattle.std.specs.Prelude.{◌≡◌, ℕ, ◌<◌, Some, None, IfOk, true, length, slice_get};
ghost use Rattle.std.specs.List.Sorted.{IsStrictlySortedBy};
ghost use Rattle.std.specs.Map.{keys_of};
ghost use Rattle.std.specs.Ordering.{nat_cmp};
ghost use Rattle.nhop_index.specs.Indexes.{by_index, target_at};
ghost use Rattle.fib_sync.specs.Entries.{IsClosed, KeepIndexes, names_in};
ghost use Rattle.fib_sync.specs.Lawful.{AreEntriesOf};

use crate::OutOfMemory;
use crate::entries::entries_of;
use crate::indexes::VersionIndexes;
use engine_set::Entries;
use nhgrp_slots::Target;
use nhop_index::Indexes;
use std::alloc::Global;
use std::cmp::Ordering;

/// The indexes of a version, beside those of the version before.
#[derive(Drop)]
pub(crate) struct IndexPair<'a, const W: u32, const K: u64, const LIVE: u32> {
    pub(crate) indexes: &'a Indexes<W, K, LIVE>,
    pub(crate) last: &'a Indexes<W, K, LIVE>,
}

impl<const W: u32, const K: u64, const LIVE: u32> VersionIndexes<W> for IndexPair<'_, W, K, LIVE> {
    ghost indexes = { λ p. by_index p.indexes.now.names };

    ghost before = { λ p i. target_at p.last.now.names i };

    fn len(&self) -> u16 {
        self.indexes.len()
    }

    fn entry(&self, i: u16) -> (u16, &Target<W>) {
        self.indexes.entry(i)
    }

    fn index_of(&self, target: &Target<W>) -> Option<u16> {
        // What every version knows of its indexes.
        let _len = self.indexes.len();
        self.indexes.index_of(target)
    }

    fn is_kept(&self, index: u16) -> bool {
        match (self.last.target_of(index), self.indexes.target_of(index)) {
            (Some(before), Some(target)) => are_same(before, target),
            _ => false,
        }
    }
}

/// The entries of a version's indexes, where these are those of the version before. They are
/// shared where no index changes.
pub(crate) fn entries_after<const W: u32, const K: u64, const LIVE: u32>(
    alloc: Global,
    last: &Indexes<W, K, LIVE>,
    indexes: &Indexes<W, K, LIVE>,
    before: &Entries,
) -> Result<Entries, OutOfMemory>
    requires closed { IsClosed (target_at indexes.now.names) }
    requires keep { KeepIndexes (target_at last.now.names) (target_at indexes.now.names) }
    requires before { AreEntriesOf (target_at last.now.names) before.now }
    ensures { IfOk result (AreEntriesOf (target_at indexes.now.names)) }
{
    if have_same(last, indexes) {
        return before.copy();
    }
    entries_of(alloc, &IndexPair { indexes, last }, before)
}

/// Whether two versions are seen to have the same indexes.
fn have_same<const W: u32, const K: u64, const LIVE: u32>(
    last: &Indexes<W, K, LIVE>,
    indexes: &Indexes<W, K, LIVE>,
) -> bool
    ensures { result ≡ true → by_index last.now.names ≡ by_index indexes.now.names }
{
    let len = indexes.len();
    if last.len() != len {
        return false;
    }
    if !indexes.fresh().is_empty() {
        return false;
    }
    for i in 0..len {
        let (index, target) = indexes.entry(i);
        let (other_index, other) = last.entry(i);
        if index != other_index || !are_same(target, other) {
            return false;
        }
    }
    true
}

/// Whether two targets are seen to be the same.
fn are_same<const W: u32>(target: &Target<W>, other: &Target<W>) -> bool
    ensures { result ≡ true → target.now ≡ other.now }
{
    match target.order(other) {
        Ordering::Equal => true,
        Ordering::Less | Ordering::Greater => false,
    }
}
