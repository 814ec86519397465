//! What each index of a version stands for.
ghost use Rattle.std.specs.Prelude.{◌≡◌, ℕ, ◌+◌, ◌<◌, length, take, Some, None, IfOk, OnOk, slice_get};
ghost use Rattle.prefix_width.specs.Nexthop.{Hop};
ghost use Rattle.nhgrp_slots.specs.Spread.{hops};
ghost use Rattle.nhgrp_slots.specs.declared.target.Target.TheVariants.{One};
ghost use Rattle.engine_set.specs.Entry.{entry_index};
ghost use Rattle.fib_sync.specs.Entries.{AreMade, AreNamed, IsClosed, KeepIndexes, names_in};
ghost use Rattle.fib_sync.specs.Lawful.{AreEntriesOf, AreSlots, IsEntryOf};

use crate::OutOfMemory;
use crate::indexes::VersionIndexes;
use engine_set::{Entries, Entry};
use nhgrp_slots::{Paths, Slots, Target, compile};
use prefix_width::Nexthop;
use std::alloc::Global;

/// The entries of a version's indexes, ascending. The slots of a group that the version before has
/// too are those of the entries before, and are shared.
pub fn entries_of<X: VersionIndexes<W>, const W: u32>(
    alloc: Global,
    indexes: &X,
    before: &Entries,
) -> Result<Entries, OutOfMemory>
    requires closed { IsClosed (names_in (X.indexes indexes.now)) }
    requires keep { KeepIndexes (X.before indexes.now) (names_in (X.indexes indexes.now)) }
    requires before { AreEntriesOf (X.before indexes.now) before.now }
    ensures { IfOk result (AreEntriesOf (names_in (X.indexes indexes.now))) }
{
    let len = indexes.len();
    let mut entries = Vec::with_capacity(alloc, usize::from(len))?;
    for i in 0..len {
        let (index, target) = indexes.entry(i);
        let entry = entry_of(alloc, indexes, before, index, target)?;
        entries.push(entry)?;
    }
    Entries::new(alloc, entries)
}

/// The entry of an index.
fn entry_of<X: VersionIndexes<W>, const W: u32>(
    alloc: Global,
    indexes: &X,
    before: &Entries,
    index: u16,
    target: &Target<W>,
) -> Result<Entry, OutOfMemory>
    requires closed { IsClosed (names_in (X.indexes indexes.now)) }
    requires keep { KeepIndexes (X.before indexes.now) (names_in (X.indexes indexes.now)) }
    requires before { AreEntriesOf (X.before indexes.now) before.now }
    requires name { names_in (X.indexes indexes.now) index ≡ Some target.now }
    ensures entry { IfOk result (λ e. IsEntryOf (names_in (X.indexes indexes.now)) index (Some target.now) (Some e)) }
    ensures index { IfOk result (λ e. entry_index e ≡ index) }
{
    match target {
        Target::One(_) => Ok(Entry::Nexthop { index }),
        Target::Many(paths) => {
            let slots = slots_of(alloc, indexes, before, index, paths)?;
            Ok(Entry::Group { index, slots })
        }
    }
}

/// The slots of a group, shared where the version before has the group too.
fn slots_of<X: VersionIndexes<W>, const W: u32>(
    alloc: Global,
    indexes: &X,
    before: &Entries,
    index: u16,
    paths: &Paths<W>,
) -> Result<Slots, OutOfMemory>
    requires named { AreNamed (names_in (X.indexes indexes.now)) paths.now }
    requires keep { KeepIndexes (X.before indexes.now) (names_in (X.indexes indexes.now)) }
    requires before { AreEntriesOf (X.before indexes.now) before.now }
    requires name { names_in (X.indexes indexes.now) index ≡ Some (Target.Many paths.now) }
    ensures { IfOk result (AreSlots (names_in (X.indexes indexes.now)) paths.now) }
{
    // What all paths know of their layout.
    let _spread = paths.len();
    if indexes.is_kept(index) {
        if let Some(Entry::Group { slots, .. }) = before.at(index) {
            return slots.copy(alloc);
        }
    }
    let of_paths = path_indexes(alloc, indexes, paths)?;
    compile(alloc, paths, of_paths.as_slice())
}

/// The index of each path's nexthop.
fn path_indexes<X: VersionIndexes<W>, const W: u32>(
    alloc: Global,
    indexes: &X,
    paths: &Paths<W>,
) -> Result<Vec<u16>, OutOfMemory>
    requires { AreNamed (names_in (X.indexes indexes.now)) paths.now }
    ensures same { IfOk result (λ v. length v.items ≡ length paths.now.paths) }
    ensures names { IfOk result (λ v. (k i : ℕ) (h : Hop) → slice_get v.items k ≡ Some i → slice_get (hops paths.now) k ≡ Some h → names_in (X.indexes indexes.now) i ≡ Some (One h)) }
{
    let mut of_paths = Vec::new(alloc);
    let paths = paths.as_slice();
    for path in paths {
        let Some(index) = nexthop_index(indexes, *path.nexthop()) else {
            unreachable!()
        };
        of_paths.push(index)?;
    }
    Ok(of_paths)
}

/// An index of a nexthop, if it has one.
fn nexthop_index<X: VersionIndexes<W>, const W: u32>(
    indexes: &X,
    nexthop: Nexthop<W>,
) -> Option<u16>
    ensures found { (i : ℕ) → result ≡ Some i → names_in (X.indexes indexes.now) i ≡ Some (One nexthop.entry) }
    ensures none { result ≡ None → (i : ℕ) → names_in (X.indexes indexes.now) i ≡ Some (One nexthop.entry) → ⊥ }
{
    indexes.index_of(&Target::One(nexthop))
}
