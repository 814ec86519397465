//! What each index of an image stands for.
ghost use Rattle.std.specs.Prelude.{◌≡◌, ℕ, ◌<◌, Some, IsSome, IfOk, length, map, slice_get, option_copied};
ghost use Rattle.std.specs.List.Sorted.{IsStrictlyIncreasing};
ghost use Rattle.engine_set.specs.Entry.{entry_at, entry_index, place_at, resolved, ArePlaced};
ghost use Rattle.engine_set.specs.declared.entry.Entry.{Entry as EntryOf};

use crate::OutOfMemory;
use crate::entry::{Entry, Place};
use std::alloc::Global;
use std::marker::Model;
use std::sync::ArcSlice;

/// What the indexes of a version stand for, seen as a list of entries that ascends by index. It is
/// only read, and copies share it.
#[derive(Drop)]
pub struct Entries {
    entries: ArcSlice<Entry>,
    // One for each index up to the greatest.
    places: ArcSlice<Place>,
}

impl Model for Entries {
    ghost use Rattle.std.specs.Prelude.{List};
    ghost use Rattle.std.specs.Arc.{arc_slice_items};
    ghost use Rattle.engine_set.specs.declared.entry.Entry.{Entry as EntryOf};
    ghost use Rattle.engine_set.specs.Entry.{ArePlaced};

    ghost Value = { List EntryOf };

    ghost view = { λ e. arc_slice_items e.entries };

    ghost invariant = { λ e. ArePlaced (arc_slice_items e.entries) (arc_slice_items e.places) };
}

impl Entries {
    /// These entries, which ascend by index. Where memory is wanting they are given up.
    pub fn new(alloc: Global, entries: Vec<Entry>) -> Result<Entries, OutOfMemory>
        requires { IsStrictlyIncreasing (map entry_index entries.items) }
        ensures { IfOk result (λ made. made ≡ entries.items) }
    {
        let places = places_of(alloc, entries.as_slice())?;
        Ok(Entries {
            entries: ArcSlice::from_vec(entries)?,
            places: ArcSlice::from_vec(places)?,
        })
    }

    /// The same entries, which are shared. It fails only where there are as many copies as can be
    /// counted.
    pub fn copy(&self) -> Result<Entries, OutOfMemory>
        ensures { IfOk result (λ copy. copy ≡ self.now) }
    {
        Ok(Entries {
            entries: self.entries.clone()?,
            places: self.places.clone()?,
        })
    }

    /// How many entries there are.
    pub fn len(&self) -> usize
        ensures value { result ≡ length self.now }
        ensures ascending { IsStrictlyIncreasing (map entry_index self.now) }
    {
        self.entries.len()
    }

    /// The entry at a place of the list. `i` is below their number.
    pub fn entry(&self, i: usize) -> &Entry
        requires { i < length self.now }
        ensures { slice_get self.now i ≡ Some result.now }
    {
        &self.entries.as_slice()[i]
    }

    /// The entry of an index, `None` where it has none.
    pub fn at(&self, index: u16) -> Option<&Entry>
        ensures { option_copied result ≡ entry_at self.now index }
    {
        let place = place_at(self.places.as_slice(), index)?;
        Some(&self.entries.as_slice()[usize::from(place)])
    }

    /// The nexthop's index that an index leads to for a flow.
    pub(crate) fn pick(&self, index: u16, flow: u32) -> u16
        requires { IsSome (entry_at self.now index) }
        ensures { resolved self.now flow (Some index) ≡ Some result }
    {
        match self.places.as_slice()[usize::from(index)] {
            Place::Group(place) => self.entries.as_slice()[usize::from(place)].pick(flow),
            Place::Nexthop(_) => index,
            Place::Vacant => unreachable!(),
        }
    }
}

/// Where the entry of an index stands, if there is one.
fn place_at(places: &[Place], index: u16) -> Option<u16>
    ensures { result ≡ place_at places.now index }
{
    places.get(usize::from(index))?.number()
}

/// The place of each index's entry.
fn places_of(alloc: Global, entries: &[Entry]) -> Result<Vec<Place>, OutOfMemory>
    requires { IsStrictlyIncreasing (map entry_index entries.now) }
    ensures { IfOk result (λ places. ArePlaced entries.now places.items) }
{
    let mut places = vec![in alloc; Place::Vacant; places_len(entries)]?;
    for k in 0..entries.len() {
        let index = entries[k].index();
        places[usize::from(index)] = Place::of(&entries[k], k as u16);
    }
    Ok(places)
}

/// One more than the greatest index.
fn places_len(entries: &[Entry]) -> usize
    requires { IsStrictlyIncreasing (map entry_index entries.now) }
    ensures { (k : ℕ) (e : EntryOf) → slice_get entries.now k ≡ Some e → entry_index e < result }
{
    match entries.last() {
        Some(entry) => usize::from(entry.index()) + 1,
        None => 0,
    }
}
