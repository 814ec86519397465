//! The targets of a version with their indexes.
ghost use Rattle.std.specs.Prelude.{◌≡◌, length};
ghost use Rattle.std.specs.List.Sorted.{IsSearchInRange};
ghost use Rattle.nhgrp_slots.specs.Target.{target_cmp, target_of};
ghost use Rattle.nhop_index.specs.Table.{index_at};

use crate::OutOfMemory;
use crate::places::{order_of, place_at, places_of};
use nhgrp_slots::{Paths, Target};
use std::alloc::Global;
use std::cmp::Ordering;
use std::marker::Model;

/// The targets of a version in their order, each with its index, and where each index stands.
#[derive(Drop)]
pub(crate) struct NameTable<const W: u32> {
    names: Vec<(Target<W>, u16)>,
    places: Vec<Option<u16>>,
    order: Vec<u16>,
}

impl<const W: u32> Model for NameTable<W> {
    ghost use Rattle.std.specs.Prelude.{List, ℕ};
    ghost use Rattle.nhgrp_slots.specs.Target.{target_cmp};
    ghost use Rattle.nhgrp_slots.specs.declared.target.Target.{Target};
    ghost use Rattle.nhop_index.specs.Table.{IsNameTable};

    ghost Value = { List (Target W × ℕ) };

    ghost view = { λ t. t.names.items };

    ghost invariant = { λ t. IsNameTable target_cmp t.names.items t.places.items t.order.items };
}

impl<const W: u32> NameTable<W> {
    ghost use Rattle.std.specs.Prelude.{◌≡◌, ℕ, ◌<◌, ◌≤◌, ◌-◌, IfOk, Some, true, length, slice_get, option_copied, IsTrue, ◌↔◌};
    ghost use Rattle.std.specs.List.Sorted.{IsStrictlySortedBy};
    ghost use Rattle.std.specs.Map.{keys_of, values_of};
    ghost use Rattle.nhgrp_slots.specs.Target.{target_cmp, target_of};
    ghost use Rattle.nhop_index.specs.Indexes.{is_used, index_in, by_index, target_at};
    ghost use Rattle.nhop_index.specs.Table.{IsEnd};

    /// The table of these targets.
    pub(crate) fn new(
        alloc: Global,
        names: Vec<(Target<W>, u16)>,
    ) -> Result<NameTable<W>, OutOfMemory>
        requires sorted { IsStrictlySortedBy target_cmp (keys_of names.items) }
        requires few { length names.items ≤ 4095 }
        ensures { IfOk result (λ t. t ≡ names.entry.items) }
    {
        let places = places_of(alloc, &names)?;
        let order = order_of(alloc, &names, &places)?;
        Ok(NameTable {
            names,
            places,
            order,
        })
    }

    /// The targets in their order, with their indexes.
    pub(crate) fn names(&self) -> &[(Target<W>, u16)]
        ensures names { result.now ≡ self.now }
        ensures sorted { IsStrictlySortedBy target_cmp (keys_of self.now) }
        ensures few { length self.now ≤ 4095 }
    {
        &self.names
    }

    /// Whether an index is in use.
    pub(crate) fn is_used(&self, index: usize) -> bool
        ensures { result ≡ is_used (values_of self.now) index }
    {
        place_at(&self.places, index).is_some()
    }

    /// One more than the greatest index in use, 0 where there is none.
    pub(crate) fn end(&self) -> usize
        ensures { IsEnd (values_of self.now) result }
    {
        self.places.len()
    }

    /// The index of a target.
    pub(crate) fn index_of(&self, target: &Target<W>) -> Option<u16>
        ensures { result ≡ index_in target_cmp self.now target.now }
    {
        let place = self.names.binary_search_by(
            |name: &(Target<W>, u16)| -> Ordering
                ensures { result ≡ target_cmp name.now.0 target.entry.now }
            { name.0.order(target) },
        );
        index_at(&self.names, place)
    }

    /// The index of what a route with these paths leads to.
    pub(crate) fn index_of_paths(&self, paths: &Paths<W>) -> Option<u16>
        ensures { result ≡ index_in target_cmp self.now (target_of paths.now) }
    {
        let place = self.names.binary_search_by(
            |name: &(Target<W>, u16)| -> Ordering
                ensures { result ≡ target_cmp name.now.0 (target_of paths.entry.now) }
            { order_to_paths(&name.0, paths) },
        );
        index_at(&self.names, place)
    }

    /// The target of an index.
    pub(crate) fn target_of(&self, index: u16) -> Option<&Target<W>>
        ensures { option_copied result ≡ target_at self.now index }
    {
        match place_at(&self.places, usize::from(index)) {
            Some(place) => Some(&self.names[usize::from(place)].0),
            None => None,
        }
    }

    /// How many indexes are in use.
    pub(crate) fn len(&self) -> u16
        ensures { result ≡ length (by_index self.now) }
    {
        self.order.len() as u16
    }

    /// The index that so many others are below, with its target.
    pub(crate) fn entry(&self, i: u16) -> (u16, &Target<W>)
        requires { i < length (by_index self.now) }
        ensures { slice_get (by_index self.now) i ≡ Some (result.0, result.1.now) }
    {
        let name = &self.names[usize::from(self.order[usize::from(i)])];
        (name.1, &name.0)
    }
}

/// The index at the place that a search found, if it did.
fn index_at<const W: u32>(names: &[(Target<W>, u16)], place: Result<usize, usize>) -> Option<u16>
    requires { IsSearchInRange place (length names.now) }
    ensures { result ≡ index_at names.now place }
{
    match place {
        Ok(place) => Some(names[place].1),
        Err(_) => None,
    }
}

/// How a target compares to what a route with these paths leads to.
fn order_to_paths<const W: u32>(target: &Target<W>, paths: &Paths<W>) -> Ordering
    ensures { result ≡ target_cmp target.now (target_of paths.now) }
{
    if paths.len() == 1 {
        match target {
            Target::One(nexthop) => nexthop.cmp(paths.path(0).nexthop()),
            Target::Many(_) => Ordering::Greater,
        }
    } else {
        match target {
            Target::One(_) => Ordering::Less,
            Target::Many(group) => group.cmp(paths),
        }
    }
}
