//! Where each index stands among a version's targets.
ghost use Rattle.std.specs.Prelude.{◌≡◌, ◌≤◌, IfOk, OnOk, None, length, replicate};
ghost use Rattle.std.specs.Map.{values_of};
ghost use Rattle.nhop_index.specs.Table.{ArePlaces, IsOrder, IsEnd, place_at, with_place};

use crate::OutOfMemory;
use nhgrp_slots::Target;
use std::alloc::Global;

/// The place of each index among the targets' entries.
pub(crate) fn places_of<const W: u32>(
    alloc: Global,
    names: &[(Target<W>, u16)],
) -> Result<Vec<Option<u16>>, OutOfMemory>
    requires { length names.now ≤ 4095 }
    ensures { IfOk result (λ places. ArePlaces names.now places.items) }
{
    let mut places = no_places(alloc, end_of(names))?;
    let mut place = names.len();
    'place: while place > 0 {
        place -= 1;
        places[usize::from(names[place].1)] = Some(place as u16);
    }
    Ok(places)
}

/// No place for each of so many indexes.
fn no_places(alloc: Global, count: usize) -> Result<Vec<Option<u16>>, OutOfMemory>
    ensures { IfOk result (λ places. places.items ≡ replicate count None) }
{
    let mut places = Vec::with_capacity(alloc, count)?;
    for i in 0..count {
        let _ = i;
        places.push(None)?;
    }
    Ok(places)
}

/// The place of an index.
pub(crate) fn place_at(places: &[Option<u16>], index: usize) -> Option<u16>
    ensures { result ≡ place_at places.now index }
{
    if index < places.len() {
        places[index]
    } else {
        None
    }
}

/// One more than the greatest index, 0 where there is none.
fn end_of<const W: u32>(names: &[(Target<W>, u16)]) -> usize
    ensures { IsEnd (values_of names.now) result }
{
    let mut end = 0;
    for name in names {
        end = end.max(usize::from(name.1) + 1);
    }
    end
}

/// The places by their rising indexes.
pub(crate) fn order_of<const W: u32>(
    alloc: Global,
    names: &[(Target<W>, u16)],
    places: &[Option<u16>],
) -> Result<Vec<u16>, OutOfMemory>
    requires { ArePlaces names.now places.now }
    ensures { IfOk result (λ order. IsOrder names.now order.items) }
{
    let mut order = Vec::with_capacity(alloc, names.len())?;
    for place in places {
        push_place(&mut order, *place)?;
    }
    Ok(order)
}

/// Adds a place, if there is one.
fn push_place(order: &mut Vec<u16>, place: Option<u16>) -> Result<(), OutOfMemory>
    ensures { OnOk result (order.new.items ≡ with_place order.old.items place) }
{
    if let Some(place) = place {
        order.push(place)?;
    }
    Ok(())
}
