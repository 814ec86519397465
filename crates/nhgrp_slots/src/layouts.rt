//! Layouts of a group: which path each slot holds, and what is kept of it when paths leave.
ghost use Rattle.std.specs.Prelude.{◌≡◌, ◌≤◌, ◌<◌, ◌*◌, ◌++◌, ◌↔◌, IsTrue, All, IfOk, IfSome, OnOk, length, replicate, slice_index_or, sum, ℕ};
ghost use Rattle.std.specs.Ordering.{is_eq};
ghost use Rattle.prefix_width.specs.Order.{hop_cmp};
ghost use Rattle.prefix_width.specs.Path.{IsWeight};
ghost use Rattle.nhgrp_slots.specs.Layout.{IsLayout, held, kept, kept_layout, layout_of, least_full, new_position, position_of, taken_of};
ghost use Rattle.nhgrp_slots.specs.PathList.{IsPathList};
ghost use Rattle.nhgrp_slots.specs.Slots.{HaveWeights, weights};

use crate::OutOfMemory;
use crate::divisor::common_divisor;
use prefix_width::{Nexthop, Path};
use std::alloc::Global;

/// The most slots of a group.
const SLOTS_MAX: u32 = 64;

/// The layout that the weights of the paths give, and what all paths know of their weights. The
/// number of slots is the sum of the weights by their greatest common divisor, at most 64. Each
/// path in turn gets its weight's part of the slots that are left, rounded down.
pub(crate) fn layout_of<const W: u32>(
    alloc: Global,
    paths: &[Path<W>],
) -> Result<Vec<u8>, OutOfMemory>
    requires { IsPathList paths.now }
    ensures value { IfOk result (λ layout. layout.items ≡ layout_of paths.now) }
    ensures weights { HaveWeights paths.now }
{
    let mut rem_sum = sum_of(paths);
    let mut rem_slots = (rem_sum / common_divisor(paths)).min(SLOTS_MAX);
    let mut slots = Vec::with_capacity(alloc, rem_slots as usize)?;
    for i in 0..paths.len() {
        let weight = paths[i].weight();
        let share = weight * rem_slots / rem_sum;
        push_times(&mut slots, i as u8, share)?;
        rem_slots -= share;
        rem_sum -= weight;
    }
    Ok(slots)
}

/// The layout of the new paths that keeps what it can of a layout of the old ones: a slot whose
/// nexthop is among the new paths still holds it. Each other slot, by rising number, goes to the
/// new path that has the fewest slots for its weight by then, the first of several.
pub fn keep<const W: u32>(
    alloc: Global,
    old: &[Path<W>],
    layout: &[u8],
    new: &[Path<W>],
) -> Result<Vec<u8>, OutOfMemory>
    requires layout { IsLayout old.now layout.now }
    requires new { IsPathList new.now }
    ensures value { IfOk result (λ kept. kept.items ≡ kept_layout old.now layout.now new.now) }
    ensures layout { IfOk result (λ kept. IsLayout new.now kept.items) }
    ensures weights { HaveWeights new.now }
{
    // the weights of the new paths are in their range
    let _sum = sum_of(new);
    let mut counts = [0u8; 64];
    count_kept(&mut counts, old, layout, new);
    let mut slots = Vec::with_capacity(alloc, layout.len())?;
    for position in layout {
        if let Some(stays) = new_position(old, *position, new) {
            slots.push(stays as u8)?;
            continue;
        }
        let given = least_full(new, &counts);
        counts[given] += 1;
        slots.push(given as u8)?;
    }
    Ok(slots)
}

/// Adds for each new path the slots that it keeps.
fn count_kept<const W: u32>(counts: &mut [u8], old: &[Path<W>], layout: &[u8], new: &[Path<W>])
    requires layout { IsLayout old.now layout.now }
    requires room { length new.now ≤ length counts.old }
    requires zero { (i : ℕ) → slice_index_or counts.old i 0 ≡ 0 }
    ensures counts { (i : ℕ) → i < length new.now → slice_index_or counts.new i 0 ≡ held (taken_of (kept old.now layout.now new.now)) i }
    ensures same { length counts.new ≡ length counts.old }
{
    for position in layout {
        if let Some(i) = new_position(old, *position, new) {
            counts[i] += 1;
        }
    }
}

/// Where the nexthop at a position of the old paths stands among the new ones.
fn new_position<const W: u32>(old: &[Path<W>], position: u8, new: &[Path<W>]) -> Option<usize>
    requires { position < length old.now }
    ensures value { result ≡ new_position old.now new.now position }
    ensures within { IfSome result (λ i. i < length new.now) }
{
    position_of(new, old[usize::from(position)].nexthop())
}

/// Where the path with this nexthop stands.
fn position_of<const W: u32>(paths: &[Path<W>], nexthop: &Nexthop<W>) -> Option<usize>
    ensures { result ≡ position_of paths.now nexthop.now }
{
    paths.iter().position(
        |path: &Path<W>| -> bool
            ensures { result ≡ is_eq (hop_cmp nexthop.entry.now path.now.nexthop) }
        { nexthop == path.nexthop() },
    )
}

/// The first path that has the fewest slots for its weight.
fn least_full<const W: u32>(paths: &[Path<W>], counts: &[u8]) -> usize
    requires some { 1 ≤ length paths.now }
    requires room { length paths.now ≤ length counts.now }
    requires weights { All (λ p. IsWeight p.nexthop.kind p.weight) paths.now }
    ensures { result ≡ least_full paths.now (λ i. slice_index_or counts.now i 0) }
{
    let mut best = 0;
    for i in 1..paths.len() {
        if is_less_full(&paths[i], counts[i], &paths[best], counts[best]) {
            best = i;
        }
    }
    best
}

/// Whether a path with so many slots has fewer for its weight than another.
fn is_less_full<const W: u32>(path: &Path<W>, count: u8, other: &Path<W>, others: u8) -> bool
    ensures { IsTrue result ↔ (count * other.now.weight < others * path.now.weight) }
{
    u32::from(count) * other.weight() < u32::from(others) * path.weight()
}

/// Pushes the position so often.
fn push_times(slots: &mut Vec<u8>, position: u8, times: u32) -> Result<(), OutOfMemory>
    ensures { OnOk result (slots.new.items ≡ slots.old.items ++ replicate times position) }
{
    for n in 0..times {
        let _ = n;
        slots.push(position)?;
    }
    Ok(())
}

/// The sum of the weights, and what each path knows of its weight.
fn sum_of<const W: u32>(paths: &[Path<W>]) -> u32
    requires { length paths.now ≤ 64 }
    ensures value { result ≡ sum (weights paths.now) }
    ensures weights { All (λ p. IsWeight p.nexthop.kind p.weight) paths.now }
{
    let mut sum = 0;
    for path in paths {
        sum += path.weight();
    }
    sum
}
