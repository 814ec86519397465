//! Targets take their indexes.
ghost use Rattle.std.specs.Prelude.{◌≡◌, ℕ, ◌+◌, ◌<◌, ◌≤◌, List, length, IfOk, IsTrue};
ghost use Rattle.std.specs.List.Sorted.{IsStrictlySortedBy, IsStrictlyIncreasing};
ghost use Rattle.std.specs.Map.{keys_of};
ghost use Rattle.std.specs.declared.cmp.Ordering.TheVariants.{Greater};
ghost use Rattle.nhgrp_slots.specs.Target.{target_cmp};
ghost use Rattle.nhop_index.specs.Indexes.{index_in, named, fresh_in};
ghost use Rattle.nhop_index.specs.Ages.{Walks};
ghost use Rattle.nhop_index.specs.Merge.{ArePast, Covers};

use crate::OutOfMemory;
use crate::ages::take_unused;
use nhgrp_slots::Target;
use std::alloc::Global;
use std::cmp::Ordering;

/// The targets of a version with their indexes, and the indexes that the version before hadn't.
#[derive(Drop)]
pub(crate) struct Named<const W: u32> {
    pub(crate) names: Vec<(Target<W>, u16)>,
    pub(crate) fresh: Vec<u16>,
}

/// Gives each live target its index: that of the version before, or the least that is unused.
/// Both lists ascend, so this is one walk over them.
pub(crate) fn name_targets<const W: u32, const K: u64>(
    alloc: Global,
    before: &[(Target<W>, u16)],
    ages: &[u8],
    live: &[Target<W>],
) -> Result<Named<W>, OutOfMemory>
    requires banks { K ≤ 8 }
    requires sorted { IsStrictlySortedBy target_cmp (keys_of before.now) }
    requires ascends { IsStrictlySortedBy target_cmp live.now }
    requires room { length ages.now + length live.now < 65000 }
    ensures names { IfOk result (λ n. (used : List ℕ) → Walks K used ages.now 1 → n.names.items ≡ named target_cmp before.now live.now used) }
    ensures fresh { IfOk result (λ n. (used : List ℕ) → Walks K used ages.now 1 → Covers used before.now → n.fresh.items ≡ fresh_in before.now n.names.items) }
    ensures ascend { IfOk result (λ n. IsStrictlyIncreasing n.fresh.items) }
{
    let mut names = Vec::with_capacity(alloc, live.len())?;
    let mut fresh = Vec::new(alloc);
    let mut place = 0;
    let mut next = 1;
    for target in live {
        let index = match index_from(before, &mut place, target) {
            Some(index) => index,
            None => {
                let index = take_unused::<K>(ages, &mut next);
                fresh.push(index)?;
                index
            }
        };
        names.push((target.copy(alloc)?, index))?;
    }
    Ok(Named { names, fresh })
}

/// The index of a target in a list of which the entries before a place are of lesser targets. The
/// place moves behind the entries of targets up to this one.
fn index_from<const W: u32>(
    before: &[(Target<W>, u16)],
    place: &mut usize,
    target: &Target<W>,
) -> Option<u16>
    requires sorted { IsStrictlySortedBy target_cmp (keys_of before.now) }
    requires past { ArePast target_cmp before.now place.old target.now }
    ensures index { result ≡ index_in target_cmp before.now target.now }
    ensures past { (t : _) → target_cmp t target.now ≡ Greater → ArePast target_cmp before.now place.new t }
{
    'skip: while *place < before.len() {
        match before[*place].0.order(target) {
            Ordering::Less => *place += 1,
            Ordering::Equal => {
                let index = before[*place].1;
                *place += 1;
                return Some(index);
            }
            Ordering::Greater => return None,
        }
    }
    None
}

/// Whether a version's targets are seen to be the live ones.
pub(crate) fn are_live<const W: u32>(names: &[(Target<W>, u16)], live: &[Target<W>]) -> bool
    ensures { IsTrue result → keys_of names.now ≡ live.now }
{
    if names.len() != live.len() {
        return false;
    }
    for i in 0..live.len() {
        if !are_same(&names[i].0, &live[i]) {
            return false;
        }
    }
    true
}

/// Whether two targets are the same.
fn are_same<const W: u32>(target: &Target<W>, other: &Target<W>) -> bool
    ensures { IsTrue result → target.now ≡ other.now }
{
    match target.order(other) {
        Ordering::Equal => true,
        Ordering::Less | Ordering::Greater => false,
    }
}
