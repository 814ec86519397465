//! Indexes beside a plain program, and worked rows.
ghost use Rattle.std.specs.Prelude.{◌≡◌, ◌≤◌, IsTrue};
ghost use Rattle.std.specs.List.Sorted.{IsStrictlySortedBy};
ghost use Rattle.std.specs.declared.cmp.Ordering.TheVariants.{Less};
ghost use Rattle.prefix_width.specs.Limits.{AreBanks};
ghost use Rattle.nhgrp_slots.specs.Target.{target_cmp};

use crate::{
    IndexBook, Indexes, OutOfMemory, law_indexes_apart, law_indexes_fit, law_least_is_unused,
    law_nexthops_are_named,
};
use nhgrp_slots::{Paths, Target};
use prefix_width::{Addr, Nexthop, Path};
use std::alloc::Global;
use std::cmp::Ordering;
use std::process::Abort;
use std::test::Fail;

/// Whether the targets ascend, each less than the next.
fn do_ascend(live: &[Target<32>]) -> bool
    ensures { IsTrue result → IsStrictlySortedBy target_cmp live.now }
{
    for i in 1..live.len() {
        if !is_less(&live[i - 1], &live[i]) {
            return false;
        }
    }
    true
}

/// Whether a target comes before another.
fn is_less(target: &Target<32>, other: &Target<32>) -> bool
    ensures { IsTrue result → target_cmp target.now other.now ≡ Less }
{
    match target.order(other) {
        Ordering::Less => true,
        Ordering::Equal | Ordering::Greater => false,
    }
}

/// The next version, where the targets are as they must be.
fn next<const K: u64, const LIVE: u32>(
    alloc: Global,
    book: &mut IndexBook<32, K, LIVE>,
    live: &[Target<32>],
) -> Result<Indexes<32, K, LIVE>, Fail> {
    if live.len() > LIVE as usize || !do_ascend(live) {
        return Err("no list of live targets".into());
    }
    Ok(book.next(alloc, live)?)
}

/// The path by a gateway.
fn path(gateway: u32) -> Result<Path<32>, Fail> {
    let addr = Addr::new(u128::from(gateway)).ok_or("no address")?;
    Ok(Path::new(Nexthop::via(addr, 0, 0), 1).ok_or("no path")?)
}

/// The nexthops by so many gateways from one on.
fn nexthops(alloc: Global, first: u32, count: u32) -> Result<Vec<Target<32>>, Fail> {
    let mut targets = Vec::new(alloc);
    for i in 0..count {
        let path = path(first.saturating_add(i))?;
        targets.push(Target::One(*path.nexthop()))?;
    }
    Ok(targets)
}

/// The list of the paths by two gateways.
fn pair(alloc: Global, low: u32, high: u32) -> Result<Paths<32>, Fail> {
    let one = Paths::one(alloc, path(low)?)?;
    let other = path(high)?;
    if one.clashes(&other) || one.len() >= 64 {
        return Err("no pair".into());
    }
    Ok(one.with(alloc, other)?)
}

/// Gives versions of disjoint lists of nexthops, of which the n-th has the n-th of these as its
/// first index and the others behind it.
fn give_disjoint<const K: u64, const LIVE: u32>(
    rt: &impl Abort,
    alloc: Global,
    book: &mut IndexBook<32, K, LIVE>,
    count: u32,
    firsts: &[u16],
) -> Result<(), Fail> {
    let mut gateway = 1u32;
    for first in firsts {
        let live = nexthops(alloc, gateway, count)?;
        let indexes = next(alloc, book, &live)?;
        let mut want = *first;
        assert_eq!(rt; indexes.fresh().len(), live.len());
        for i in 0..live.len() {
            assert_eq!(rt; indexes.index_of(&live[i]), Some(want));
            assert_eq!(rt; indexes.fresh().get(i), Some(&want));
            want = want.saturating_add(1);
        }
        gateway = gateway.saturating_add(count);
    }
    Ok(())
}

#[test]
fn disjoint_lists_start_anew_behind_the_window(rt: HostRuntime) -> Result<(), Fail> {
    let mut book = IndexBook::<32, 4, 2_047>::new(rt.alloc());
    give_disjoint(
        &rt,
        rt.alloc(),
        &mut book,
        2_047,
        &[1, 2_048, 4_095, 6_142, 1],
    )?;
    let mut book = IndexBook::<32, 8, 4_095>::new(rt.alloc());
    give_disjoint(
        &rt,
        rt.alloc(),
        &mut book,
        4_095,
        &[1, 4_096, 8_191, 12_286, 16_381, 20_476, 24_571, 28_666, 1],
    )
}

#[test]
fn a_route_that_is_changed_again_and_again(rt: HostRuntime) -> Result<(), Fail> {
    let mut book = IndexBook::<32, 4, 2_047>::new(rt.alloc());
    give_disjoint(&rt, rt.alloc(), &mut book, 1, &[1, 2, 3, 4, 1])?;
    let mut book = IndexBook::<32, 8, 4_095>::new(rt.alloc());
    give_disjoint(&rt, rt.alloc(), &mut book, 1, &[1, 2, 3, 4, 5])?;
    let mut book = IndexBook::<32, 2, 1>::new(rt.alloc());
    give_disjoint(&rt, rt.alloc(), &mut book, 1, &[1, 2, 1, 2])
}

#[test]
fn groups_and_their_nexthops_have_indexes(rt: HostRuntime) -> Result<(), Fail> {
    let alloc = rt.alloc();
    let mut book = IndexBook::<32, 4, 2_047>::new(alloc);
    let two = nexthops(alloc, 2, 1)?;
    let _first = next(alloc, &mut book, &two)?;
    let group = pair(alloc, 1, 2)?;
    let mut live = nexthops(alloc, 1, 2)?;
    live.push(Target::Many(group.copy(alloc)?))?;
    let indexes = next(alloc, &mut book, &live)?.copy(alloc)?;
    let lone = Paths::one(alloc, path(2)?)?;
    assert_eq!(rt; indexes.index_of_paths(&lone), Some(1));
    assert_eq!(rt; indexes.index_of_paths(&group), Some(3));
    assert_eq!(rt; indexes.index_of_paths(&Paths::one(alloc, path(3)?)?), None);
    assert_eq!(rt; indexes.fresh(), [2, 3].as_slice());
    let rows = [(1, 1usize), (2, 0), (3, 2)];
    assert_eq!(rt; usize::from(indexes.len()), rows.len());
    for (i, (index, place)) in rows.into_iter().enumerate() {
        if i < usize::from(indexes.len()) {
            let (found, target) = indexes.entry(i as u16);
            assert_eq!(rt; found, index, "at {i}");
            assert!(rt; Some(target) == live.get(place), "at {i}");
        }
        assert!(rt; indexes.target_of(index) == live.get(place), "at {i}");
    }
    assert!(rt; indexes.target_of(0).is_none() && indexes.target_of(4).is_none());
    Ok(())
}

/// An index among the targets of a version, by the target's number.
fn found(version: &[(usize, u16)], target: usize) -> Option<u16> {
    for (other, index) in version {
        if *other == target {
            return Some(*index);
        }
    }
    None
}

/// Whether a version has the index.
fn has(version: &[(usize, u16)], index: u16) -> bool {
    for (_target, other) in version {
        if *other == index {
            return true;
        }
    }
    false
}

/// The least index that neither this version nor one of the window's has.
fn least(version: &[(usize, u16)], window: &[Vec<(usize, u16)>]) -> u16 {
    for index in 1..1_000u16 {
        let mut free = !has(version, index);
        for older in window {
            free = free && !has(older, index);
        }
        if free {
            return index;
        }
    }
    0
}

/// The next version, by the definition: each target keeps its index or takes the least.
fn defined(
    alloc: Global,
    versions: &[Vec<(usize, u16)>],
    banks: usize,
    live: &[usize],
) -> Result<Vec<(usize, u16)>, OutOfMemory> {
    let from = versions.len().saturating_sub(banks.saturating_sub(1));
    let window = versions.get(from..).unwrap_or(&[]);
    let mut version = Vec::new(alloc);
    for target in live {
        let kept = match versions.last() {
            Some(last) => found(last, *target),
            None => None,
        };
        let index = kept.unwrap_or(least(&version, window));
        version.push((*target, index))?;
    }
    Ok(version)
}

/// The next number of a sequence that looks drawn.
fn drawn(x: u64) -> u64 {
    x.wrapping_mul(6_364_136_223_846_793_005)
        .wrapping_add(1_442_695_040_888_963_407)
}

/// Sixteen nexthops and eight groups, in their order.
fn universe(alloc: Global) -> Result<Vec<Target<32>>, Fail> {
    let mut targets = nexthops(alloc, 1, 16)?;
    for i in 0..8u32 {
        targets.push(Target::Many(pair(alloc, i + 1, i + 2)?))?;
    }
    Ok(targets)
}

/// Compares drawn versions with the definition.
fn compare<const K: u64>(rt: &impl Abort, alloc: Global, seed: u64, count: u32) -> Result<(), Fail>
    requires { AreBanks K }
{
    let all = universe(alloc)?;
    let mut book = IndexBook::<32, K, 24>::new(alloc);
    let mut versions: Vec<Vec<(usize, u16)>> = Vec::new(alloc);
    let mut x = seed;
    let mut set = 0u64;
    for round in 0..count {
        x = drawn(x);
        set = if x >> 60 == 0 {
            x >> 20
        } else {
            set ^ (1 << (x >> 40 & 31))
        };
        let mut live = Vec::new(alloc);
        let mut numbers = Vec::new(alloc);
        for i in 0..all.len() {
            if set >> (i & 63) & 1 == 1 {
                live.push(all[i].copy(alloc)?)?;
                numbers.push(i)?;
            }
        }
        let want = defined(alloc, &versions, K as usize, &numbers)?;
        let indexes = next(alloc, &mut book, &live)?;
        for i in 0..all.len() {
            assert_eq!(rt; indexes.index_of(&all[i]), found(&want, i), "at {round}");
        }
        versions.push(want)?;
        check_fresh(rt, &indexes, &versions)?;
    }
    Ok(())
}

/// Compares the indexes that are new, and the targets of all indexes.
fn check_fresh<const K: u64>(
    rt: &impl Abort,
    indexes: &Indexes<32, K, 24>,
    versions: &[Vec<(usize, u16)>],
) -> Result<(), Fail> {
    let none: &[(usize, u16)] = &[];
    let (before, now) = match versions {
        [.., before, now] => (before.as_slice(), now.as_slice()),
        [now] => (none, now.as_slice()),
        [] => (none, none),
    };
    let mut fresh = 0usize;
    let mut entry = 0u16;
    for index in 0..256u16 {
        if has(now, index) && !has(before, index) {
            assert_eq!(rt; indexes.fresh().get(fresh), Some(&index));
            fresh = fresh.saturating_add(1);
        }
        assert_eq!(rt; indexes.target_of(index).is_some(), has(now, index));
        if has(now, index) && entry < indexes.len() {
            assert_eq!(rt; indexes.entry(entry).0, index);
            entry = entry.saturating_add(1);
        }
    }
    assert_eq!(rt; (fresh, entry), (indexes.fresh().len(), indexes.len()));
    Ok(())
}

#[test]
fn drawn_versions_are_those_of_the_definition(rt: HostRuntime) -> Result<(), Fail> {
    compare::<4>(&rt, rt.alloc(), 7, 1_000)?;
    compare::<8>(&rt, rt.alloc(), 8, 700)?;
    compare::<2>(&rt, rt.alloc(), 9, 300)
}

#[test]
fn the_laws_are_proved() {
    law_indexes_apart::<32>();
    law_indexes_fit::<32>();
    law_least_is_unused();
    law_nexthops_are_named::<32>();
}
