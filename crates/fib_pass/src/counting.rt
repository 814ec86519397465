//! The packets of each nexthop, from the counts of the numbers.
ghost use Rattle.std.specs.Prelude.{◌≡◌, ◌==◌, ℕ, ◌+◌, ◌<◌, ◌≤◌, ◌^◌, [], ◌∷◌, ◌++◌, if◌then◌else◌, vec_len, length, map, All, IfOk, slice_index_or, sum_by, vec_capacity};
ghost use Rattle.std.specs.List.Sorted.{IsStrictlySortedBy};
ghost use Rattle.std.specs.Map.{keys_of};
ghost use Rattle.prefix_width.specs.Order.{hop_cmp};
ghost use Rattle.rib_store.specs.Plan.{IsNumbering, firsts, named};
ghost use Rattle.fib_pass.specs.Totals.{counted_hops, end_of, last_count, packets_of};

use crate::OutOfMemory;
use crate::pass::Pass;
use crate::totals::{Packets, PassEnd};
use prefix_width::Nexthop;
use rib_store::Plan;
use std::alloc::Global;
use std::collections::BTreeMap;

/// The number of each nexthop of a plan.
fn numbering_of<const W: u32>(
    alloc: Global,
    plan: &Plan<W>,
) -> Result<BTreeMap<Nexthop<W>, u32>, OutOfMemory>
    ensures { IfOk result (λ m. IsNumbering (firsts (named plan.now)) m.entries) }
{
    let mut numbering = BTreeMap::new(alloc);
    for place in 0..plan.nexthops() {
        let number = place + 1;
        numbering.insert(*plan.nexthop(number), number)?;
    }
    Ok(numbering)
}

/// The entries of a numbering, in the order of the nexthops.
fn entries_of<const W: u32>(
    alloc: Global,
    numbering: &BTreeMap<Nexthop<W>, u32>,
) -> Result<Vec<(Nexthop<W>, u32)>, OutOfMemory>
    ensures entries { IfOk result (λ v. v.items ≡ numbering.now.entries) }
    ensures ordered { IfOk result (λ v. IsStrictlySortedBy hop_cmp (keys_of numbering.now.entries)) }
{
    let mut entries = Vec::new(alloc);
    for (nexthop, number) in numbering.iter() {
        entries.push((*nexthop, *number))?;
    }
    Ok(entries)
}

/// The nexthops of a plan in their order, each with its number.
pub(crate) fn order_of<const W: u32>(
    alloc: Global,
    plan: &Plan<W>,
) -> Result<Vec<(Nexthop<W>, u32)>, OutOfMemory>
    ensures numbering { IfOk result (λ v. IsNumbering (firsts (named plan.now)) v.items) }
    ensures ordered { IfOk result (λ v. IsStrictlySortedBy hop_cmp (keys_of v.items)) }
{
    let numbering = numbering_of(alloc, plan)?;
    entries_of(alloc, &numbering)
}

/// What each pass had made and seen.
pub(crate) fn ends_of<const W: u32, const K: u64, const LIVE: u32>(
    alloc: Global,
    passes: &[Pass<W, K, LIVE>],
) -> Result<Vec<PassEnd>, OutOfMemory>
    ensures ends { IfOk result (λ v. v.items ≡ map end_of passes.now) }
    ensures few { IfOk result (λ v. All (λ e. e.lookups ≤ 16777216) v.items) }
{
    let mut ends = Vec::new(alloc);
    for pass in passes {
        ends.push(PassEnd {
            lookups: u64::from(pass.lookups()),
            seen: pass.seen(),
        })?;
    }
    Ok(ends)
}

/// How many lookups these passes made.
pub(crate) fn lookups_in(ends: &[PassEnd]) -> u64
    requires { sum_by (λ e. e.lookups) ends.now < 2 ^ 64 }
    ensures { result ≡ sum_by (λ e. e.lookups) ends.now }
{
    ends.iter().map(|end| end.lookups).sum()
}

/// Puts each count into the place of its number.
pub(crate) fn spread(counts: &[(u32, u64)], places: &mut [u64])
    requires within { All (λ c. c.0 < length places.old) counts.now }
    requires zeros { (p : ℕ) → slice_index_or places.old p 0 ≡ 0 }
    ensures { (p : ℕ) → slice_index_or places.new p 0 ≡ last_count counts.now p }
{
    for at in 0..counts.len() {
        let (number, count) = counts[at];
        places[number as usize] = count;
    }
}

/// Puts the packets of a nexthop behind the others, where there are any.
fn count_packets<const W: u32>(packets: &mut Vec<Packets<W>>, nexthop: Nexthop<W>, count: u64)
    requires room { vec_len packets.old < vec_capacity packets.old }
    ensures items { packets.new.items ≡ packets.old.items ++ packets_of (if count == 0 then [] else (nexthop.entry, count) ∷ []) }
    ensures len { vec_len packets.new ≤ vec_len packets.old + 1 }
    ensures capacity { vec_capacity packets.old ≤ vec_capacity packets.new }
{
    if count > 0 {
        packets.push(Packets { nexthop, count }).unwrap();
    }
}

/// Each nexthop with the count in its number's place, where that is 1 or more. The list has room
/// for all.
pub(crate) fn packets_in<const W: u32>(
    order: &[(Nexthop<W>, u32)],
    places: &[u64],
    mut packets: Vec<Packets<W>>,
) -> Vec<Packets<W>>
    requires empty { packets.items ≡ [] }
    requires room { length order.now ≤ vec_capacity packets }
    requires within { All (λ e. e.1 < length places.now) order.now }
    ensures { result.items ≡ packets_of (counted_hops (λ p. slice_index_or places.now p 0) order.now) }
{
    for next in 0..order.len() {
        let (nexthop, number) = order[next];
        count_packets(&mut packets, nexthop, places[number as usize]);
    }
    packets
}
