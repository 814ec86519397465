//! The indexes that a version gives anew.
ghost use Rattle.std.specs.Prelude.{◌≡◌, ◌++◌, IfOk, OnOk, option_to_list};
ghost use Rattle.nhop_index.specs.Indexes.{target_at};
ghost use Rattle.fib_sync.specs.Fresh.{is_one, new_pair, new_pairs};

use crate::OutOfMemory;
use nhgrp_slots::Target;
use nhop_index::Indexes;
use prefix_width::Nexthop;
use rib_store::Plan;
use std::alloc::Global;

/// The indexes of a version's nexthops by rising index, each with the number that its nexthop has in
/// the plan, but for the pairs that the version before has too.
pub(crate) fn fresh_pairs<const W: u32, const K: u64, const LIVE: u32>(
    alloc: Global,
    plan: &Plan<W>,
    before: &Indexes<W, K, LIVE>,
    indexes: &Indexes<W, K, LIVE>,
) -> Result<Vec<(u16, u32)>, OutOfMemory>
    ensures { IfOk result (λ v. v.items ≡ new_pairs plan.now before.now.names indexes.now.names) }
{
    let mut fresh = Vec::new(alloc);
    for i in 0..indexes.len() {
        let (index, target) = indexes.entry(i);
        push_pair(&mut fresh, new_pair(plan, before, index, target))?;
    }
    Ok(fresh)
}

/// Adds a pair, if there is one.
fn push_pair(fresh: &mut Vec<(u16, u32)>, pair: Option<(u16, u32)>) -> Result<(), OutOfMemory>
    ensures { OnOk result (fresh.new.items ≡ fresh.old.items ++ option_to_list pair) }
{
    if let Some(pair) = pair {
        fresh.push(pair)?;
    }
    Ok(())
}

/// The pair of an index with its target, where the version before hasn't it. A group has none.
fn new_pair<const W: u32, const K: u64, const LIVE: u32>(
    plan: &Plan<W>,
    before: &Indexes<W, K, LIVE>,
    index: u16,
    target: &Target<W>,
) -> Option<(u16, u32)>
    ensures { result ≡ new_pair plan.now before.now.names (index, target.now) }
{
    let Target::One(nexthop) = target else {
        return None;
    };
    let number = plan.number_of(nexthop)?;
    if has_index(before, index, nexthop) {
        None
    } else {
        Some((index, number))
    }
}

/// Whether the index is the nexthop's.
fn has_index<const W: u32, const K: u64, const LIVE: u32>(
    indexes: &Indexes<W, K, LIVE>,
    index: u16,
    nexthop: &Nexthop<W>,
) -> bool
    ensures { result ≡ is_one (target_at indexes.now.names index) nexthop.now }
{
    match indexes.target_of(index) {
        Some(Target::One(other)) => other == nexthop,
        _ => false,
    }
}
