//! Weights and slots, lists of paths and targets, by hand.
use crate::{
    GroupTable, OutOfMemory, Paths, Slots, Target, compile, law_shares_are_all,
    law_slots_are_filled, law_slots_hold_picked, law_small_shares_are_exact,
};
use prefix_width::{Addr, Nexthop, Path};
use std::alloc::Global;
use std::test::Fail;

/// The path by a gateway.
fn path(gateway: u128, weight: u32) -> Option<Path<32>> {
    let addr = Addr::new(gateway)?;
    Path::new(Nexthop::via(addr, 0, 0), weight)
}

/// The list with one path more, where it may join.
fn joined(
    alloc: Global,
    paths: &Paths<32>,
    path: Path<32>,
) -> Result<Option<Paths<32>>, OutOfMemory> {
    if paths.clashes(&path) {
        return Ok(None);
    }
    if paths.len() >= 64 {
        return Ok(None);
    }
    Ok(Some(paths.with(alloc, path)?))
}

/// The paths by the gateways 1, 2 and so on, with these weights.
fn weighted(alloc: Global, weights: &[u32]) -> Result<Option<Paths<32>>, OutOfMemory> {
    let mut list = None;
    let mut gateway = 0u128;
    for weight in weights {
        gateway = gateway.saturating_add(1);
        let Some(next) = path(gateway, *weight) else {
            return Ok(None);
        };
        list = match list {
            None => Some(Paths::one(alloc, next)?),
            Some(paths) => joined(alloc, &paths, next)?,
        };
    }
    Ok(list)
}

/// The slots of paths with these weights and indexes.
fn slots(alloc: Global, weights: &[u32], indexes: &[u16]) -> Result<Option<Slots>, OutOfMemory> {
    let Some(paths) = weighted(alloc, weights)? else {
        return Ok(None);
    };
    if indexes.len() != usize::from(paths.len()) {
        return Ok(None);
    }
    Ok(Some(compile(alloc, &paths, indexes)?))
}

#[test]
fn weights_are_compiled_to_slots(rt: HostRuntime) -> Result<(), Fail> {
    let alloc = rt.alloc();
    let mut numbers = Vec::new(alloc);
    for index in 1..=64u16 {
        numbers.push(index)?;
    }
    let rows: [(&[u32], &[u16], &[u16]); 5] = [
        (&[9], &[7], &[7]),
        (&[1, 3], &[1, 2], &[1, 2, 2, 2]),
        (&[1, 16_777_215], &[1, 2], &[2; 64]),
        (&[1; 64], numbers.as_slice(), numbers.as_slice()),
        (
            &[2, 3, 7],
            &[1, 2, 3],
            &[1, 1, 2, 2, 2, 3, 3, 3, 3, 3, 3, 3],
        ),
    ];
    for (weights, indexes, want) in rows {
        let Some(slots) = slots(alloc, weights, indexes)? else {
            assert!(rt; false, "no slots");
            return Ok(());
        };
        let slots = slots.copy(alloc)?;
        assert_eq!(rt; usize::from(slots.size()), want.len());
        let mut flow = 0u32;
        for index in want {
            assert_eq!(rt; slots.pick(flow), *index, "flow {flow}");
            flow = flow.saturating_add(1);
        }
        assert_eq!(rt; Some(&slots.pick(flow)), want.first());
    }
    Ok(())
}

#[test]
fn paths_are_kept_in_the_order_of_their_nexthops(rt: HostRuntime) -> Result<(), Fail> {
    let alloc = rt.alloc();
    let (Some(low), Some(high), Some(gateway)) = (path(1, 5), path(2, 4), Addr::new(1)) else {
        assert!(rt; false, "no path");
        return Ok(());
    };
    let paths = Paths::one(alloc, high)?;
    let Some(both) = joined(alloc, &paths, low)? else {
        assert!(rt; false, "they clash");
        return Ok(());
    };
    assert_eq!(rt; both.as_slice(), [low, high].as_slice());
    assert_eq!(rt; both.copy(alloc)?, both);
    assert!(rt; both.clashes(&low) && both.has_via());
    assert!(rt; both.goes_by(&gateway) && both.has_nexthop(low.nexthop()));
    assert!(rt; both.without(alloc, &gateway, false)? == Some(paths));
    Ok(())
}

#[test]
fn a_group_is_kept_once_while_it_is_used(rt: HostRuntime) -> Result<(), Fail> {
    let alloc = rt.alloc();
    let mut table = GroupTable::<32>::new(alloc);
    let Some(group) = weighted(alloc, &[1, 3])? else {
        assert!(rt; false, "no group");
        return Ok(());
    };
    if group.len() >= 2 {
        table.link(alloc, &group)?;
    }
    assert!(rt; table.list(alloc)?.as_slice() == [group.copy(alloc)?].as_slice());
    assert_eq!(rt; (table.count(&group), table.live()), (1, 1));
    if table.count(&group) == 1 {
        table.unlink(&group);
    }
    assert_eq!(rt; (table.count(&group), table.live()), (0, 0));
    Ok(())
}

#[test]
fn nexthops_come_before_groups(rt: HostRuntime) -> Result<(), Fail> {
    let alloc = rt.alloc();
    let (Some(low), Some(high)) = (path(1, 1), path(9, 1)) else {
        assert!(rt; false, "no path");
        return Ok(());
    };
    let (Some(light), Some(heavy), Some(long)) = (
        weighted(alloc, &[1, 3])?,
        weighted(alloc, &[2, 1])?,
        weighted(alloc, &[1, 3, 1])?,
    ) else {
        assert!(rt; false, "no group");
        return Ok(());
    };
    let targets = [
        Target::One(*low.nexthop()),
        Target::One(*high.nexthop()),
        Target::Many(light),
        Target::Many(long),
        Target::Many(heavy),
    ];
    for (i, target) in targets.iter().enumerate() {
        assert!(rt; target.copy(alloc)? == *target, "at {i}");
        for (j, other) in targets.iter().enumerate() {
            assert_eq!(rt; target.order(other), i.cmp(&j), "at {i} and {j}");
        }
    }
    Ok(())
}

#[test]
fn the_laws_are_proved() {
    law_shares_are_all();
    law_slots_are_filled();
    law_small_shares_are_exact();
    law_slots_hold_picked();
}
