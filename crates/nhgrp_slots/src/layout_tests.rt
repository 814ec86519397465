//! Layouts and what is kept of them, by hand.
use crate::{
    OutOfMemory, Paths, keep, law_keep_moves_no_slot_that_stays, law_kept_is_layout,
    law_layout_picks_as_slots, law_left_are_spreads, law_spreads_are_of_paths, pick,
};
use prefix_width::{Addr, Nexthop, Path};
use std::alloc::Global;
use std::test::Fail;

/// The list with one path more, where it may join.
fn joined(
    alloc: Global,
    paths: &Paths<32>,
    path: Path<32>,
) -> Result<Option<Paths<32>>, OutOfMemory> {
    if paths.clashes(&path) {
        return Ok(None);
    }
    if paths.len() >= 64 {
        return Ok(None);
    }
    Ok(Some(paths.with(alloc, path)?))
}

/// The paths by the gateways 0, 1 and so on, with these weights.
fn weighted(alloc: Global, weights: &[u32]) -> Result<Option<Paths<32>>, OutOfMemory> {
    let mut list = None;
    let mut gateway = 0u128;
    for weight in weights {
        let Some(addr) = Addr::new(gateway) else {
            return Ok(None);
        };
        let Some(next) = Path::new(Nexthop::via(addr, 0, 0), *weight) else {
            return Ok(None);
        };
        list = match list {
            None => Some(Paths::one(alloc, next)?),
            Some(paths) => joined(alloc, &paths, next)?,
        };
        gateway = gateway.saturating_add(1);
    }
    Ok(list)
}

/// The paths of these weights, and those that are left of them without the gateway.
fn without(
    alloc: Global,
    weights: &[u32],
    gateway: u128,
    keeps: bool,
) -> Result<Option<(Paths<32>, Paths<32>)>, OutOfMemory> {
    let (Some(old), Some(gateway)) = (weighted(alloc, weights)?, Addr::new(gateway)) else {
        return Ok(None);
    };
    let Some(new) = old.without(alloc, &gateway, keeps)? else {
        return Ok(None);
    };
    Ok(Some((old, new)))
}

#[test]
fn slots_of_a_path_that_leaves_go_to_the_least_full(rt: HostRuntime) -> Result<(), Fail> {
    let alloc = rt.alloc();
    let rows: [(&[u32], u128, &[u8], &[u8]); 9] = [
        (&[1, 1, 2], 0, &[0, 1, 2, 2], &[0, 0, 1, 1]),
        (&[1, 1, 1], 0, &[0, 1, 2], &[0, 0, 1]),
        (&[1, 1, 1], 1, &[0, 1, 2], &[0, 0, 1]),
        (&[1, 1, 1], 2, &[0, 1, 2], &[0, 1, 0]),
        (&[1, 1, 1], 3, &[0, 1, 2], &[0, 1, 2]),
        (&[2, 3], 0, &[0, 0, 1, 1, 1], &[0; 5]),
        (&[3, 1, 2], 0, &[0, 0, 0, 1, 2, 2], &[0, 1, 1, 0, 1, 1]),
        (
            &[1, 2, 3, 4],
            3,
            &[0, 1, 1, 2, 2, 2, 3, 3, 3, 3],
            &[0, 1, 1, 2, 2, 2, 0, 1, 2, 2],
        ),
        (
            &[5, 1, 3, 2],
            0,
            &[0, 0, 0, 0, 0, 1, 2, 2, 2, 3, 3],
            &[0, 1, 2, 1, 2, 0, 1, 1, 1, 2, 2],
        ),
    ];
    for (weights, gateway, before, after) in rows {
        let Some((old, new)) = without(alloc, weights, gateway, true)? else {
            assert!(rt; false, "no paths are left");
            return Ok(());
        };
        assert_eq!(rt; old.layout(), before, "layout of {weights:?}");
        let kept = keep(alloc, old.as_slice(), old.layout(), new.as_slice())?;
        assert_eq!(rt; kept.as_slice(), after, "{weights:?} without {gateway}");
        let several = new.len() > 1;
        assert!(rt;
            !several || new.layout() == after,
            "{weights:?} without {gateway}"
        );
        assert!(rt;
            several || new.layout() == [0u8].as_slice(),
            "{weights:?} without {gateway}"
        );
    }
    Ok(())
}

#[test]
fn paths_that_are_left_get_a_new_layout_where_none_is_kept(rt: HostRuntime) -> Result<(), Fail> {
    let alloc = rt.alloc();
    let rows: [(&[u32], u128, &[u8]); 3] = [
        (&[1, 1, 2], 0, &[0, 1, 1]),
        (&[1, 2, 3, 4], 3, &[0, 1, 1, 2, 2, 2]),
        (&[2, 3], 0, &[0]),
    ];
    for (weights, gateway, after) in rows {
        let Some((_old, new)) = without(alloc, weights, gateway, false)? else {
            assert!(rt; false, "no paths are left");
            return Ok(());
        };
        assert_eq!(rt; new.layout(), after, "{weights:?} without {gateway}");
    }
    Ok(())
}

#[test]
fn equal_paths_with_other_layouts_are_other_groups(rt: HostRuntime) -> Result<(), Fail> {
    let alloc = rt.alloc();
    let kept = without(alloc, &[1, 1, 2], 0, true)?;
    let anew = without(alloc, &[1, 1, 2], 0, false)?;
    let (Some((_, kept)), Some((_, anew))) = (kept, anew) else {
        assert!(rt; false, "no paths are left");
        return Ok(());
    };
    assert!(rt; kept.as_slice() == anew.as_slice());
    assert!(rt; kept != anew);
    assert!(rt; kept < anew);
    Ok(())
}

/// The next of drawn numbers.
fn drawn(state: &mut u32) -> u32 {
    *state = state.wrapping_mul(1_664_525).wrapping_add(1_013_904_223);
    *state >> 8
}

/// How many of 4,096 flows went by the gateway, and how many changed their nexthop.
fn flows(old: &Paths<32>, new: &Paths<32>, gateway: u128) -> (u32, u32) {
    let (mut gone, mut moved) = (0u32, 0u32);
    for flow in 0..4_096u32 {
        let (before, after) = (pick(old, flow), pick(new, flow));
        let left = match before {
            Some(nexthop) => nexthop.gateway().value() == gateway,
            None => false,
        };
        if left {
            gone = gone.saturating_add(1);
        }
        if before != after {
            moved = moved.saturating_add(1);
        }
    }
    (gone, moved)
}

#[test]
fn only_flows_of_a_path_that_leaves_move(rt: HostRuntime) -> Result<(), Fail> {
    let alloc = rt.alloc();
    let mut state = 1u32;
    for group in 0..10_000u32 {
        let mut weights = [0u32; 8];
        for weight in weights.iter_mut() {
            *weight = drawn(&mut state) % 20 + 1;
        }
        let number = drawn(&mut state) % 7 + 2;
        let gateway = u128::from(drawn(&mut state) % number);
        let list = &weights[..number as usize];
        let Some((old, new)) = without(alloc, list, gateway, true)? else {
            assert!(rt; false, "no paths are left");
            return Ok(());
        };
        let (gone, moved) = flows(&old, &new, gateway);
        assert_eq!(rt; moved, gone, "group {group}");
    }
    Ok(())
}

#[test]
fn the_laws_of_layouts_are_proved() {
    law_keep_moves_no_slot_that_stays();
    law_kept_is_layout();
    law_layout_picks_as_slots();
    law_left_are_spreads();
    law_spreads_are_of_paths();
}
