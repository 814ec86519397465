//! Commands with their replies and tables, by hand.
use crate::{Command, Refusal, Reply, Rib, Rows};
use nhgrp_slots::Target;
use prefix_width::{Addr, Nexthop, Path, Prefix};
use std::alloc::Global;
use std::test::Fail;

/// 10.0.0.0 and 192.0.0.0.
const TEN: u128 = 0x0a00_0000;

const NET: u128 = 0xc000_0000;

fn prefix(base: u128, len: u8) -> Option<Prefix<32>> {
    Prefix::masked(Addr::new(base)?, len)
}

/// The nexthop by the host of 192.0.0.0/16, or the attached interface 1 where the host is 0.
fn nexthop(host: u128) -> Option<Nexthop<32>> {
    if host == 0 {
        return Nexthop::direct(1, 0);
    }
    Some(Nexthop::via(Addr::new(NET | host)?, 0, 0))
}

/// An add of the prefix by the host.
fn add(base: u128, len: u8, host: u128, weight: u32) -> Option<Command<32>> {
    let path = Path::new(nexthop(host)?, weight)?;
    Some(Command::Add {
        prefix: prefix(base, len)?,
        path,
    })
}

/// A change of 10.0.0.0/8 to the host.
fn change(host: u128) -> Option<Command<32>> {
    let path = Path::new(nexthop(host)?, 1)?;
    Some(Command::Change {
        prefix: prefix(TEN, 8)?,
        path,
    })
}

/// A delete of 10.0.0.0/8, or of its paths by the gateway.
fn delete(gateway: Option<u128>) -> Option<Command<32>> {
    let prefix = prefix(TEN, 8)?;
    let gateway = match gateway {
        None => None,
        Some(value) => Some(Addr::new(value)?),
    };
    Some(Command::Delete { prefix, gateway })
}

#[test]
fn a_route_is_added_changed_and_deleted(rt: HostRuntime) -> Result<(), Fail> {
    let alloc = rt.alloc();
    let mut rib = Rib::<32, 4095>::new(alloc);
    let missing = Reply::Refused(Refusal::NotFound);
    for (command, reply) in [
        (change(2), missing),
        (add(TEN, 8, 1, 1), Reply::Added),
        (add(0x0a09_0909, 8, 1, 5), Reply::Refused(Refusal::Exists)),
        (change(2), Reply::Changed),
        (change(2), Reply::Changed),
        (delete(Some(NET | 1)), missing),
        (Some(Command::Tick { ms: 7 }), Reply::Nothing),
        (delete(Some(NET | 2)), Reply::Deleted),
        (delete(None), missing),
        (add(TEN, 8, 1, 1), Reply::Added),
        (delete(None), Reply::Deleted),
    ] {
        let command = command.ok_or("no command")?;
        assert_eq!(rt; rib.apply(alloc, &command)?, reply);
    }
    assert_eq!(rt; (rib.len(), rib.targets(alloc)?.len()), (0, 0));
    Ok(())
}

#[test]
fn flows_are_shared_by_weight(rt: HostRuntime) -> Result<(), Fail> {
    let alloc = rt.alloc();
    let mut rib = Rib::<32, 4095>::new(alloc);
    for command in [
        add(TEN, 8, 2, 3),
        add(TEN, 8, 1, 1),
        add(0x0a01_0000, 16, 3, 1),
    ] {
        rib.apply(alloc, &command.ok_or("no command")?)?;
    }
    let rows = rib.rows(alloc)?;
    assert_eq!(rt; (rows.len(), Rows::<32>::new(alloc).len()), (2, 0));
    for (value, flow, host) in [
        (TEN, 0, 1),
        (TEN, 1, 2),
        (TEN, 2, 2),
        (TEN, 3, 2),
        (TEN, 4, 1),
        (0x0a01_ffff, 0, 3),
        (0x0a02_0000, 3, 2),
    ] {
        let addr = Addr::new(value).ok_or("no address")?;
        assert_eq!(rt;
            rows.answer(&addr, flow),
            nexthop(host),
            "at {value} {flow}"
        );
    }
    let targets = rib.targets(alloc)?;
    assert_eq!(rt; targets.len(), 4);
    let first = nexthop(1).ok_or("no nexthop")?;
    assert!(rt; targets[0] == Target::One(first));
    Ok(())
}

#[test]
fn a_route_has_64_paths_at_most(rt: HostRuntime) -> Result<(), Fail> {
    let alloc = rt.alloc();
    let mut rib = Rib::<32, 4095>::new(alloc);
    for host in 1..66u32 {
        let command = add(TEN, 8, u128::from(host), 1).ok_or("no command")?;
        let want = match host {
            1 => Reply::Added,
            65 => Reply::Refused(Refusal::PathsFull),
            _ => Reply::Joined,
        };
        assert_eq!(rt; rib.apply(alloc, &command)?, want, "at {host}");
    }
    Ok(())
}

#[test]
fn a_flush_keeps_what_goes_by_no_gateway(rt: HostRuntime) -> Result<(), Fail> {
    let alloc = rt.alloc();
    let mut rib = Rib::<32, 4095>::new(alloc);
    for (command, reply) in [
        (add(0, 0, 0, 1), Reply::Added),
        (add(TEN, 8, 1, 1), Reply::Added),
        (add(TEN, 8, 0, 1), Reply::Joined),
        (Some(Command::Flush), Reply::Flushed(1)),
        (delete(None), Reply::Refused(Refusal::NotFound)),
    ] {
        let command = command.ok_or("no command")?;
        assert_eq!(rt; rib.apply(alloc, &command)?, reply);
    }
    let default = prefix(0, 0).ok_or("no prefix")?;
    assert!(rt; rib.get(&default).is_some());
    assert_eq!(rt; rib.len(), 1);
    Ok(())
}

#[test]
fn a_table_has_262144_routes_at_most(rt: HostRuntime) -> Result<(), Fail> {
    let alloc = rt.alloc();
    let mut rib = Rib::<32, 4095>::new(alloc);
    for host in 0..262_144u32 {
        let command = add(u128::from(host), 32, 1, 1).ok_or("no command")?;
        assert_eq!(rt; rib.apply(alloc, &command)?, Reply::Added, "at {host}");
    }
    for (command, reply) in [
        (add(262_144, 32, 1, 1), Reply::Refused(Refusal::TableFull)),
        (add(0, 32, 2, 1), Reply::Joined),
    ] {
        let command = command.ok_or("no command")?;
        assert_eq!(rt; rib.apply(alloc, &command)?, reply);
    }
    assert_eq!(rt; rib.len(), 262_144);
    Ok(())
}

#[test]
fn a_table_has_as_many_live_targets_as_it_says(rt: HostRuntime) -> Result<(), Fail> {
    let alloc = rt.alloc();
    let mut few = Rib::<32, 3>::new(alloc);
    let full = Reply::Refused(Refusal::TargetsFull);
    // Two nexthops and their group; a third nexthop is one too many, before and behind them.
    for (command, reply) in [
        (add(TEN, 8, 1, 1), Reply::Added),
        (add(TEN, 8, 2, 1), Reply::Joined),
        (add(TEN, 9, 3, 1), full),
        (add(TEN, 8, 3, 1), full),
        (add(TEN, 9, 2, 1), Reply::Added),
        (delete(Some(NET | 1)), Reply::Deleted),
        (add(TEN, 10, 3, 1), Reply::Added),
        (add(TEN, 11, 4, 1), Reply::Added),
        (add(TEN, 12, 5, 1), full),
    ] {
        let command = command.ok_or("no command")?;
        assert_eq!(rt; few.apply(alloc, &command)?, reply);
    }
    assert_eq!(rt; few.targets(alloc)?.len(), 3);
    let mut most = Rib::<32, 4095>::new(alloc);
    for host in 1..4097u32 {
        let command = add(u128::from(host), 32, u128::from(host), 1).ok_or("no command")?;
        let want = if host == 4096 { full } else { Reply::Added };
        assert_eq!(rt; most.apply(alloc, &command)?, want, "at {host}");
    }
    assert_eq!(rt; most.targets(alloc)?.len(), 4095);
    Ok(())
}

/// The nexthops of four flows to a group that a path has left, and how many targets are live beside
/// a group of the same paths that none has left.
fn left_group(
    alloc: Global,
    rib: &mut Rib<32, 4095>,
) -> Result<([Option<Nexthop<32>>; 4], usize), Fail> {
    for command in [
        add(TEN, 8, 1, 1),
        add(TEN, 8, 2, 1),
        add(TEN, 8, 3, 2),
        add(0x0b00_0000, 8, 2, 1),
        add(0x0b00_0000, 8, 3, 2),
        delete(Some(NET | 1)),
    ] {
        rib.apply(alloc, &command.ok_or("no command")?)?;
    }
    let rows = rib.rows(alloc)?;
    let addr = Addr::new(TEN).ok_or("no address")?;
    let mut hops = [None; 4];
    for (flow, hop) in hops.iter_mut().enumerate() {
        *hop = rows.answer(&addr, flow as u32);
    }
    Ok((hops, rib.targets(alloc)?.len()))
}

#[test]
fn slots_of_paths_that_stay_are_kept_in_profile_2(rt: HostRuntime) -> Result<(), Fail> {
    let alloc = rt.alloc();
    let mut plain = Rib::<32, 4095>::with_profile(alloc, 1);
    assert_eq!(rt; plain.profile(), 1);
    let (hops, targets) = left_group(alloc, &mut plain)?;
    assert_eq!(rt; hops, [nexthop(2), nexthop(3), nexthop(3), nexthop(2)]);
    assert_eq!(rt; targets, 3);
    let mut resilient = Rib::<32, 4095>::with_profile(alloc, 2);
    assert_eq!(rt; resilient.profile(), 2);
    let (hops, targets) = left_group(alloc, &mut resilient)?;
    assert_eq!(rt; hops, [nexthop(2), nexthop(2), nexthop(3), nexthop(3)]);
    assert_eq!(rt; targets, 4);
    Ok(())
}

#[test]
fn refusals_are_numbered(rt: HostRuntime) {
    for (refusal, number) in [
        (Refusal::Exists, 1),
        (Refusal::NotFound, 2),
        (Refusal::PathsFull, 3),
        (Refusal::TableFull, 4),
        (Refusal::TargetsFull, 5),
    ] {
        assert_eq!(rt; refusal as u8, number);
    }
}
