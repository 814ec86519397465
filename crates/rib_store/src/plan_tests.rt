//! Plans, by hand.
use crate::{Command, Plan, PushError};
use prefix_width::{Addr, Kind, Nexthop, Path, Prefix, Setting};
use std::test::Fail;

fn via(gateway: u128) -> Option<Nexthop<32>> {
    Some(Nexthop::via(Addr::new(gateway)?, 0, 0))
}

fn path(gateway: u128) -> Option<Path<32>> {
    Path::new(via(gateway)?, 1)
}

fn prefix(base: u128, len: u8) -> Option<Prefix<32>> {
    Prefix::masked(Addr::new(base)?, len)
}

fn add(base: u128, len: u8, gateway: u128) -> Option<Command<32>> {
    let prefix = prefix(base, len)?;
    let path = path(gateway)?;
    Some(Command::Add { prefix, path })
}

#[test]
fn a_plan_keeps_its_commands_in_order(rt: HostRuntime) -> Result<(), Fail> {
    let mut plan = Plan::<32>::new(rt.alloc());
    let first = add(0x0a00_0000, 8, 1).ok_or("no command")?;
    let second = add(0x0b00_0000, 8, 2).ok_or("no command")?;
    plan.push(first)?;
    plan.push(second)?;
    assert_eq!(rt; plan.len(), 2);
    assert_eq!(rt; *plan.command(0), first);
    assert_eq!(rt; *plan.command(1), second);
    Ok(())
}

#[test]
fn nexthops_are_numbered_by_first_appearance(rt: HostRuntime) -> Result<(), Fail> {
    let mut plan = Plan::<32>::new(rt.alloc());
    let (one, two, three) = (
        via(1).ok_or("no nexthop")?,
        via(2).ok_or("no nexthop")?,
        via(3).ok_or("no nexthop")?,
    );
    let ten = prefix(0x0a00_0000, 8).ok_or("no prefix")?;
    let second = path(2).ok_or("no path")?;
    let third = Addr::new(3).ok_or("no address")?;
    plan.push(add(0x0a00_0000, 8, 1).ok_or("no command")?)?;
    plan.push(Command::Change {
        prefix: ten,
        path: second,
    })?;
    plan.push(add(0x0b00_0000, 8, 1).ok_or("no command")?)?;
    plan.push(Command::Flush)?;
    plan.push(Command::Delete {
        prefix: ten,
        gateway: Some(third),
    })?;
    assert_eq!(rt; plan.len(), 5);
    assert_eq!(rt; plan.nexthops(), 2);
    assert_eq!(rt; plan.number_of(&one), Some(1));
    assert_eq!(rt; plan.number_of(&two), Some(2));
    assert_eq!(rt; plan.number_of(&three), None);
    assert_eq!(rt; *plan.nexthop(2), two);
    Ok(())
}

#[test]
fn a_plan_has_a_profile(rt: HostRuntime) -> Result<(), Fail> {
    let alloc = rt.alloc();
    assert_eq!(rt; Plan::<32>::new(alloc).profile(), 1);
    let mut plan = Plan::<32>::with_profile(alloc, 2);
    plan.push(Command::Sync)?;
    assert_eq!(rt; (plan.profile(), plan.len()), (2, 1));
    plan.set_profile(1);
    assert_eq!(rt; (plan.profile(), plan.len()), (1, 1));
    Ok(())
}

#[test]
fn dxr_is_for_32_bits_alone(rt: HostRuntime) -> Result<(), Fail> {
    let setting = Setting::Fixed(Kind::Dxr);
    let mut inet = Plan::<32>::new(rt.alloc());
    assert_eq!(rt; inet.push(Command::Algo { setting }), Ok(()));
    assert_eq!(rt; inet.len(), 1);
    let mut inet6 = Plan::<128>::new(rt.alloc());
    assert_eq!(rt;
        inet6.push(Command::Algo { setting }),
        Err(PushError::WrongModule)
    );
    assert_eq!(rt; inet6.len(), 0);
    let setting = Setting::Fixed(Kind::Radix);
    assert_eq!(rt; inet6.push(Command::Algo { setting }), Ok(()));
    Ok(())
}

#[test]
fn a_plan_has_1048576_commands_at_most(rt: HostRuntime) -> Result<(), Fail> {
    let mut plan = Plan::<32>::new(rt.alloc());
    for _ in 0..1_048_576u32 {
        plan.push(Command::Sync)?;
    }
    assert_eq!(rt; plan.push(Command::Sync), Err(PushError::PlanFull));
    assert_eq!(rt; plan.len(), 1_048_576);
    Ok(())
}
