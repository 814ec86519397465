//! Plans whose versions are measured: they make routes, and then change them in rounds.
ghost use Rattle.std.specs.Prelude.{◌≡◌, ◌+◌, ◌<◌, length, IfOk, OnOk};
ghost use Rattle.control_bench.specs.Course.{change_at, path_by};

use crate::fib::push;
use bench_kit::Fault;
use prefix_width::{Addr, Kind, Nexthop, Path, Prefix, Setting};
use rib_store::{Command, Plan};
use std::alloc::Global;

/// How many rounds there are, how many versions of one change each has, and how many changes its
/// last version has at once.
pub(crate) const ROUNDS: u32 = 48;

pub(crate) const SINGLES: u32 = 32;

pub(crate) const BATCH: u32 = 256;

/// The path by one of 64 hosts of 192.0.2.0/24.
fn path_by(host: u32) -> Path<32>
    requires { host < 64 }
    ensures { result ≡ path_by host }
{
    let Some(gateway) = Addr::new(0xc000_0200 + u128::from(host)) else {
        unreachable!()
    };
    match Path::new(Nexthop::via(gateway, 0, 0), 1) {
        Some(path) => path,
        None => unreachable!(),
    }
}

/// Adds each route, by the hosts in turn.
fn push_routes(plan: &mut Plan<32>, prefixes: &[Prefix<32>]) -> Result<(), Fault>
    ensures { OnOk result (length plan.new.commands ≡ length plan.old.commands + length prefixes.now + 1) }
{
    for place in 0..prefixes.len() {
        let path = path_by((place % 64) as u32);
        let prefix = prefixes[place];
        push(plan, Command::Add { prefix, path })?;
    }
    push(plan, Command::Sync)
}

/// The change of a turn. Each turn over all routes has another host for each of them.
fn change_at(prefixes: &[Prefix<32>], turn: usize) -> Option<Command<32>>
    ensures { result ≡ change_at prefixes.now turn }
{
    let len = prefixes.len();
    if len == 0 {
        return None;
    }
    let host = (turn % len % 64 + 1 + turn / len % 64) % 64;
    let prefix = prefixes[turn % len];
    let path = path_by(host as u32);
    Some(Command::Change { prefix, path })
}

/// Makes the changes of so many turns from one on, with a version for each or one for all.
fn push_changes(
    plan: &mut Plan<32>,
    prefixes: &[Prefix<32>],
    from: usize,
    turns: u32,
) -> Result<(), Fault>
    ensures { OnOk result (length plan.new.commands ≡ length plan.old.commands + turns) }
{
    for turn in 0..turns {
        let change = change_at(prefixes, from.wrapping_add(turn as usize)).ok_or(Fault::Unmade)?;
        push(plan, change)?;
    }
    Ok(())
}

/// A round of versions of one change each, and one of [`BATCH`] changes.
fn push_round(plan: &mut Plan<32>, prefixes: &[Prefix<32>], from: usize) -> Result<(), Fault>
    ensures { OnOk result (length plan.new.commands ≡ length plan.old.commands + 321) }
{
    for turn in 0..SINGLES {
        push_changes(plan, prefixes, from.wrapping_add(turn as usize), 1)?;
        push(plan, Command::Sync)?;
    }
    push_changes(plan, prefixes, from.wrapping_add(SINGLES as usize), BATCH)?;
    push(plan, Command::Sync)
}

/// A plan that makes these routes in a module, and then changes them in rounds.
pub(crate) fn course_of(
    alloc: Global,
    kind: Kind,
    prefixes: &[Prefix<32>],
) -> Result<Plan<32>, Fault>
    ensures { IfOk result (λ plan. length plan.commands ≡ length prefixes.now + 15410) }
{
    let mut plan = Plan::new(alloc);
    push(
        &mut plan,
        Command::Algo {
            setting: Setting::Fixed(kind),
        },
    )?;
    push_routes(&mut plan, prefixes)?;
    for round in 0..ROUNDS {
        let from = round * (SINGLES + BATCH);
        push_round(&mut plan, prefixes, from as usize)?;
    }
    Ok(plan)
}
