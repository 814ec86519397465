//! Plans of drawn routes.
use crate::OutOfMemory;
use crate::draws::draw_block;
use bench_kit::{Draws, Fault};
use prefix_width::{Addr, Kind, Nexthop, Path, Prefix, Setting};
use rib_store::{Command, Plan, PushError};
use std::alloc::Global;
use std::collections::BTreeSet;
use std::sync::Arc;

/// What is measured: a plan that first makes all its routes and then changes them one at a time, a
/// version each, how many routes there are, and addresses in them.
#[derive(Drop)]
pub(crate) struct Course {
    /// The plan.
    pub(crate) plan: Arc<Plan<32>>,
    /// How many routes it makes.
    pub(crate) routes: u32,
    /// The addresses.
    pub(crate) addrs: Vec<Addr<32>>,
}

/// Draws so many distinct prefixes. There may be fewer in the end where one is drawn often again.
pub(crate) fn draw_prefixes(alloc: Global, count: u32) -> Result<Vec<Prefix<32>>, OutOfMemory> {
    let mut draws = Draws::new(1);
    let mut seen = BTreeSet::new(alloc);
    let mut prefixes = Vec::new(alloc);
    for _ in 0..count.saturating_mul(64) {
        if prefixes.len() >= count as usize {
            break;
        }
        let (len, value) = draw_block(&mut draws);
        if let Some(prefix) = prefix_of(value, len) {
            if seen.insert(prefix)? {
                prefixes.push(prefix)?;
            }
        }
    }
    Ok(prefixes)
}

/// The prefix of this length that contains the address.
fn prefix_of(value: u128, len: u8) -> Option<Prefix<32>> {
    Prefix::masked(Addr::new(value)?, len)
}

/// The path of this weight by one of 64 hosts of 192.0.2.0/24.
fn path_by(host: u32, weight: u32) -> Option<Path<32>> {
    let gateway = Addr::new(0xc000_0200 + u128::from(host % 64))?;
    Path::new(Nexthop::via(gateway, 0, 0), weight)
}

/// An add of a route by a host, of this weight.
pub(crate) fn add(prefix: Prefix<32>, host: u32, weight: u32) -> Result<Command<32>, Fault> {
    let path = path_by(host, weight).ok_or(Fault::Unmade)?;
    Ok(Command::Add { prefix, path })
}

/// A change of a route to a host.
fn change(prefix: Prefix<32>, host: u32) -> Result<Command<32>, Fault> {
    let path = path_by(host, 1).ok_or(Fault::Unmade)?;
    Ok(Command::Change { prefix, path })
}

/// A choice of a module.
pub(crate) fn set_module(kind: Kind) -> Command<32> {
    Command::Algo {
        setting: Setting::Fixed(kind),
    }
}

/// Puts a command behind a plan's others.
pub(crate) fn push(plan: &mut Plan<32>, command: Command<32>) -> Result<(), Fault> {
    match plan.push(command) {
        Ok(()) => Ok(()),
        Err(PushError::OutOfMemory) => Err(Fault::OutOfMemory),
        Err(_) => Err(Fault::Unmade),
    }
}

/// A plan of these routes in this module, and then of so many changes.
fn plan_of(
    alloc: Global,
    kind: Kind,
    prefixes: &[Prefix<32>],
    changes: u32,
) -> Result<Plan<32>, Fault> {
    let mut plan = Plan::new(alloc);
    push(&mut plan, set_module(kind))?;
    for place in 0..prefixes.len() {
        push(&mut plan, add(prefixes[place], (place % 64) as u32, 1)?)?;
    }
    push(&mut plan, Command::Sync)?;
    if prefixes.is_empty() {
        return Ok(plan);
    }
    for turn in 0..changes as usize {
        let place = turn % prefixes.len();
        // Each turn over all routes has another host for each of them.
        let host = (place % 64 + 1 + turn / prefixes.len()) % 64;
        push(&mut plan, change(prefixes[place], host as u32)?)?;
        push(&mut plan, Command::Sync)?;
    }
    Ok(plan)
}

/// So many addresses in the prefixes.
pub(crate) fn addresses_in(
    alloc: Global,
    prefixes: &[Prefix<32>],
    count: usize,
) -> Result<Vec<Addr<32>>, OutOfMemory> {
    let mut draws = Draws::new(3);
    let mut addrs = Vec::with_capacity(alloc, count)?;
    if prefixes.is_empty() {
        return Ok(addrs);
    }
    for _ in 0..count {
        let place = draws.draw() as usize % prefixes.len();
        addrs.push(with_host(&prefixes[place], u128::from(draws.draw())))?;
    }
    Ok(addrs)
}

/// The prefix's first address, with the host bits of a number.
fn with_host(prefix: &Prefix<32>, host: u128) -> Addr<32> {
    let first = prefix.first();
    let mask = prefix.last().value() - first.value();
    Addr::new(first.value() | (host & mask)).unwrap_or(first)
}

/// A course of so many routes in this module, of changes, and of addresses.
pub(crate) fn course_of(
    alloc: Global,
    kind: Kind,
    routes: u32,
    changes: u32,
    addresses: usize,
) -> Result<Course, Fault> {
    let prefixes = draw_prefixes(alloc, routes)?;
    let Ok(count) = u32::try_from(prefixes.len()) else {
        return Err(Fault::Unmade);
    };
    let plan = Arc::new(alloc, plan_of(alloc, kind, &prefixes, changes)?)?;
    let addrs = addresses_in(alloc, &prefixes, addresses)?;
    Ok(Course {
        plan,
        routes: count,
        addrs,
    })
}
