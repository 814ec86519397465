//! How many flows move when a path of a group leaves.
ghost use Rattle.std.specs.Prelude.{◌≡◌, ◌≤◌, ◌<◌, IfOk, length};
ghost use Rattle.prefix_width.specs.Limits.{AreTargets};
ghost use Rattle.rib_store.specs.Profile.{IsProfile};
ghost use Rattle.table_bench.specs.Flows.{flows_by, flows_moved, grouped, is_same, path_of};
ghost use Rattle.table_bench.specs.Live.{prefix_at};

use crate::OutOfMemory;
use crate::live::TARGETS_MAX;
use crate::routes::{address_of, path_by, prefix_of};
use bench_kit::Draws;
use nhgrp_slots::{Paths, pick};
use prefix_width::{Nexthop, Path, Prefix};
use rib_store::{Command, Rib};
use std::alloc::Global;

/// How many flows a group is asked for.
pub(crate) const FLOWS: u32 = 4_096;

/// How many paths a group has at most.
pub(crate) const PATHS_MAX: u32 = 8;

/// The greatest weight of a path.
const WEIGHT_MAX: u32 = 20;

/// What becomes of the flows of groups when one path of each leaves.
#[derive(Clone, Copy)]
pub(crate) struct Moves {
    /// The flows that went by the path that leaves.
    pub(crate) gone: u64,
    /// The flows that move in profile 1, where the paths that are left get a new layout.
    pub(crate) plain: u64,
    /// The flows that move in profile 2, where they keep their slots.
    pub(crate) resilient: u64,
}

/// Draws groups of so many paths, of weights 1 to 20, and a path of each that leaves.
pub(crate) fn moves_of(
    alloc: Global,
    draws: &mut Draws,
    paths: u32,
    groups: u32,
) -> Result<Moves, OutOfMemory>
    requires { (2 ≤ paths) × (paths ≤ 8) }
{
    let mut moves = Moves {
        gone: 0,
        plain: 0,
        resilient: 0,
    };
    for group in 0..groups {
        let _ = group;
        let mut drawn = [0u32; PATHS_MAX as usize];
        for i in 0..PATHS_MAX {
            drawn[i as usize] = draws.draw();
        }
        let leaving = draws.draw() % paths;
        let (gone, plain) = leave(alloc, 1, &drawn[..paths as usize], leaving)?;
        let (_, resilient) = leave(alloc, 2, &drawn[..paths as usize], leaving)?;
        moves.gone = moves.gone.saturating_add(u64::from(gone));
        moves.plain = moves.plain.saturating_add(u64::from(plain));
        moves.resilient = moves.resilient.saturating_add(u64::from(resilient));
    }
    Ok(moves)
}

/// Makes a route by paths whose weights these numbers give, and lets one of them leave. Gives how
/// many flows went by it, and how many move.
fn leave(alloc: Global, profile: u8, drawn: &[u32], leaving: u32) -> Result<(u32, u32), OutOfMemory>
    requires profile { IsProfile profile }
    requires few { length drawn.now ≤ 8 }
    requires leaving { leaving < length drawn.now }
{
    let mut table = table_of::<TARGETS_MAX>(alloc, profile, drawn)?;
    let prefix = route();
    let nexthop = *path_by(leaving).nexthop();
    let old = match table.get(&prefix) {
        Some(paths) => paths.copy(alloc)?,
        None => return Ok((0, 0)),
    };
    let gateway = Some(nexthop.gateway());
    table.apply(alloc, &Command::Delete { prefix, gateway })?;
    match table.get(&prefix) {
        Some(new) => Ok((
            flows_by(&nexthop, &old, FLOWS),
            flows_moved(&old, new, FLOWS),
        )),
        None => Ok((0, 0)),
    }
}

/// A table of a profile whose one route has paths whose weights these numbers give.
#[tactic(auto, unfolding(crate::specs::Flows::grouped))]
fn table_of<const LIVE: u32>(
    alloc: Global,
    profile: u8,
    drawn: &[u32],
) -> Result<Rib<32, LIVE>, OutOfMemory>
    requires targets { AreTargets LIVE }
    requires profile { IsProfile profile }
    requires few { length drawn.now ≤ 8 }
    ensures profile { IfOk result (λ table. table.profile ≡ profile) }
    ensures rows { IfOk result (λ table. table.rows ≡ grouped LIVE profile drawn.now (length drawn.now)) }
{
    let mut table = Rib::with_profile(alloc, profile);
    let prefix = route();
    for i in 0..drawn.len() {
        let path = path_of(i as u32, 1 + drawn[i] % WEIGHT_MAX);
        table.apply(alloc, &Command::Add { prefix, path })?;
    }
    Ok(table)
}

/// The prefix of the route.
fn route() -> Prefix<32>
    ensures { result ≡ prefix_at 0 }
{
    let Some(addr) = address_of(0) else {
        unreachable!()
    };
    prefix_of(addr)
}

/// The path of a weight by the gateway of a number.
fn path_of(number: u32, weight: u32) -> Path<32>
    requires number { number ≤ 8 }
    requires weight { (1 ≤ weight) × (weight ≤ 20) }
    ensures { result ≡ path_of number weight }
{
    Path::new(*path_by(number).nexthop(), weight).unwrap()
}

/// How many of the first flows a group sends to the nexthop.
#[tactic(auto, unfolding(crate::specs::Flows::flows_by))]
fn flows_by(nexthop: &Nexthop<32>, group: &Paths<32>, flows: u32) -> u32
    ensures { result ≡ flows_by nexthop.now group.now flows }
{
    let mut count = 0;
    for flow in 0..flows {
        if is_same(&Some(*nexthop), &pick(group, flow)) {
            count += 1;
        }
    }
    count
}

/// How many of the first flows two groups send to different nexthops.
#[tactic(auto, unfolding(crate::specs::Flows::flows_moved))]
fn flows_moved(old: &Paths<32>, new: &Paths<32>, flows: u32) -> u32
    ensures { result ≡ flows_moved old.now new.now flows }
{
    let mut count = 0;
    for flow in 0..flows {
        if !is_same(&pick(old, flow), &pick(new, flow)) {
            count += 1;
        }
    }
    count
}

/// Whether two answers are the same nexthop.
fn is_same(answer: &Option<Nexthop<32>>, other: &Option<Nexthop<32>>) -> bool
    ensures { result ≡ is_same answer.now other.now }
{
    match (answer, other) {
        (Some(nexthop), Some(second)) => nexthop == second,
        _ => false,
    }
}
