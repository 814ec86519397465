//! Plans whose table is known at each version.
use crate::OutOfMemory;
use crate::rows::{changes_after, command_of};
use bench_kit::{Draws, Fault};
use prefix_width::{Addr, Kind, Prefix, Setting};
use rib_store::{Command, Plan, PushError};
use std::alloc::Global;
use std::collections::BTreeSet;
use std::sync::Arc;

/// A plan that first makes all rows and then changes one a version, and the prefixes of the rows.
#[derive(Drop)]
pub(crate) struct Course {
    /// The plan.
    pub(crate) plan: Arc<Plan<32>>,
    /// The prefixes by place.
    pub(crate) prefixes: Vec<Prefix<32>>,
    /// The module of its versions.
    pub(crate) kind: Kind,
}

/// The first prefix contains every address, and the others nest in 10.0.0.0/8.
fn draw_prefix(draws: &mut Draws, place: usize) -> Option<Prefix<32>> {
    let len = 8 + (draws.draw() % 21) as u8;
    let value = u128::from(0x0a00_0000 | draws.draw() % 0x0100_0000);
    Prefix::masked(Addr::new(value)?, if place == 0 { 0 } else { len })
}

/// Draws so many distinct prefixes. There may be fewer in the end where one is drawn often again.
fn draw_prefixes(alloc: Global, count: usize) -> Result<Vec<Prefix<32>>, OutOfMemory> {
    let mut draws = Draws::new(1);
    let mut seen = BTreeSet::new(alloc);
    let mut prefixes = Vec::new(alloc);
    for _ in 0..count.saturating_mul(64) {
        if prefixes.len() >= count {
            break;
        }
        if let Some(prefix) = draw_prefix(&mut draws, prefixes.len()) {
            if seen.insert(prefix)? {
                prefixes.push(prefix)?;
            }
        }
    }
    Ok(prefixes)
}

/// Puts a command behind a plan's others.
fn push(plan: &mut Plan<32>, command: Command<32>) -> Result<(), Fault> {
    match plan.push(command) {
        Ok(()) => Ok(()),
        Err(PushError::OutOfMemory) => Err(Fault::OutOfMemory),
        Err(_) => Err(Fault::Unmade),
    }
}

/// A plan of these rows in this module, and then of so many turns.
fn plan_of(
    alloc: Global,
    kind: Kind,
    prefixes: &[Prefix<32>],
    turns: usize,
) -> Result<Plan<32>, Fault> {
    let mut plan = Plan::new(alloc);
    push(
        &mut plan,
        Command::Algo {
            setting: Setting::Fixed(kind),
        },
    )?;
    for place in 0..prefixes.len() {
        push(&mut plan, command_of(prefixes[place], place as u64, 0))?;
    }
    push(&mut plan, Command::Sync)?;
    if prefixes.is_empty() {
        return Ok(plan);
    }
    for turn in 0..turns {
        let place = turn % prefixes.len();
        let before = changes_after(turn as u64, place as u64, prefixes.len() as u64);
        let change = before.saturating_add(1);
        push(&mut plan, command_of(prefixes[place], place as u64, change))?;
        push(&mut plan, Command::Sync)?;
    }
    Ok(plan)
}

impl Course {
    /// A course of so many rows in this module, and of so many turns.
    pub(crate) fn new(
        alloc: Global,
        kind: Kind,
        rows: usize,
        turns: usize,
    ) -> Result<Course, Fault> {
        let prefixes = draw_prefixes(alloc, rows)?;
        let plan = Arc::new(alloc, plan_of(alloc, kind, &prefixes, turns)?)?;
        Ok(Course {
            plan,
            prefixes,
            kind,
        })
    }

    /// An address in one of the prefixes, and a flow. `None` where there is no prefix.
    pub(crate) fn draw_packet(&self, draws: &mut Draws) -> Option<(Addr<32>, u32)> {
        let host = u128::from(draws.draw());
        let flow = draws.draw();
        let place = draws.draw() as usize % self.prefixes.len().max(1);
        let prefix = self.prefixes.get(place)?;
        Some((with_host(prefix, host), flow))
    }
}

/// The prefix's first address, with the host bits of a number.
fn with_host(prefix: &Prefix<32>, host: u128) -> Addr<32> {
    let first = prefix.first();
    let mask = prefix.last().value() - first.value();
    Addr::new(first.value() | (host & mask)).unwrap_or(first)
}
