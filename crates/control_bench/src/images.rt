//! What the image of a version answers, beside the scan of its table.
ghost use Rattle.std.specs.Prelude.{◌≡◌, option_map, IfSome};

use crate::fib::Control;
use bench_kit::Fault;
use fib_sync::lookup;
use module_trait::Steps;
use nhgrp_slots::Target;
use prefix_width::{Addr, Kind, Nexthop};
use std::alloc::Global;
use std::sync::ledger::Ledger;

/// What the image of a version answers.
#[derive(Clone, Copy, Debug, PartialEq, Eq)]
pub(crate) struct Answers {
    pub(crate) version: u64,
    /// How many commands it counts.
    pub(crate) commands: u32,
    pub(crate) kind: Kind,
    pub(crate) routes: u32,
    /// How many of its nexthops are fresh.
    pub(crate) fresh: usize,
    /// A sum of the indexes of its answers and of their gateways.
    pub(crate) sum: u64,
}

/// A sum with one more number in it, which depends on their order.
pub(crate) fn mixed(sum: u64, more: u64) -> u64 {
    sum.rotate_left(5)
        .wrapping_add(more)
        .wrapping_mul(0x9e37_79b9_7f4a_7c15)
}

/// The index that the last image gives, and its nexthop.
fn found<L: Ledger, const W: u32>(
    control: &Control<W>,
    addr: Addr<W>,
    flow: u32,
    steps: &mut Steps<L>,
) -> Option<(u16, Nexthop<W>)> {
    let index = lookup(control.image(), addr, flow, steps)?;
    match control.indexes().target_of(index) {
        Some(Target::One(nexthop)) => Some((index, *nexthop)),
        _ => None,
    }
}

/// The number of an answer, where it is the one that is wanted.
fn number_of<const W: u32>(
    found: Option<(u16, Nexthop<W>)>,
    wanted: Option<Nexthop<W>>,
) -> Option<u64>
    ensures { IfSome result (λ number. option_map (λ f. f.1) found.entry ≡ wanted.entry) }
{
    let Some((index, nexthop)) = found else {
        return if wanted.is_none() { Some(0) } else { None };
    };
    if wanted != Some(nexthop) {
        return None;
    }
    let gateway = (nexthop.gateway().value() % 4_294_967_296) as u64;
    Some(gateway.wrapping_mul(65_536).wrapping_add(u64::from(index)))
}

/// The sum of what the last image answers, each answer compared with the scan of its table.
fn sum_of<L: Ledger, const W: u32>(
    alloc: Global,
    control: &Control<W>,
    flows: &[(Addr<W>, u32)],
    steps: &mut Steps<L>,
) -> Result<u64, Fault> {
    let rows = control.rib().rows(alloc)?;
    let mut sum = 0;
    for (addr, flow) in flows {
        let answer = found(control, *addr, *flow, steps);
        let number = number_of(answer, rows.answer(addr, *flow)).ok_or(Fault::Answer)?;
        sum = mixed(sum, number);
    }
    Ok(sum)
}

/// What the last image answers to flows.
pub(crate) fn answers_of<L: Ledger, const W: u32>(
    alloc: Global,
    control: &Control<W>,
    flows: &[(Addr<W>, u32)],
    steps: &mut Steps<L>,
) -> Result<Answers, Fault> {
    let sum = sum_of(alloc, control, flows, steps)?;
    let image = control.image();
    Ok(Answers {
        version: image.version(),
        commands: image.count(),
        kind: image.kind(),
        routes: image.routes(),
        fresh: image.fresh().len(),
        sum,
    })
}
