//! What a pass does, and what it found.
ghost use Rattle.std.specs.Prelude.{◌≡◌, ◌<◌};

use crate::fib::Pass;
use bench_kit::{Fault, cpu_time};
use module_trait::Steps;
use prefix_width::Addr;
use std::alloc::Global;
use std::marker::Brand;
use std::sync::ledger::{Blank, Ledger};
use std::time::{CpuClock, Duration};

/// How many lookups share an epoch where they share one.
const BATCH: usize = 64;

/// How a pass looks up.
#[derive(Clone, Copy, Debug, PartialEq, Eq)]
pub(crate) enum Way {
    /// Each lookup in an epoch of its own.
    Singly,
    /// [`BATCH`] lookups in one epoch.
    Batched,
}

/// What a pass has found.
#[derive(Clone, Copy, Debug, PartialEq, Eq)]
pub(crate) struct Found {
    /// How many lookups were made.
    pub(crate) lookups: u64,
    /// How many of them were answered with a nexthop.
    pub(crate) answered: u64,
    /// The processor time that its thread took.
    pub(crate) time: Duration,
}

/// Looks addresses up, each in an epoch of its own, and counts the nexthops.
fn look_up_singly<L: Ledger>(pass: &mut Pass, addrs: &[Addr<32>], steps: &mut Steps<L>) -> u64 {
    let mut answered = 0u64;
    for addr in addrs {
        if let Ok(answer) = pass.lookup(*addr, 0, steps) {
            answered = answered.wrapping_add(u64::from(answer.nexthop.is_some()));
        }
    }
    answered
}

/// Looks addresses up in one epoch, and counts the nexthops.
fn look_up_at_once<L: Ledger>(pass: Pass, addrs: &[Addr<32>], steps: &mut Steps<L>) -> (Pass, u64) {
    let mut answered = 0u64;
    let mut inside = pass.enter();
    for addr in addrs {
        if let Ok(answer) = inside.lookup(*addr, 0, steps) {
            answered = answered.wrapping_add(u64::from(answer.nexthop.is_some()));
        }
    }
    (inside.leave(), answered)
}

/// Looks addresses up, [`BATCH`] in one epoch, and counts the nexthops.
fn look_up_batched<L: Ledger>(pass: Pass, addrs: &[Addr<32>], steps: &mut Steps<L>) -> (Pass, u64) {
    let mut pass = pass;
    let mut answered = 0u64;
    for batch in addrs.chunks(BATCH) {
        let (back, more) = look_up_at_once(pass, batch, steps);
        pass = back;
        answered = answered.wrapping_add(more);
    }
    (pass, answered)
}

/// Looks addresses up, and measures it.
fn read_counted<R: CpuClock, L: Ledger>(
    rt: &R,
    alloc: Global,
    pass: Pass,
    addrs: &[Addr<32>],
    way: Way,
    blank: Blank,
) -> Result<Found, Fault>
    requires name { blank.name ≡ L.name }
    requires parts { blank.parts ≡ L.parts }
    requires some { 0 < blank.parts }
{
    let mut steps = Steps::<L>::new(alloc, blank)?;
    let mut pass = pass;
    let start = cpu_time(rt)?;
    let (pass, answered) = match way {
        Way::Singly => {
            let answered = look_up_singly(&mut pass, addrs, &mut steps);
            (pass, answered)
        }
        Way::Batched => look_up_batched(pass, addrs, &mut steps),
    };
    let time = cpu_time(rt)?.saturating_sub(start);
    Ok(Found {
        lookups: u64::from(pass.lookups()),
        answered,
        time,
    })
}

/// Looks addresses up with a counter of its own, and measures it.
pub(crate) fn read<R: CpuClock>(
    rt: &R,
    alloc: Global,
    pass: Pass,
    addrs: &[Addr<32>],
    way: Way,
) -> Result<Found, Fault> {
    read_counted::<R, Brand>(rt, alloc, pass, addrs, way, Blank::new(1))
}
