//! What lists of live targets cost.
ghost use Rattle.std.specs.Prelude.{◌≡◌, IfOk};
ghost use Rattle.table_bench.specs.Live.{elements};

use crate::OutOfMemory;
use crate::measure::Rounds;
use bench_kit::{Fault, cpu_time};
use nhgrp_slots::Target;
use rib_store::Rib;
use std::alloc::Global;
use std::time::{CpuClock, Duration};

/// How many rounds are measured.
const ROUNDS: u32 = 100;

/// How often a round makes the list.
const TIMES: u32 = 16;

/// A list that a table gives, or a copy of one.
#[derive(Clone, Copy)]
pub(crate) enum Listing {
    /// The live targets.
    Targets,
    /// A copy of the rows.
    Rows,
    /// A copy of a list of live targets.
    Copies,
}

/// Makes a list in rounds.
pub(crate) fn measure_list<R: CpuClock + AllocGlobal, const LIVE: u32>(
    rt: &R,
    listing: Listing,
    table: &Rib<32, LIVE>,
    targets: &[Target<32>],
) -> Result<Rounds, Fault>
    ensures { IfOk result (λ rounds. rounds.count ≡ elements listing table.now.rows targets.now) }
{
    let mut count = make(rt.alloc(), listing, table, targets)?;
    let mut least = Duration::MAX;
    for round in 0..ROUNDS {
        let _ = round;
        let start = cpu_time(rt)?;
        count = make_often(rt.alloc(), listing, table, targets)?;
        least = least.min(cpu_time(rt)?.saturating_sub(start));
    }
    Ok(Rounds {
        count,
        least,
        times: TIMES,
    })
}

/// Makes the list as often as a round does. Gives how many elements the last has.
fn make_often<const LIVE: u32>(
    alloc: Global,
    listing: Listing,
    table: &Rib<32, LIVE>,
    targets: &[Target<32>],
) -> Result<usize, OutOfMemory>
    ensures { IfOk result (λ count. count ≡ elements listing table.now.rows targets.now) }
{
    for i in 1..TIMES {
        let _ = i;
        make(alloc, listing, table, targets)?;
    }
    make(alloc, listing, table, targets)
}

/// Makes the list. Gives how many elements it has.
fn make<const LIVE: u32>(
    alloc: Global,
    listing: Listing,
    table: &Rib<32, LIVE>,
    targets: &[Target<32>],
) -> Result<usize, OutOfMemory>
    ensures { IfOk result (λ count. count ≡ elements listing table.now.rows targets.now) }
{
    match listing {
        Listing::Targets => {
            let targets = table.targets(alloc)?;
            Ok(targets.len())
        }
        Listing::Rows => {
            let rows = table.rows(alloc)?;
            Ok(rows.len() as usize)
        }
        Listing::Copies => {
            let copies = copies_of(alloc, targets)?;
            Ok(copies.len())
        }
    }
}

/// A copy of each target.
fn copies_of(alloc: Global, targets: &[Target<32>]) -> Result<Vec<Target<32>>, OutOfMemory>
    ensures { IfOk result (λ copies. copies.items ≡ targets.now) }
{
    let mut copies = Vec::with_capacity(alloc, targets.len())?;
    for target in targets {
        copies.push(target.copy(alloc)?)?;
    }
    Ok(copies)
}
