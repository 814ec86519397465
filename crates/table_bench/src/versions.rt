//! What the indexes of a new version cost.
ghost use Rattle.std.specs.Prelude.{◌≡◌, ◌≤◌, IfOk, length};
ghost use Rattle.std.specs.List.Sorted.{IsStrictlySortedBy};
ghost use Rattle.nhgrp_slots.specs.Target.{target_cmp};
ghost use Rattle.nhop_index.specs.Book.{Remembers};
ghost use Rattle.table_bench.specs.Versions.{Versions, both, after_rounds, newest_fresh};

use crate::OutOfMemory;
use crate::measure::Rounds;
use bench_kit::{Fault, cpu_time};
use nhgrp_slots::Target;
use nhop_index::IndexBook;
use std::alloc::Global;
use std::time::{CpuClock, Duration};

/// How many rounds are measured, each of two versions.
const ROUNDS: u32 = 200;

/// Gives versions in rounds, each of the one list of live targets and then the other. The count is
/// that of the indexes that the last version has and the one before hasn't.
pub(crate) fn measure_next<R: CpuClock + AllocGlobal, const K: u64, const LIVE: u32>(
    rt: &R,
    book: &mut IndexBook<32, K, LIVE>,
    one: &[Target<32>],
    other: &[Target<32>],
) -> Result<Rounds, Fault>
    requires one { IsStrictlySortedBy target_cmp one.now × (length one.now ≤ LIVE) }
    requires other { IsStrictlySortedBy target_cmp other.now × (length other.now ≤ LIVE) }
    ensures { IfOk result (λ rounds. (versions : Versions) → Remembers K versions book.old → Remembers K (after_rounds K one.now other.now versions 200) book.new × (rounds.count ≡ newest_fresh (after_rounds K one.now other.now versions 200))) }
{
    let mut count = 0;
    let mut least = Duration::MAX;
    for round in 0..ROUNDS {
        let _ = round;
        let start = cpu_time(rt)?;
        count = next_both(rt.alloc(), book, one, other)?;
        least = least.min(cpu_time(rt)?.saturating_sub(start));
    }
    Ok(Rounds {
        count,
        least,
        times: 2,
    })
}

/// Gives a version of the one list and then of the other. Gives how many indexes the second has
/// that the first hasn't.
fn next_both<const K: u64, const LIVE: u32>(
    alloc: Global,
    book: &mut IndexBook<32, K, LIVE>,
    one: &[Target<32>],
    other: &[Target<32>],
) -> Result<usize, OutOfMemory>
    requires one { IsStrictlySortedBy target_cmp one.now × (length one.now ≤ LIVE) }
    requires other { IsStrictlySortedBy target_cmp other.now × (length other.now ≤ LIVE) }
    ensures { IfOk result (λ count. (versions : Versions) → Remembers K versions book.old → Remembers K (both K one.now other.now versions) book.new × (count ≡ newest_fresh (both K one.now other.now versions))) }
{
    book.next(alloc, one)?;
    let indexes = book.next(alloc, other)?;
    Ok(indexes.fresh().len())
}
