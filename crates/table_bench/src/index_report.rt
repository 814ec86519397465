//! What is printed of lists and versions of live targets.
ghost use Rattle.std.specs.Prelude.{◌≤◌, length};
ghost use Rattle.std.specs.List.Sorted.{IsStrictlySortedBy};
ghost use Rattle.nhgrp_slots.specs.Target.{target_cmp};

use crate::lists::{Listing, measure_list};
use crate::live::{TARGETS_MAX, move_three, table_of};
use crate::measure::Rounds;
use crate::versions::measure_next;
use bench_kit::{Fault, printed, tenths};
use nhgrp_slots::Target;
use nhop_index::IndexBook;
use rib_store::Rib;
use std::time::CpuClock;

/// How many versions may be in use at once, as in the program `route_cli`.
const BANKS: u64 = 8;

/// The first gateway of a table that shares none with the one whose first is 0.
const APART: u32 = 8_192;

/// Makes lists of so many live targets, and versions of them, and prints what they come to: times
/// or counts.
pub(crate) fn report_indexes<R: Print + AllocGlobal + CpuClock>(
    rt: &R,
    timed: bool,
    live: u32,
) -> Result<(), Fault>
    requires { (8 ≤ live) × (live ≤ 4095) }
{
    let alloc = rt.alloc();
    let mut table = table_of::<TARGETS_MAX>(alloc, live, 0)?;
    let one = table.targets(alloc)?;
    report_lists(rt, timed, live, &table, &one)?;
    move_three(&mut table, alloc, live, 0)?;
    let other = table.targets(alloc)?;
    let apart = table_of::<TARGETS_MAX>(alloc, live, APART)?.targets(alloc)?;
    let mut book = IndexBook::<32, BANKS, TARGETS_MAX>::new(alloc);
    report_versions(rt, timed, live, &mut book, &one, &other, &apart)
}

/// Makes lists, and prints what they come to.
fn report_lists<R: Print + AllocGlobal + CpuClock, const LIVE: u32>(
    rt: &R,
    timed: bool,
    live: u32,
    table: &Rib<32, LIVE>,
    targets: &[Target<32>],
) -> Result<(), Fault> {
    for (name, listing) in [
        ("targets", Listing::Targets),
        ("rows", Listing::Rows),
        ("copies", Listing::Copies),
    ] {
        let rounds = measure_list(rt, listing, table, targets)?;
        print(rt, timed, (name, live), &rounds)?;
    }
    Ok(())
}

/// Gives versions of two lists of live targets in turn, and prints what they come to: of the one
/// list and the other, of the one and the list that shares none with it, and of the first two
/// again, where older versions have many indexes.
fn report_versions<R: Print + AllocGlobal + CpuClock, const K: u64, const LIVE: u32>(
    rt: &R,
    timed: bool,
    live: u32,
    book: &mut IndexBook<32, K, LIVE>,
    one: &[Target<32>],
    other: &[Target<32>],
    apart: &[Target<32>],
) -> Result<(), Fault>
    requires one { IsStrictlySortedBy target_cmp one.now × (length one.now ≤ LIVE) }
    requires other { IsStrictlySortedBy target_cmp other.now × (length other.now ≤ LIVE) }
    requires apart { IsStrictlySortedBy target_cmp apart.now × (length apart.now ≤ LIVE) }
{
    let three = measure_next(rt, book, one, other)?;
    print(rt, timed, ("three", live), &three)?;
    let all = measure_next(rt, book, one, apart)?;
    print(rt, timed, ("all", live), &all)?;
    let late = measure_next(rt, book, one, other)?;
    print(rt, timed, ("late", live), &late)
}

/// Prints what rounds come to: what each time takes, if asked, and the count.
fn print<R: Print>(rt: &R, timed: bool, title: (&str, u32), rounds: &Rounds) -> Result<(), Fault> {
    let (name, live) = title;
    let count = rounds.count;
    let (nanos, tenth) = tenths(rounds.least.as_nanos(), u128::from(rounds.times));
    let outcome = if timed {
        println!(rt; "{name} {live}: {nanos}.{tenth} ns, {count}")
    } else {
        println!(rt; "{name} {live}: {count}")
    };
    printed(outcome)
}
