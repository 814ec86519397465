//! What is printed.
ghost use Rattle.std.specs.Prelude.{◌≤◌};
ghost use Rattle.epoch_bench.specs.Words.{HasRounds};
ghost use Rattle.epoch_bench.specs.declared.job.TheConstants.{ROUNDS_MAX};

use crate::beside::{Beside, run_beside};
use crate::hits::{HITS_MAX, time_close, time_hits, time_turns};
use crate::idle::{Idle, run_idle};
use crate::job::Job;
use crate::writer::Goal;
use bench_kit::{Fault, per_second, printed, tenths};
use std::sync::Wait;
use std::thread::Threads;
use std::time::{CpuClock, Duration};

/// How many versions are placed when readers are shown.
const SHOWN_VERSIONS: u64 = 1_000;

/// How often each reader enters when readers are shown.
const SHOWN_ROUNDS: u64 = 20_000;

/// Does a job.
pub(crate) fn work<R: Print + AllocGlobal + CpuClock + Threads + Wait + Sync>(
    rt: &R,
    job: Job,
) -> Result<(), Fault>
    requires { HasRounds job }
{
    match job {
        Job::Show => show(rt),
        Job::Time(rounds) => time(rt, rounds),
    }
}

/// Prints what 1, 2 and 3 readers find beside a control, and what a control does beside 64 idle
/// ones.
fn show<R: Print + AllocGlobal + CpuClock + Threads + Wait + Sync>(rt: &R) -> Result<(), Fault> {
    for readers in 1..=3u8 {
        let goal = Goal::Versions(SHOWN_VERSIONS);
        let beside = run_beside(rt, rt.alloc(), readers, SHOWN_ROUNDS, goal)?;
        print_found(rt, readers, &beside)?;
    }
    let idle = run_idle(rt, rt.alloc(), 64, SHOWN_VERSIONS)?;
    let Idle { placed, last, .. } = idle;
    printed(println!(rt; "64 idle: {placed} versions placed, {last} at close"))
}

/// Prints what readers have found beside a control.
fn print_found<R: Print + AllocGlobal>(rt: &R, readers: u8, beside: &Beside) -> Result<(), Fault> {
    let Beside {
        placed,
        last,
        found,
        ..
    } = *beside;
    let (entered, equal, fell) = (found.entered, found.equal, found.fell);
    printed(println!(rt;
        "{readers} reading: {placed} versions placed, {last} at close, {entered} values read, {equal} of their version, {fell} versions fell"
    ))
}

/// Prints what so many rounds take: to enter and leave by one reader with no writer, by 1, 2 and 3
/// readers beside a writer, and to place versions beside 1, 8 and 64 idle readers; and then what index
/// words take.
fn time<R: Print + AllocGlobal + CpuClock + Threads + Wait + Sync>(
    rt: &R,
    rounds: u64,
) -> Result<(), Fault>
    requires { rounds ≤ ROUNDS_MAX }
{
    let alone = run_beside(rt, rt.alloc(), 1, rounds, Goal::Versions(0))?;
    print_time(rt, "alone", 1, &alone)?;
    for readers in 1..=3u8 {
        let beside = run_beside(rt, rt.alloc(), readers, rounds, Goal::WhileRead)?;
        print_time(rt, "beside", readers, &beside)?;
    }
    for readers in [1, 8, 64u8] {
        let idle = run_idle(rt, rt.alloc(), readers, rounds)?;
        print_rate(rt, readers, &idle)?;
    }
    time_words(rt, rounds)
}

/// Prints what a hit takes, what versions that give indexes again take, and what the count of all index
/// words takes at tables of 4,096 to 32,768.
fn time_words<R: Print + AllocGlobal + CpuClock>(rt: &R, rounds: u64) -> Result<(), Fault>
    requires { rounds ≤ ROUNDS_MAX }
{
    let hits = rounds.min(HITS_MAX);
    let time = time_hits(rt, rt.alloc(), hits)?;
    let (nanos, tenth) = tenths(time.as_nanos(), u128::from(hits));
    printed(println!(rt; "hitting 1: {nanos}.{tenth} ns to enter, hit and leave"))?;
    for readers in [1, 8, 64u8] {
        let time = time_turns(rt, rt.alloc(), readers, rounds)?;
        let rate = per_second(rounds, time.as_nanos());
        printed(println!(rt; "turning {readers}: {rounds} versions placed, {rate} a second"))?;
    }
    print_close(rt, 4_096, time_close::<R, 511>(rt, rt.alloc())?)?;
    print_close(rt, 8_192, time_close::<R, 1023>(rt, rt.alloc())?)?;
    print_close(rt, 16_384, time_close::<R, 2047>(rt, rt.alloc())?)?;
    print_close(rt, 32_768, time_close::<R, 4095>(rt, rt.alloc())?)
}

/// Prints how long the count of so many index words took.
fn print_close<R: Print + AllocGlobal>(rt: &R, words: u64, time: Duration) -> Result<(), Fault> {
    let (nanos, tenth) = tenths(time.as_nanos(), u128::from(words));
    printed(println!(rt; "closing {words}: {nanos}.{tenth} ns a word"))
}

/// Prints how long readers took to enter and leave, and how many versions were placed meanwhile.
fn print_time<R: Print + AllocGlobal>(
    rt: &R,
    kind: &str,
    readers: u8,
    beside: &Beside,
) -> Result<(), Fault> {
    let entered = beside.found.entered;
    let (nanos, tenth) = tenths(beside.reads.as_nanos(), u128::from(entered));
    let rate = per_second(beside.placed, beside.places.as_nanos());
    let placed = beside.placed;
    printed(println!(rt;
        "{kind} {readers}: {nanos}.{tenth} ns to enter and leave, {placed} versions placed, {rate} a second"
    ))
}

/// Prints how many versions were placed a second beside idle readers.
fn print_rate<R: Print + AllocGlobal>(rt: &R, readers: u8, idle: &Idle) -> Result<(), Fault> {
    let rate = per_second(idle.placed, idle.time.as_nanos());
    let placed = idle.placed;
    printed(println!(rt; "idle {readers}: {placed} versions placed, {rate} a second"))
}
