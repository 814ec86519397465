//! What is printed.
use crate::clock::Timer;
use crate::course::Course;
use crate::fib::BESIDE_HELD;
use crate::hold::run_hold;
use crate::job::Job;
use crate::reader::Way;
use crate::soak::{Round, run_round};
use bench_kit::{Fault, printed};
use prefix_width::Kind;
use std::rt::Clock;
use std::sync::Wait;
use std::thread::Threads;
use std::time::Duration;

/// How many rows a table has, and in how many turns they change.
const ROWS: usize = 200;

const TURNS: usize = 65_536;

/// How many of each are shown.
const SHOWN_ROWS: usize = 40;

const SHOWN_TURNS: usize = 100;

const SHOWN_LOOKUPS: u32 = 300;

const SHOWN_PASSES: u8 = 3;

/// How many lookups a pass makes at most in a round, and how many seconds that takes at most.
const LOOKUPS: u32 = 1_000_000;

const ROUND_MAX: u32 = 10;

/// How many milliseconds a pass rests after a few lookups where a version is held, and how many
/// lookups it makes a second at most.
const REST: u64 = 1;

const LOOKUPS_A_SECOND: u32 = 16_000;

/// Does a job.
pub(crate) fn work<R: Print + AllocGlobal + Clock + Threads + Wait + Sync>(
    rt: &R,
    job: Job,
) -> Result<(), Fault> {
    match job {
        Job::Show => show(rt),
        Job::Soak { seconds, passes } => soak(rt, seconds, passes),
        Job::Hold { seconds, passes } => hold(rt, seconds, passes),
    }
}

/// The name of a module.
fn name_of(kind: Kind) -> &'static str {
    match kind {
        Kind::Scan => "scan",
        Kind::Range => "range",
        Kind::Radix => "radix",
        Kind::Dxr => "dxr",
    }
}

/// Prints that a few passes find in each module what the scans find.
fn show<R: Print + AllocGlobal + Clock + Threads + Wait + Sync>(rt: &R) -> Result<(), Fault> {
    for kind in [Kind::Scan, Kind::Range, Kind::Radix, Kind::Dxr] {
        let course = Course::new(rt.alloc(), kind, SHOWN_ROWS, SHOWN_TURNS)?;
        let round = Round {
            passes: SHOWN_PASSES,
            way: Way {
                lookups: SHOWN_LOOKUPS,
                pause: Duration::ZERO,
            },
            ends: false,
            seed: 1,
            timer: Timer::start(rt, Duration::from_secs(60))?,
        };
        let lookups = run_round(rt, rt.alloc(), &course, round)?.found.lookups;
        let name = name_of(kind);
        printed(println!(rt;
            "{name}: {lookups} lookups by {SHOWN_PASSES} passes, each as the scan"
        ))?;
    }
    Ok(())
}

/// Runs rounds until the time is over, each in another module than the last.
fn soak<R: Print + AllocGlobal + Clock + Threads + Wait + Sync>(
    rt: &R,
    seconds: u32,
    passes: u8,
) -> Result<(), Fault> {
    let alloc = rt.alloc();
    let timer = Timer::start(rt, Duration::from_secs(u64::from(seconds)))?;
    let courses = [
        Course::new(alloc, Kind::Radix, ROWS, TURNS)?,
        Course::new(alloc, Kind::Dxr, ROWS, TURNS)?,
        Course::new(alloc, Kind::Range, ROWS, TURNS)?,
    ];
    let length = Duration::from_secs(u64::from(seconds.min(ROUND_MAX)));
    let mut seed = 1u64;
    for _ in rt.forever() {
        for course in &courses {
            if timer.is_over(rt)? {
                return Ok(());
            }
            soak_once(rt, course, passes, seed, Timer::start(rt, length)?)?;
            seed = seed.wrapping_add(64);
        }
    }
    Ok(())
}

/// Runs a round, and prints what came of it.
fn soak_once<R: Print + AllocGlobal + Clock + Threads + Wait + Sync>(
    rt: &R,
    course: &Course,
    passes: u8,
    seed: u64,
    timer: Timer,
) -> Result<(), Fault> {
    let way = Way {
        lookups: LOOKUPS,
        pause: Duration::ZERO,
    };
    let round = Round {
        passes,
        way,
        ends: true,
        seed,
        timer,
    };
    let outcome = run_round(rt, rt.alloc(), course, round)?;
    let name = name_of(course.kind);
    let (versions, lookups) = (outcome.versions, outcome.found.lookups);
    printed(println!(rt; "{name}: {versions} versions, {lookups} lookups, each as the scan"))
}

/// Prints what came of a version that one of the passes held.
fn hold<R: Print + AllocGlobal + Clock + Threads + Wait + Sync>(
    rt: &R,
    seconds: u32,
    passes: u8,
) -> Result<(), Fault> {
    let alloc = rt.alloc();
    let course = Course::new(alloc, Kind::Radix, ROWS, ROWS)?;
    let way = Way {
        lookups: seconds.saturating_add(10).saturating_mul(LOOKUPS_A_SECOND),
        pause: Duration::from_millis(REST),
    };
    let length = Duration::from_secs(u64::from(seconds));
    let hold = run_hold(rt, alloc, &course, passes, length, way)?;
    let (held, newest) = (hold.version, hold.found.beside);
    if newest > held.saturating_add(BESIDE_HELD) {
        return Err(Fault::Answer);
    }
    let (inside, lookups) = (hold.inside, hold.found.lookups);
    let (pass, by_it, by_others) = (hold.tries.pass, hold.tries.by_it, hold.tries.by_others);
    let last = hold.found.newest;
    printed(println!(rt;
        "version {held} held by pass {pass}, version {newest} seen beside it, and {last} at the end"
    ))?;
    printed(println!(rt; "{by_it} tries held up by pass {pass}, and {by_others} by others"))?;
    printed(println!(rt;
        "{inside} lookups at version {held}, and {lookups} by the others, each as the scan"
    ))
}
