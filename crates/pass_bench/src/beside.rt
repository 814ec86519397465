//! Passes beside a publisher.
ghost use Rattle.std.specs.Prelude.{◌≡◌};
ghost use denote.Param.Send.{IsSync};

use crate::OutOfMemory;
use crate::fib::{Control, Pass, Publisher, start_fib};
use crate::reader::{Found, Way, read};
use crate::routes::Course;
use crate::writer::{Written, publish_routes, write};
use bench_kit::Fault;
use prefix_width::Addr;
use std::alloc::Global;
use std::sync::Wait;
use std::sync::atomic::{AtomicBool, Ordering};
use std::thread::{Threads, join, map_vec};
use std::time::{CpuClock, Duration};

/// What passes and a publisher have done beside each other.
#[derive(Clone, Copy, Debug, PartialEq, Eq)]
pub(crate) struct Beside {
    /// What all passes together have found.
    pub(crate) found: Found,
    /// What the publisher has done.
    pub(crate) written: Written,
}

/// All passes, each in a thread of its own where one can be made. Then it clears the flag.
fn read_all<R: Threads + CpuClock + Sync>(
    rt: &R,
    alloc: Global,
    passes: Vec<Pass>,
    addrs: &[Addr<32>],
    way: Way,
    reading: &AtomicBool,
) -> Result<Vec<Result<Found, Fault>>, OutOfMemory> {
    let all = map_vec(rt, passes, &|pass: Pass| read(rt, alloc, pass, addrs, way));
    reading.store(false, Ordering::SeqCst);
    all
}

/// What passes have found together.
fn gather(all: Vec<Result<Found, Fault>>) -> Result<Found, Fault> {
    let mut found = Found {
        lookups: 0,
        answered: 0,
        time: Duration::ZERO,
    };
    for outcome in all {
        let more = outcome?;
        found.lookups = found.lookups.saturating_add(more.lookups);
        found.answered = found.answered.saturating_add(more.answered);
        found.time = found.time.saturating_add(more.time);
    }
    Ok(found)
}

/// Runs passes beside a publisher, all in threads where they can be made.
fn run_both<R: Threads + Wait + CpuClock + Sync>(
    rt: &R,
    alloc: Global,
    control: Control,
    publisher: Publisher,
    passes: Vec<Pass>,
    addrs: &[Addr<32>],
    way: Way,
    publishing: bool,
) -> Result<Beside, Fault>
    requires plan { publisher.key ≡ control.plan }
    requires version { publisher.own.version ≡ control.image.version }
{
    let reading = AtomicBool::new(publishing);
    let flag = &reading;
    // The passes begin in this thread: where no other can be made they are done first, and the
    // publisher then finds the flag cleared.
    let (written, all) = join(
        rt,
        || -> Result<Written, Fault>
            requires { (publisher.key ≡ control.plan) × (publisher.own.version ≡ control.image.version) }
        { write(rt, alloc, control, publisher, flag) },
        || -> Result<Vec<Result<Found, Fault>>, OutOfMemory>
            requires { IsSync R.row }
        { read_all(rt, alloc, passes, addrs, way, flag) },
    );
    Ok(Beside {
        found: gather(all?)?,
        written: written?,
    })
}

/// Runs so many passes over a course's addresses, with or without a publisher beside them.
pub(crate) fn run_beside<R: Threads + Wait + CpuClock + Sync>(
    rt: &R,
    alloc: Global,
    course: &Course,
    passes: u8,
    way: Way,
    publishing: bool,
) -> Result<Beside, Fault> {
    let (mut control, mut publisher, passes) = start_fib(alloc, course, passes)?;
    publish_routes(rt, alloc, &mut control, &mut publisher, course.routes)?;
    run_both(
        rt,
        alloc,
        control,
        publisher,
        passes,
        &course.addrs,
        way,
        publishing,
    )
}
