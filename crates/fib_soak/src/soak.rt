//! Passes beside a publisher that publishes without pause.
ghost use Rattle.std.specs.Prelude.{◌≡◌};
ghost use denote.Param.Send.{IsSync};

use crate::clock::Timer;
use crate::course::Course;
use crate::fib::{Control, Publisher, start_fib};
use crate::reader::{BEFORE, Found, Known, Reader, Way, read_all, readers_of};
use crate::writer::{publish_rows, publish_while};
use bench_kit::Fault;
use std::alloc::Global;
use std::rt::Clock;
use std::sync::Wait;
use std::sync::atomic::{AtomicBool, AtomicU8, Ordering};
use std::thread::{Threads, join};

/// What a round is.
#[derive(Clone, Copy)]
pub(crate) struct Round {
    /// How many passes there are.
    pub(crate) passes: u8,
    /// How each of them goes on.
    pub(crate) way: Way,
    /// Whether they end with the publisher.
    pub(crate) ends: bool,
    /// Where the draws begin.
    pub(crate) seed: u64,
    /// How long the publisher goes on at most.
    pub(crate) timer: Timer,
}

/// What came of a round.
#[derive(Clone, Copy, Debug, PartialEq, Eq)]
pub(crate) struct Outcome {
    /// How many versions were published beside the passes.
    pub(crate) versions: u64,
    /// What the passes have found.
    pub(crate) found: Found,
}

/// Runs passes beside a publisher, all in threads where they can be made.
fn run_both<R: Threads + Wait + Clock + Sync>(
    rt: &R,
    alloc: Global,
    control: Control,
    publisher: Publisher,
    readers: Vec<Reader>,
    known: Known,
    round: Round,
) -> Result<Outcome, Fault>
    requires plan { publisher.key ≡ control.plan }
    requires version { publisher.own.version ≡ control.image.version }
{
    let (reading, publishing) = (AtomicBool::new(true), AtomicBool::new(true));
    let (readers_go_on, publisher_goes_on) = (&reading, &publishing);
    // The passes begin in this thread: where no other can be made they are done first, and the
    // publisher then finds their flag cleared.
    let (versions, found) = join(
        rt,
        || -> Result<u64, Fault>
            requires { (publisher.key ≡ control.plan) × (publisher.own.version ≡ control.image.version) }
        {
            let versions = publish_while(
                rt,
                alloc,
                control,
                publisher,
                &round.timer,
                readers_go_on,
            );
            publisher_goes_on.store(!round.ends, Ordering::SeqCst);
            versions
        },
        || -> Result<Found, Fault>
            requires { IsSync R.row }
        {
            let found = read_all(rt, alloc, readers, known, round.way, publisher_goes_on);
            readers_go_on.store(false, Ordering::SeqCst);
            found
        },
    );
    Ok(Outcome {
        versions: versions?,
        found: found?,
    })
}

/// Runs passes beside a publisher in a new fib.
pub(crate) fn run_round<R: Threads + Wait + Clock + Sync>(
    rt: &R,
    alloc: Global,
    course: &Course,
    round: Round,
) -> Result<Outcome, Fault> {
    let (mut control, mut publisher, passes) = start_fib(alloc, course, round.passes)?;
    let base = publish_rows(rt, alloc, &mut control, &mut publisher, course)?;
    let stage = AtomicU8::new(BEFORE);
    let known = Known {
        course,
        base,
        stage: &stage,
    };
    let readers = readers_of(alloc, passes, round.seed)?;
    run_both(rt, alloc, control, publisher, readers, known, round)
}
