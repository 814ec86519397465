//! A pass that holds its version for long, beside others.
ghost use Rattle.std.specs.Prelude.{◌≡◌, ◌<◌};
ghost use denote.Param.Send.{IsSync};

use crate::clock::Timer;
use crate::course::Course;
use crate::fib::{Control, Inside, Pass, Publisher, start_fib};
use crate::reader::{
    AFTER, BEFORE, Found, HELD, Known, Reader, Way, look_up_inside, read_all, readers_of,
};
use crate::scan::Rows;
use crate::writer::{Tries, publish_next, publish_rows};
use bench_kit::{Draws, Fault};
use module_trait::Steps;
use std::alloc::Global;
use std::marker::Brand;
use std::rt::Clock;
use std::sync::Wait;
use std::sync::atomic::{AtomicBool, AtomicU8, Ordering};
use std::sync::ledger::{Blank, Ledger};
use std::thread::{self, Threads, join};
use std::time::Duration;

/// How many versions are published from the one that is held on.
const VERSIONS: u32 = 16;

/// How many milliseconds the publisher rests after a try, and the pass that holds a version after
/// some lookups.
const PAUSE: u64 = 10;

/// How often that pass looks up at most, some lookups at a time.
const BATCHES_MAX: u32 = 1_048_576;

/// What came of a version that was held.
#[derive(Clone, Copy, Debug, PartialEq, Eq)]
pub(crate) struct Hold {
    /// The version.
    pub(crate) version: u64,
    /// How many lookups its pass made.
    pub(crate) inside: u64,
    /// What the other passes have found.
    pub(crate) found: Found,
    /// How often versions were held up.
    pub(crate) tries: Tries,
}

/// Looks up at a version until the time is over: how often.
fn look_up_long<R: Clock, L: Ledger>(
    rt: &R,
    alloc: Global,
    inside: &mut Inside,
    known: Known,
    timer: &Timer,
    steps: &mut Steps<L>,
) -> Result<u64, Fault> {
    let mut rows = Rows::new(alloc, known.course, 0)?;
    let mut draws = Draws::new(0);
    let mut lookups = 0u64;
    for _ in 0..BATCHES_MAX {
        if timer.is_over(rt)? {
            break;
        }
        let more = look_up_inside(alloc, inside, known, &mut rows, &mut draws, steps)?;
        lookups = lookups.saturating_add(more);
        thread::sleep(rt, Duration::from_millis(PAUSE));
    }
    Ok(lookups)
}

/// Holds a version, with a counter of its own: the version, and how many lookups it made.
fn hold_counted<R: Clock, L: Ledger>(
    rt: &R,
    alloc: Global,
    pass: Pass,
    known: Known,
    length: Duration,
    blank: Blank,
) -> Result<(u64, u64), Fault>
    requires name { blank.name ≡ L.name }
    requires parts { blank.parts ≡ L.parts }
    requires some { 0 < blank.parts }
{
    let mut steps = Steps::<L>::new(alloc, blank)?;
    let timer = Timer::start(rt, length)?;
    let mut inside = pass.enter();
    known.stage.store(HELD, Ordering::SeqCst);
    let lookups = look_up_long(rt, alloc, &mut inside, known, &timer, &mut steps);
    known.stage.store(AFTER, Ordering::SeqCst);
    let version = inside.version();
    let _pass = inside.leave();
    Ok((version, lookups?))
}

/// Holds a version. In any case it is told when that is over.
fn hold_version<R: Clock>(
    rt: &R,
    alloc: Global,
    pass: Pass,
    known: Known,
    length: Duration,
) -> Result<(u64, u64), Fault> {
    let held = hold_counted::<R, Brand>(rt, alloc, pass, known, length, Blank::new(1));
    known.stage.store(AFTER, Ordering::SeqCst);
    held
}

/// Waits until a version is held, or was.
fn wait_for_it<R: Wait>(rt: &R, stage: &AtomicU8) {
    for _ in rt.forever() {
        if stage.load(Ordering::SeqCst) != BEFORE {
            break;
        }
        thread::yield_now();
    }
}

/// Publishes versions from the moment on that one is held, and counts the tries that are held up.
fn publish_beside<R: Wait + Clock>(
    rt: &R,
    alloc: Global,
    control: Control,
    publisher: Publisher,
    known: Known,
    tries: Tries,
) -> Result<Tries, Fault>
    requires plan { publisher.key ≡ control.plan }
    requires version { publisher.own.version ≡ control.image.version }
{
    let (mut control, mut publisher, mut tries) = (control, publisher, tries);
    wait_for_it(rt, known.stage);
    let pause = Duration::from_millis(PAUSE);
    for _ in 0..VERSIONS {
        if !publish_next(rt, alloc, &mut control, &mut publisher, pause, &mut tries)? {
            break;
        }
        thread::sleep(rt, pause);
    }
    Ok(tries)
}

/// The pass that holds a version and the others, all in threads where they can be made.
fn read_beside<R: Threads + Clock + Sync>(
    rt: &R,
    alloc: Global,
    pass: Pass,
    readers: Vec<Reader>,
    known: Known,
    length: Duration,
    way: Way,
    going: &AtomicBool,
) -> (Result<(u64, u64), Fault>, Result<Found, Fault>) {
    join(
        rt,
        || -> Result<(u64, u64), Fault>
            requires { IsSync R.row }
        { hold_version(rt, alloc, pass, known, length) },
        || -> Result<Found, Fault>
            requires { IsSync R.row }
        { read_all(rt, alloc, readers, known, way, going) },
    )
}

/// The publisher beside all passes.
fn run_all<R: Threads + Wait + Clock + Sync>(
    rt: &R,
    alloc: Global,
    control: Control,
    publisher: Publisher,
    pass: Pass,
    readers: Vec<Reader>,
    known: Known,
    length: Duration,
    way: Way,
) -> Result<Hold, Fault>
    requires plan { publisher.key ≡ control.plan }
    requires version { publisher.own.version ≡ control.image.version }
{
    let tries = Tries::of(u8::try_from(readers.len()).unwrap_or(u8::MAX));
    let going = AtomicBool::new(true);
    let flag = &going;
    let (tries, (held, found)) = join(
        rt,
        || -> Result<Tries, Fault>
            requires { (publisher.key ≡ control.plan) × (publisher.own.version ≡ control.image.version) }
        {
            let tries = publish_beside(rt, alloc, control, publisher, known, tries);
            flag.store(false, Ordering::SeqCst);
            tries
        },
        || -> (Result<(u64, u64), Fault>, Result<Found, Fault>)
            requires { IsSync R.row }
        { read_beside(rt, alloc, pass, readers, known, length, way, flag) },
    );
    let (version, inside) = held?;
    Ok(Hold {
        version,
        inside,
        found: found?,
        tries: tries?,
    })
}

/// Lets the last one of so many passes hold its version for a time.
pub(crate) fn run_hold<R: Threads + Wait + Clock + Sync>(
    rt: &R,
    alloc: Global,
    course: &Course,
    passes: u8,
    length: Duration,
    way: Way,
) -> Result<Hold, Fault> {
    let (mut control, mut publisher, mut passes) = start_fib(alloc, course, passes)?;
    let base = publish_rows(rt, alloc, &mut control, &mut publisher, course)?;
    let pass = passes.pop().ok_or(Fault::Unmade)?;
    let stage = AtomicU8::new(BEFORE);
    let known = Known {
        course,
        base,
        stage: &stage,
    };
    let readers = readers_of(alloc, passes, 1)?;
    run_all(
        rt, alloc, control, publisher, pass, readers, known, length, way,
    )
}
