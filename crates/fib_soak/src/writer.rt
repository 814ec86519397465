//! The publisher's side.
ghost use Rattle.std.specs.Prelude.{◌≡◌, ◌+◌, All, IfOk, OnOk, length};
ghost use Rattle.fib_sync.specs.Lawful.{IsLawful};
ghost use Rattle.fib_sync.specs.VersionNames.{fresh_at, names_at};

use crate::clock::{Timer, rest};
use crate::course::Course;
use crate::fib::{Control, Publisher};
use bench_kit::Fault;
use fib_pass::Ready;
use fib_sync::Advance;
use std::alloc::Global;
use std::rt::Clock;
use std::sync::Wait;
use std::sync::atomic::{AtomicBool, Ordering};
use std::time::Duration;

/// How often passes have held versions up.
#[derive(Clone, Copy, Debug, PartialEq, Eq)]
pub(crate) struct Tries {
    /// The pass that is asked about.
    pub(crate) pass: u8,
    /// How often it was named.
    pub(crate) by_it: u64,
    /// How often others were.
    pub(crate) by_others: u64,
}

impl Tries {
    /// No tries yet, of those that name a pass.
    pub(crate) fn of(pass: u8) -> Tries {
        Tries {
            pass,
            by_it: 0,
            by_others: 0,
        }
    }

    /// Counts a try that a pass held up.
    fn count(&mut self, pass: u8) {
        if pass == self.pass {
            self.by_it = self.by_it.saturating_add(1);
        } else {
            self.by_others = self.by_others.saturating_add(1);
        }
    }
}

/// Publishes what is ready, however often a pass holds it up.
fn publish<R: Wait + Clock>(
    rt: &R,
    publisher: &mut Publisher,
    ready: Ready<32, 8, 4_095>,
    pause: Duration,
    tries: &mut Tries,
)
    requires count { length ready.values ≡ publisher.old.own.readers }
    requires lawful { All (λ image. IsLawful 4095 publisher.old.key (names_at 8 4095 publisher.old.key (publisher.old.own.version + 1)) (publisher.old.own.version + 1) image) ready.values }
    requires fresh { ready.fresh ≡ fresh_at 8 4095 publisher.old.key (publisher.old.own.version + 1) }
    ensures key { publisher.new.key ≡ publisher.old.key }
    ensures version { publisher.new.own.version ≡ publisher.old.own.version + 1 }
{
    let mut ready = ready;
    for _ in rt.forever() {
        match publisher.try_publish(ready) {
            Ok(_) => return,
            Err(again) => {
                tries.count(again.reader);
                ready = again.ready;
            }
        }
        rest(rt, pause);
    }
    unreachable!()
}

/// Publishes the next version. `false` where there is none.
pub(crate) fn publish_next<R: Wait + Clock>(
    rt: &R,
    alloc: Global,
    control: &mut Control,
    publisher: &mut Publisher,
    pause: Duration,
    tries: &mut Tries,
) -> Result<bool, Fault>
    requires plan { publisher.old.key ≡ control.old.plan }
    requires version { publisher.old.own.version ≡ control.old.image.version }
    ensures plan { OnOk result (publisher.new.key ≡ control.new.plan) }
    ensures version { OnOk result (publisher.new.own.version ≡ control.new.image.version) }
{
    let Advance::Next(image) = control.advance(alloc)? else {
        return Ok(false);
    };
    let ready = publisher.prepare(alloc, &image)?;
    publish(rt, publisher, ready, pause, tries);
    Ok(true)
}

/// Publishes versions until the table has all rows of the course: the version that has them.
pub(crate) fn publish_rows<R: Wait + Clock>(
    rt: &R,
    alloc: Global,
    control: &mut Control,
    publisher: &mut Publisher,
    course: &Course,
) -> Result<u64, Fault>
    requires plan { publisher.old.key ≡ control.old.plan }
    requires version { publisher.old.own.version ≡ control.old.image.version }
    ensures plan { OnOk result (publisher.new.key ≡ control.new.plan) }
    ensures version { OnOk result (publisher.new.own.version ≡ control.new.image.version) }
    ensures answer { IfOk result (λ version. version ≡ publisher.new.own.version) }
{
    let mut tries = Tries::of(0);
    for _ in rt.forever() {
        if control.image().routes() as usize >= course.prefixes.len()
            || !publish_next(rt, alloc, control, publisher, Duration::ZERO, &mut tries)?
        {
            break;
        }
    }
    Ok(publisher.version())
}

/// Publishes versions while the flag is set, time is left and there are any: how many.
pub(crate) fn publish_while<R: Wait + Clock>(
    rt: &R,
    alloc: Global,
    control: Control,
    publisher: Publisher,
    timer: &Timer,
    reading: &AtomicBool,
) -> Result<u64, Fault>
    requires plan { publisher.key ≡ control.plan }
    requires version { publisher.own.version ≡ control.image.version }
{
    let (mut control, mut publisher) = (control, publisher);
    let before = publisher.version();
    let mut tries = Tries::of(0);
    for _ in rt.forever() {
        if !reading.load(Ordering::SeqCst)
            || timer.is_over(rt)?
            || !publish_next(
                rt,
                alloc,
                &mut control,
                &mut publisher,
                Duration::ZERO,
                &mut tries,
            )?
        {
            break;
        }
    }
    Ok(publisher.version().saturating_sub(before))
}
