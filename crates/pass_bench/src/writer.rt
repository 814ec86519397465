//! What the publisher does.
ghost use Rattle.std.specs.Prelude.{◌≡◌, ◌+◌, All, IfOk, OnOk, length};
ghost use Rattle.fib_sync.specs.Lawful.{IsLawful};
ghost use Rattle.fib_sync.specs.VersionNames.{fresh_at, names_at};

use crate::fib::{Control, Publisher};
use bench_kit::{Fault, cpu_time};
use fib_pass::Ready;
use fib_sync::Advance;
use std::alloc::Global;
use std::sync::Wait;
use std::sync::atomic::{AtomicBool, Ordering};
use std::thread;
use std::time::{CpuClock, Duration};

/// What a publisher has done beside passes.
#[derive(Clone, Copy, Debug, PartialEq, Eq)]
pub(crate) struct Written {
    /// How many versions it published.
    pub(crate) versions: u64,
    /// The processor time that its thread took.
    pub(crate) time: Duration,
}

/// Publishes what is ready, however often a pass holds it up.
fn publish<R: Wait>(rt: &R, publisher: &mut Publisher, ready: Ready<32, 8, 4_095>)
    requires count { length ready.values ≡ publisher.old.own.readers }
    requires lawful { All (λ image. IsLawful 4095 publisher.old.key (names_at 8 4095 publisher.old.key (publisher.old.own.version + 1)) (publisher.old.own.version + 1) image) ready.values }
    requires fresh { ready.fresh ≡ fresh_at 8 4095 publisher.old.key (publisher.old.own.version + 1) }
    ensures key { publisher.new.key ≡ publisher.old.key }
    ensures version { publisher.new.own.version ≡ publisher.old.own.version + 1 }
{
    let mut ready = ready;
    for _ in rt.forever() {
        match publisher.try_publish(ready) {
            Ok(_) => return,
            Err(again) => ready = again.ready,
        }
        thread::yield_now();
    }
    unreachable!()
}

/// Publishes the next version. `false` where there is none.
fn publish_next<R: Wait>(
    rt: &R,
    alloc: Global,
    control: &mut Control,
    publisher: &mut Publisher,
) -> Result<bool, Fault>
    requires plan { publisher.old.key ≡ control.old.plan }
    requires version { publisher.old.own.version ≡ control.old.image.version }
    ensures plan { OnOk result (publisher.new.key ≡ control.new.plan) }
    ensures version { OnOk result (publisher.new.own.version ≡ control.new.image.version) }
{
    let Advance::Next(image) = control.advance(alloc)? else {
        return Ok(false);
    };
    let ready = publisher.prepare(alloc, &image)?;
    publish(rt, publisher, ready);
    Ok(true)
}

/// Publishes versions until the table has so many routes.
pub(crate) fn publish_routes<R: Wait>(
    rt: &R,
    alloc: Global,
    control: &mut Control,
    publisher: &mut Publisher,
    routes: u32,
) -> Result<(), Fault>
    requires plan { publisher.old.key ≡ control.old.plan }
    requires version { publisher.old.own.version ≡ control.old.image.version }
    ensures plan { OnOk result (publisher.new.key ≡ control.new.plan) }
    ensures version { OnOk result (publisher.new.own.version ≡ control.new.image.version) }
{
    for _ in rt.forever() {
        if control.image().routes() >= routes || !publish_next(rt, alloc, control, publisher)? {
            break;
        }
    }
    Ok(())
}

/// Publishes versions while the flag is set and there are any.
fn publish_while<R: Wait>(
    rt: &R,
    alloc: Global,
    control: &mut Control,
    publisher: &mut Publisher,
    reading: &AtomicBool,
) -> Result<(), Fault>
    requires plan { publisher.old.key ≡ control.old.plan }
    requires version { publisher.old.own.version ≡ control.old.image.version }
{
    for _ in rt.forever() {
        if !reading.load(Ordering::SeqCst) || !publish_next(rt, alloc, control, publisher)? {
            break;
        }
    }
    Ok(())
}

/// Publishes versions while the flag is set, and measures it.
pub(crate) fn write<R: Wait + CpuClock>(
    rt: &R,
    alloc: Global,
    control: Control,
    publisher: Publisher,
    reading: &AtomicBool,
) -> Result<Written, Fault>
    requires plan { publisher.key ≡ control.plan }
    requires version { publisher.own.version ≡ control.image.version }
{
    let (mut control, mut publisher) = (control, publisher);
    let before = publisher.version();
    let start = cpu_time(rt)?;
    publish_while(rt, alloc, &mut control, &mut publisher, reading)?;
    let time = cpu_time(rt)?.saturating_sub(start);
    Ok(Written {
        versions: publisher.version().saturating_sub(before),
        time,
    })
}
