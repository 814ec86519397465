//! What the control does.
ghost use Rattle.std.specs.Prelude.{◌≡◌, ◌+◌, ◌<◌, ◌≤◌, IfOk, IfErr, OnOk, OnErr, length, All};
ghost use Rattle.bench_kit.specs.Fault.{IsRunFault};
ghost use Rattle.epoch_bench.specs.Names.{no_names};
ghost use Rattle.epoch_core.specs.Fresh.{AreFresh};
ghost use Rattle.epoch_bench.specs.Reads.{Reaches, HasRoom};

use crate::OutOfMemory;
use crate::stamp::{Control, Stamp};
use bench_kit::{Fault, cpu_time};
use epoch_core::Copies;
use std::alloc::Global;
use std::sync::atomic::{AtomicBool, Ordering};
use std::sync::{Arc, Wait};
use std::thread;
use std::time::{CpuClock, Duration};

/// The greatest version that is placed.
const VERSION_MAX: u64 = 4_294_967_295;

/// How long a control places versions.
#[derive(Clone, Copy, Debug, PartialEq, Eq)]
pub(crate) enum Goal {
    /// Until it has placed so many.
    Versions(u64),
    /// While the readers read, or up to the greatest version.
    WhileRead,
}

/// What a control has done.
#[derive(Drop)]
pub(crate) struct Written {
    /// Its seat.
    pub(crate) control: Control,
    /// The processor time that its thread took.
    pub(crate) time: Duration,
}

/// Places the copies as the next version, however often readers hold it up.
fn place_copies<R: Wait>(rt: &R, control: &mut Control, copies: Copies<Stamp, 8, 4095>)
    requires count { length copies.values ≡ control.old.own.readers }
    requires lawful { All (λ c. control.old.own.version + 1 ≡ c.0) copies.values }
    requires fresh { AreFresh 8 no_names control.old.own.version copies.fresh }
    requires room { control.old.own.version < VERSION_MAX }
    ensures placed { control.new.own.version ≡ control.old.own.version + 1 }
    ensures seat { (control.new.table ≡ control.old.table) × (control.new.own.readers ≡ control.old.own.readers) }
{
    let mut copies = copies;
    for _ in rt.forever() {
        match control.try_place(copies) {
            Ok(_) => return,
            Err(held) => copies = held.copies,
        }
        thread::yield_now();
    }
    unreachable!()
}

/// Places the next version.
#[tactic(auto, using(crate::proofs::NameLemmas::none_fresh))]
fn place<R: Wait>(rt: &R, alloc: Global, control: &mut Control) -> Result<(), OutOfMemory>
    requires room { control.old.own.version < VERSION_MAX }
    ensures placed { OnOk result (control.new.own.version ≡ control.old.own.version + 1) }
    ensures seat { (control.new.table ≡ control.old.table) × (control.new.own.readers ≡ control.old.own.readers) }
    ensures same { OnErr result (control.new ≡ control.old) }
{
    let image = Arc::new(alloc, Stamp(control.version() + 1))?;
    let copies = control.prepare(alloc, &image, &[])?;
    place_copies(rt, control, copies);
    Ok(())
}

/// Places so many versions.
fn place_all<R: Wait>(
    rt: &R,
    alloc: Global,
    control: &mut Control,
    count: u64,
) -> Result<(), OutOfMemory>
    requires room { control.old.own.version + count ≤ VERSION_MAX }
    ensures placed { OnOk result (control.new.own.version ≡ control.old.own.version + count) }
    ensures seat { (control.new.table ≡ control.old.table) × (control.new.own.readers ≡ control.old.own.readers) }
{
    for _placed in 0..count {
        place(rt, alloc, control)?;
    }
    Ok(())
}

/// Places versions while the flag is set.
fn place_while<R: Wait>(
    rt: &R,
    alloc: Global,
    control: &mut Control,
    reading: &AtomicBool,
) -> Result<(), OutOfMemory>
    ensures placed { control.old.own.version ≤ control.new.own.version }
    ensures seat { (control.new.table ≡ control.old.table) × (control.new.own.readers ≡ control.old.own.readers) }
{
    for _ in rt.forever() {
        if !reading.load(Ordering::SeqCst) || control.version() >= VERSION_MAX {
            break;
        }
        place(rt, alloc, control)?;
    }
    Ok(())
}

/// Places versions to the goal.
fn place_to<R: Wait>(
    rt: &R,
    alloc: Global,
    control: &mut Control,
    goal: Goal,
    reading: &AtomicBool,
) -> Result<(), OutOfMemory>
    requires room { HasRoom goal control.old.own.version }
    ensures placed { OnOk result (Reaches goal control.old.own.version control.new.own.version) }
    ensures seat { (control.new.table ≡ control.old.table) × (control.new.own.readers ≡ control.old.own.readers) }
{
    match goal {
        Goal::Versions(count) => place_all(rt, alloc, control, count),
        Goal::WhileRead => place_while(rt, alloc, control, reading),
    }
}

/// Places versions to the goal, and measures it.
pub(crate) fn write<R: Wait + CpuClock>(
    rt: &R,
    alloc: Global,
    control: Control,
    goal: Goal,
    reading: &AtomicBool,
) -> Result<Written, Fault>
    requires room { HasRoom goal control.own.version }
    ensures placed { IfOk result (λ w. Reaches goal control.own.version w.control.own.version) }
    ensures fault { IfErr result IsRunFault }
    ensures seat { IfOk result (λ w. (w.control.table ≡ control.table) × (w.control.own.readers ≡ control.own.readers)) }
{
    let mut control = control;
    let start = cpu_time(rt)?;
    place_to(rt, alloc, &mut control, goal, reading)?;
    let time = cpu_time(rt)?.saturating_sub(start);
    Ok(Written { control, time })
}
