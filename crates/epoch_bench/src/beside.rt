//! Readers beside a control that places without pause.
ghost use Rattle.std.specs.Prelude.{◌≡◌, ◌+◌, ◌*◌, ◌<◌, ◌≤◌, ◌++◌, IfOk, IfErr, length, All, vec_len};
ghost use denote.Param.Send.{IsSync};
ghost use Rattle.atomic_table.specs.Seated.{TableId};
ghost use Rattle.bench_kit.specs.declared.fault.Fault.TheVariants.{Clock};
ghost use Rattle.epoch_bench.specs.Reads.{Reaches, HasRoom, rightly, HasRead};

use crate::OutOfMemory;
use crate::reader::{Found, read_on};
use crate::stamp::{Control, Reader};
use crate::table::{close_table, start_table};
use crate::writer::{Goal, Written, write};
use bench_kit::{Fault, cpu_time};
use std::alloc::Global;
use std::sync::Wait;
use std::sync::atomic::{AtomicBool, Ordering};
use std::thread::{Threads, join, map_vec};
use std::time::{CpuClock, Duration};

/// What a reader has done.
#[derive(Drop)]
pub(crate) struct Read {
    /// Its seat.
    pub(crate) seat: Reader,
    /// What it has found.
    pub(crate) found: Found,
    /// The processor time that its thread took.
    pub(crate) time: Duration,
}

/// What readers and a control have done beside each other.
#[derive(Clone, Copy, Debug, PartialEq, Eq)]
pub(crate) struct Beside {
    /// How many versions the control placed.
    pub(crate) placed: u64,
    /// The version that was published last when all seats had ended.
    pub(crate) last: u64,
    /// What all readers together have found.
    pub(crate) found: Found,
    /// The processor time that all readers' threads took together.
    pub(crate) reads: Duration,
    /// The processor time that the control's thread took.
    pub(crate) places: Duration,
}

/// Enters and leaves so often, and measures it.
pub(crate) fn read_timed<R: CpuClock>(rt: &R, seat: Reader, rounds: u64) -> Result<Read, Fault>
    ensures seat { IfOk result (λ r. (r.seat.table ≡ seat.table) × (r.seat.own.enters ≡ seat.own.enters + rounds)) }
    ensures found { IfOk result (λ r. r.found ≡ rightly rounds) }
    ensures fault { IfErr result (λ e. e ≡ Clock) }
{
    let start = cpu_time(rt)?;
    let (seat, found) = read_on(seat, rounds);
    let time = cpu_time(rt)?.saturating_sub(start);
    Ok(Read { seat, found, time })
}

/// All readers so often, each in a thread of its own where one can be made.
fn read_all<R: Threads + CpuClock + Sync>(
    rt: &R,
    seats: Vec<Reader>,
    rounds: u64,
) -> Result<Vec<Result<Read, Fault>>, OutOfMemory>
    requires new { All (λ s. s.own.enters ≡ 0) seats.items }
    ensures count { IfOk result (λ reads. length reads.items ≡ length seats.items) }
    ensures read { (table : TableId) → All (λ s. s.table ≡ table) seats.items → IfOk result (λ reads. All (λ r. IfOk r (HasRead table rounds)) reads.items) }
{
    map_vec(
        rt,
        seats,
        &|seat: Reader| -> Result<Read, Fault>
            requires { seat.own.enters ≡ 0 }
            ensures { IfOk result (HasRead seat.table rounds) }
        { read_timed(rt, seat, rounds) },
    )
}

/// The seats of readers, and what they have found and taken together.
#[derive(Drop)]
struct Gathered {
    seats: Vec<Reader>,
    found: Found,
    time: Duration,
}

/// Takes what readers of the control's table have done together.
fn gather(
    alloc: Global,
    control: &Control,
    rounds: u64,
    reads: Vec<Result<Read, Fault>>,
) -> Result<Gathered, Fault>
    requires few { (length reads.items ≤ 64) × (rounds ≤ 1000000000) }
    requires read { All (λ r. IfOk r (HasRead control.now.table rounds)) reads.items }
    ensures table { IfOk result (λ all. All (λ s. s.table ≡ control.now.table) all.seats.items) }
    ensures count { IfOk result (λ all. length all.seats.items ≡ length reads.items) }
    ensures found { IfOk result (λ all. all.found ≡ rightly (length reads.items * rounds)) }
{
    let mut all = Gathered {
        seats: Vec::with_capacity(alloc, reads.len())?,
        found: Found::none(),
        time: Duration::ZERO,
    };
    for outcome in reads {
        let read = outcome?;
        all.found.add(read.found);
        all.time = all.time.saturating_add(read.time);
        all.seats.push(read.seat)?;
    }
    Ok(all)
}

/// Runs readers, so often each, beside a control that places versions to a goal, all in threads
/// where they can be made.
pub(crate) fn run_beside<R: Threads + Wait + CpuClock + Sync>(
    rt: &R,
    alloc: Global,
    readers: u8,
    rounds: u64,
    goal: Goal,
) -> Result<Beside, Fault>
    requires readers { (1 ≤ readers) × (readers ≤ 64) }
    requires rounds { rounds ≤ 1000000000 }
    requires room { HasRoom goal 0 }
    ensures placed { IfOk result (λ b. Reaches goal 0 b.placed) }
    ensures last { IfOk result (λ b. b.last ≡ b.placed) }
    ensures found { IfOk result (λ b. b.found ≡ rightly (readers * rounds)) }
{
    let (control, seats) = start_table(alloc, readers)?;
    let reading = AtomicBool::new(true);
    let flag = &reading;
    // The readers run in this thread: where no other can be made they are done first, and the
    // control then finds the flag cleared.
    let (written, reads) = join(
        rt,
        || -> Result<Written, Fault>
            requires { HasRoom goal control.own.version }
            ensures placed { IfOk result (λ w. Reaches goal control.own.version w.control.own.version) }
            ensures seat { IfOk result (λ w. (w.control.table ≡ control.table) × (w.control.own.readers ≡ control.own.readers)) }
        { write(rt, alloc, control, goal, flag) },
        || -> Result<Vec<Result<Read, Fault>>, OutOfMemory>
            requires { IsSync R.row × All (λ s. s.own.enters ≡ 0) seats.items }
            ensures count { IfOk result (λ reads. length reads.items ≡ length seats.items) }
            ensures read { (table : TableId) → All (λ s. s.table ≡ table) seats.items → IfOk result (λ reads. All (λ r. IfOk r (HasRead table rounds)) reads.items) }
        { read_and_clear(rt, seats, rounds, flag) },
    );
    let written = written?;
    let all = gather(alloc, &written.control, rounds, reads?)?;
    finish(alloc, written, all)
}

/// All readers so often, and then clears the flag.
fn read_and_clear<R: Threads + CpuClock + Sync>(
    rt: &R,
    seats: Vec<Reader>,
    rounds: u64,
    reading: &AtomicBool,
) -> Result<Vec<Result<Read, Fault>>, OutOfMemory>
    requires new { All (λ s. s.own.enters ≡ 0) seats.items }
    ensures count { IfOk result (λ reads. length reads.items ≡ length seats.items) }
    ensures read { (table : TableId) → All (λ s. s.table ≡ table) seats.items → IfOk result (λ reads. All (λ r. IfOk r (HasRead table rounds)) reads.items) }
{
    let reads = read_all(rt, seats, rounds);
    reading.store(false, Ordering::SeqCst);
    reads
}

/// Ends the seats.
fn finish(alloc: Global, written: Written, all: Gathered) -> Result<Beside, Fault>
    requires table { All (λ s. s.table ≡ written.control.table) all.seats.items }
    requires all { written.control.own.readers ≤ length all.seats.items }
    ensures placed { IfOk result (λ b. b.placed ≡ written.control.own.version) }
    ensures last { IfOk result (λ b. b.last ≡ b.placed) }
    ensures found { IfOk result (λ b. b.found ≡ all.found) }
{
    let placed = written.control.version();
    let last = close_table(alloc, written.control, all.seats)?;
    Ok(Beside {
        placed,
        last,
        found: all.found,
        reads: all.time,
        places: written.time,
    })
}
