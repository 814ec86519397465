//! What index words cost: hits, versions that give them to other numbers, and the count of all.
ghost use Rattle.std.specs.Prelude.{◌≡◌, ◌+◌, ◌≤◌, IfErr, length};
ghost use Rattle.prefix_width.specs.Limits.{AreTargets};
ghost use Rattle.bench_kit.specs.Fault.{IsRunFault};
ghost use Rattle.epoch_bench.specs.declared.writer.TheConstants.{VERSION_MAX};

use crate::turn::{TurnControl, TurnReader, index_of, place_turn, start_turns};
use bench_kit::{Fault, cpu_time};
use std::alloc::Global;
use std::time::{CpuClock, Duration};

/// How many hits a reader makes at most.
pub(crate) const HITS_MAX: u64 = 16_777_216;

/// Enters, makes a hit and leaves so often. At version 0, which names no index, it makes none.
fn hit_on(seat: TurnReader<4095>, rounds: u64) -> TurnReader<4095>
    requires { length seat.own.hits + rounds ≤ HITS_MAX }
    ensures seat { result.table ≡ seat.table }
    ensures entered { result.own.enters ≡ seat.own.enters + rounds }
{
    let mut seat = seat;
    for _round in 0..rounds {
        let mut standing = seat.enter();
        if let Some(index) = index_of(standing.version()) {
            let _number = standing.hit(index);
        }
        seat = standing.leave();
    }
    seat
}

/// The processor time that one reader takes to enter, hit and leave so often. No version is placed
/// meanwhile.
pub(crate) fn time_hits<R: CpuClock>(rt: &R, alloc: Global, rounds: u64) -> Result<Duration, Fault>
    requires { rounds ≤ HITS_MAX }
    ensures fault { IfErr result IsRunFault }
{
    let (mut control, mut seats) = start_turns::<4095>(alloc, 1)?;
    place_turn(alloc, &mut control)?;
    let Some(seat) = seats.pop() else {
        return Ok(Duration::ZERO);
    };
    let start = cpu_time(rt)?;
    let seat = hit_on(seat, rounds);
    let time = cpu_time(rt)?.saturating_sub(start);
    drop(seat);
    Ok(time)
}

/// Places so many versions while readers are idle. Each gives an index to another number.
fn place_turns(alloc: Global, control: &mut TurnControl<4095>, count: u64) -> Result<(), Fault>
    requires { control.old.own.version + count ≤ VERSION_MAX }
    ensures fault { IfErr result IsRunFault }
{
    for _placed in 0..count {
        if !place_turn(alloc, control)? {
            break;
        }
    }
    Ok(())
}

/// The processor time that it takes to place so many versions beside idle readers, each of which
/// gives an index to another number.
pub(crate) fn time_turns<R: CpuClock>(
    rt: &R,
    alloc: Global,
    readers: u8,
    versions: u64,
) -> Result<Duration, Fault>
    requires readers { (1 ≤ readers) × (readers ≤ 64) }
    requires versions { versions ≤ VERSION_MAX }
    ensures fault { IfErr result IsRunFault }
{
    let (mut control, seats) = start_turns::<4095>(alloc, readers)?;
    let start = cpu_time(rt)?;
    place_turns(alloc, &mut control, versions)?;
    let time = cpu_time(rt)?.saturating_sub(start);
    drop(seats);
    Ok(time)
}

/// The processor time that it takes to end the seats of a table of one reader, with the counts of all
/// index words.
pub(crate) fn time_close<R: CpuClock, const LIVE: u32>(
    rt: &R,
    alloc: Global,
) -> Result<Duration, Fault>
    requires targets { AreTargets LIVE }
    ensures fault { IfErr result IsRunFault }
{
    let (control, seats) = start_turns::<LIVE>(alloc, 1)?;
    let start = cpu_time(rt)?;
    if control.close(alloc, seats).is_err() {
        return Err(Fault::OutOfMemory);
    }
    Ok(cpu_time(rt)?.saturating_sub(start))
}
