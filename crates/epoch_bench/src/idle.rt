//! A control beside readers that do nothing.
ghost use Rattle.std.specs.Prelude.{◌≡◌, ◌+◌, ◌<◌, ◌≤◌, IfOk, IfErr};
ghost use Rattle.bench_kit.specs.Fault.{IsRunFault};
ghost use Rattle.epoch_bench.specs.declared.writer.TheConstants.{VERSION_MAX};

use crate::table::{close_table, start_table};
use crate::writer::{Goal, write};
use bench_kit::Fault;
use std::alloc::Global;
use std::sync::Wait;
use std::sync::atomic::AtomicBool;
use std::time::{CpuClock, Duration};

/// What a control has done beside idle readers.
#[derive(Clone, Copy, Debug, PartialEq, Eq)]
pub(crate) struct Idle {
    /// How many versions it placed.
    pub(crate) placed: u64,
    /// The version that was published last when all seats had ended.
    pub(crate) last: u64,
    /// The processor time that its thread took.
    pub(crate) time: Duration,
}

/// Places so many versions while readers are idle.
pub(crate) fn run_idle<R: Wait + CpuClock>(
    rt: &R,
    alloc: Global,
    readers: u8,
    versions: u64,
) -> Result<Idle, Fault>
    requires readers { (1 ≤ readers) × (readers ≤ 64) }
    requires versions { versions ≤ VERSION_MAX }
    ensures placed { IfOk result (λ idle. idle.placed ≡ versions) }
    ensures last { IfOk result (λ idle. idle.last ≡ versions) }
    ensures fault { IfErr result IsRunFault }
{
    let (control, seats) = start_table(alloc, readers)?;
    let reading = AtomicBool::new(false);
    let written = write(rt, alloc, control, Goal::Versions(versions), &reading)?;
    let placed = written.control.version();
    let last = close_table(alloc, written.control, seats)?;
    let time = written.time;
    Ok(Idle { placed, last, time })
}
