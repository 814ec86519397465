//! The clock by which a thread's work is timed.
ghost use Rattle.std.specs.Prelude.{◌≡◌, IfErr};
ghost use Rattle.bench_kit.specs.declared.fault.Fault.TheVariants.{Clock};

use crate::fault::Fault;
use std::time::{CpuClock, Duration};

/// The processor time that this thread has used. [`Fault::Clock`] where the clock gives none.
pub fn cpu_time<R: CpuClock>(rt: &R) -> Result<Duration, Fault>
    ensures { IfErr result (λ e. e ≡ Clock) }
{
    match rt.thread_cpu_time() {
        Ok(time) => Ok(time),
        Err(_) => Err(Fault::Clock),
    }
}
