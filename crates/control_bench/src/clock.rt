//! Times by the clock and of the processor.
use bench_kit::{Fault, cpu_time};
use std::rt::Clock;
use std::time::{CpuClock, Duration, Instant};

/// A time that something took.
#[derive(Clone, Copy, Debug, PartialEq, Eq)]
pub(crate) struct Spent {
    /// Of this thread's processor.
    pub(crate) cpu: Duration,
    /// By the clock.
    pub(crate) wall: Duration,
}

/// When something began.
#[derive(Clone, Copy)]
pub(crate) struct Begun {
    cpu: Duration,
    wall: Instant,
}

impl Spent {
    /// The greatest time.
    pub(crate) fn most() -> Spent {
        Spent {
            cpu: Duration::MAX,
            wall: Duration::MAX,
        }
    }

    /// The lesser of each.
    pub(crate) fn min(self, other: Spent) -> Spent {
        Spent {
            cpu: self.cpu.min(other.cpu),
            wall: self.wall.min(other.wall),
        }
    }
}

impl Begun {
    /// Now.
    pub(crate) fn now<R: Clock + CpuClock>(rt: &R) -> Result<Begun, Fault> {
        let cpu = cpu_time(rt)?;
        match Instant::now(rt) {
            Ok(wall) => Ok(Begun { cpu, wall }),
            Err(_) => Err(Fault::Clock),
        }
    }

    /// The time since then.
    pub(crate) fn spent<R: Clock + CpuClock>(&self, rt: &R) -> Result<Spent, Fault> {
        let Ok(wall) = self.wall.elapsed(rt) else {
            return Err(Fault::Clock);
        };
        let cpu = cpu_time(rt)?.saturating_sub(self.cpu);
        Ok(Spent { cpu, wall })
    }
}
