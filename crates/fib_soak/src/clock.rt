//! Times that go by, and pauses.
use bench_kit::Fault;
use std::rt::Clock;
use std::thread;
use std::time::{Duration, Instant};

/// When a time has begun, and how long it is.
#[derive(Clone, Copy)]
pub(crate) struct Timer {
    start: Instant,
    length: Duration,
}

impl Timer {
    /// A time that begins now.
    pub(crate) fn start<R: Clock>(rt: &R, length: Duration) -> Result<Timer, Fault> {
        match Instant::now(rt) {
            Ok(start) => Ok(Timer { start, length }),
            Err(_) => Err(Fault::Clock),
        }
    }

    /// Whether it is over.
    pub(crate) fn is_over<R: Clock>(&self, rt: &R) -> Result<bool, Fault> {
        match self.start.elapsed(rt) {
            Ok(time) => Ok(time >= self.length),
            Err(_) => Err(Fault::Clock),
        }
    }
}

/// Sleeps, or only lets others run where there is no pause.
pub(crate) fn rest<R: Clock>(rt: &R, pause: Duration) {
    if pause == Duration::ZERO {
        thread::yield_now();
    } else {
        thread::sleep(rt, pause);
    }
}
