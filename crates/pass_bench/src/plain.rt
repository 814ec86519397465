//! The same lookups without epochs.
ghost use Rattle.std.specs.Prelude.{◌≡◌, ◌<◌};

use crate::fib::Control;
use crate::routes::Course;
use bench_kit::{Fault, cpu_time};
use engine_set::Image;
use fib_sync::Advance;
use module_trait::Steps;
use prefix_width::Addr;
use std::alloc::Global;
use std::marker::Brand;
use std::sync::Arc;
use std::sync::ledger::{Blank, Ledger};
use std::time::{CpuClock, Duration};

/// How often the addresses are looked up. The fastest round counts.
const ROUNDS: u32 = 5;

/// The image in which all routes stand.
fn whole_image(alloc: Global, course: &Course) -> Result<Arc<Image<32>>, Fault> {
    let (mut control, first) = Control::begin(alloc, Arc::try_clone(&course.plan)?)?;
    let mut image = first;
    for _ in 0..course.plan.len() {
        if image.routes() >= course.routes {
            break;
        }
        let Advance::Next(next) = control.advance(alloc)? else {
            break;
        };
        image = next;
    }
    Ok(image)
}

/// Looks addresses up in an image, and counts the indexes.
fn look_up_plainly<L: Ledger>(image: &Image<32>, addrs: &[Addr<32>], steps: &mut Steps<L>) -> u64 {
    let mut answered = 0u64;
    for addr in addrs {
        let index = image.resolve(*addr, 0, steps);
        answered = answered.wrapping_add(u64::from(index.is_some()));
    }
    answered
}

/// The processor time of the fastest round, and how many lookups of all rounds were answered.
fn time_counted<R: CpuClock, L: Ledger>(
    rt: &R,
    alloc: Global,
    course: &Course,
    blank: Blank,
) -> Result<(Duration, u64), Fault>
    requires name { blank.name ≡ L.name }
    requires parts { blank.parts ≡ L.parts }
    requires some { 0 < blank.parts }
{
    let mut steps = Steps::<L>::new(alloc, blank)?;
    let image = whole_image(alloc, course)?;
    let mut least = Duration::MAX;
    let mut answered = 0u64;
    for _ in 0..ROUNDS {
        let start = cpu_time(rt)?;
        let more = look_up_plainly(&image, &course.addrs, &mut steps);
        least = least.min(cpu_time(rt)?.saturating_sub(start));
        answered = answered.wrapping_add(more);
    }
    Ok((least, answered))
}

/// The processor time of the fastest round, and how many lookups of all rounds were answered.
pub(crate) fn time_plainly<R: CpuClock>(
    rt: &R,
    alloc: Global,
    course: &Course,
) -> Result<(Duration, u64), Fault> {
    time_counted::<R, Brand>(rt, alloc, course, Blank::new(1))
}
