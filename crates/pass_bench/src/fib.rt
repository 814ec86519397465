ghost use Rattle.std.specs.Prelude.{◌≡◌, IfOk};

use crate::routes::Course;
use bench_kit::Fault;
use fib_pass::fib_start;
use std::alloc::Global;
use std::sync::Arc;

/// The control, the publisher and a pass of IPv4, with 8 banks and room for 4,095 live targets.
pub(crate) type Control = fib_sync::Control<32, 8, 4_095>;

pub(crate) type Publisher = fib_pass::Publisher<32, 8, 4_095>;

pub(crate) type Pass = fib_pass::Pass<32, 8, 4_095>;

/// A control of a course, and a fib of so many passes at version 0.
pub(crate) fn start_fib(
    alloc: Global,
    course: &Course,
    passes: u8,
) -> Result<(Control, Publisher, Vec<Pass>), Fault>
    ensures plan { IfOk result (λ t. t.1.key ≡ t.0.plan) }
    ensures version { IfOk result (λ t. t.1.own.version ≡ t.0.image.version) }
{
    let (control, first) = Control::begin(alloc, Arc::try_clone(&course.plan)?)?;
    let Ok((publisher, passes)) = fib_start(alloc, &course.plan, &first, passes) else {
        return Err(Fault::Unmade);
    };
    Ok((control, publisher, passes))
}
