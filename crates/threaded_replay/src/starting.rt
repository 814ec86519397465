//! How the fibs of a script are made.
ghost use Rattle.std.specs.Prelude.{◌≤◌, IfOk};
ghost use Rattle.std.specs.Arc.{arc_value};
ghost use Rattle.threaded_replay.specs.Fibs.{IsNewFib};

use crate::OutOfMemory;
use crate::fib::{Fib, Fibs};
use fib_pass::{StartError, fib_start};
use fib_sync::Control;
use rib_store::Plan;
use route_lang::Script;
use std::alloc::Global;
use std::sync::Arc;

/// A control that has run nothing, and a fib of its plan at version 0 with a new pass for each
/// worker.
fn new_fib<const W: u32>(
    alloc: Global,
    plan: &Arc<Plan<W>>,
    workers: u8,
) -> Result<Fib<W>, OutOfMemory>
    requires { (1 ≤ workers) × (workers ≤ 64) }
    ensures { IfOk result (IsNewFib (arc_value plan.now) workers) }
{
    let (control, image) = Control::begin(alloc, Arc::try_clone(plan)?)?;
    match fib_start(alloc, plan, &image, workers) {
        Ok((publisher, passes)) => Ok(Fib {
            control,
            publisher,
            passes,
        }),
        Err(StartError::BadCount) => unreachable!(),
        Err(StartError::OutOfMemory) => Err(OutOfMemory),
    }
}

/// What a script is replayed with by 1 to 64 workers. Each family has a control that has run nothing,
/// and a fib of its plan at version 0 with a new pass for each worker. `OutOfMemory` where memory is
/// wanting.
pub fn fibs(alloc: Global, script: &Script, workers: u8) -> Result<Fibs, OutOfMemory>
    requires { (1 ≤ workers) × (workers ≤ 64) }
    ensures inet { IfOk result (λ fibs. IsNewFib script.now.inet workers fibs.inet) }
    ensures inet6 { IfOk result (λ fibs. IsNewFib script.now.inet6 workers fibs.inet6) }
{
    Ok(Fibs {
        inet: new_fib(alloc, script.inet(), workers)?,
        inet6: new_fib(alloc, script.inet6(), workers)?,
    })
}
