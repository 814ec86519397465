//! The whole replay.
ghost use Rattle.std.specs.Prelude.{◌≤◌, IfOk};
ghost use Rattle.threaded_replay.specs.Threaded.{IsThreaded};

use crate::ending::end;
use crate::{OutOfMemory, answer_gets, fibs};
use fib_pass::FibTotals;
use replay_run::Gate;
use route_lang::Script;
use std::alloc::Global;
use std::sync::Wait;
use std::thread::Threads;

/// The output of a script whose gets are made by 1 to 64 workers beside one control, and what the
/// passes of both families did. Which version a get is answered at may differ from one run to the
/// next, and is printed. `OutOfMemory` where memory is wanting.
pub fn threaded<G: Gate + Sync, R: Threads + Wait + Sync>(
    rt: &R,
    alloc: Global,
    script: &Script,
    workers: u8,
    gate: &G,
) -> Result<(Vec<u8>, FibTotals), OutOfMemory>
    requires { (1 ≤ workers) × (workers ≤ 64) }
    ensures { IfOk result (λ r. IsThreaded workers script.now r.0.items r.1) }
{
    let fibs = fibs(alloc, script, workers)?;
    let ran = answer_gets(rt, alloc, script, fibs, gate)?;
    end(alloc, script, ran)
}
