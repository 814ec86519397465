//! The gets of a script, made by workers beside one control.
ghost use Rattle.std.specs.Prelude.{◌≡◌, ◌<◌, ◌≤◌, IfOk, length};
ghost use Rattle.threaded_replay.specs.Asked.{AreWithin};
ghost use Rattle.threaded_replay.specs.Fibs.{IsNewFib, IsRunFib};
ghost use Rattle.threaded_replay.specs.Legal.{Inet, Inet6, IsLegal, gets_of};
ghost use Rattle.replay_run.specs.Limits.{banks, targets_max};
ghost use Rattle.threaded_replay.specs.Merging.{AreMade, AreRight, IsRising, version_in};
ghost use Rattle.threaded_replay.specs.Producing.{IsThrough};
ghost use Rattle.threaded_replay.specs.Serving.{of_plans};

use crate::OutOfMemory;
use crate::ask::{Ask, asks_of};
use crate::beside::{Beside, run_beside};
use crate::fib::{Fib, Fibs};
use crate::got::Got;
use crate::jobs::make_jobs;
use crate::merging::{Handed, hand_back};
use crate::naming::Naming;
use crate::producer::Producer;
use crate::steer::Producers;
use replay_run::Gate;
use route_lang::Script;
use std::alloc::Global;
use std::marker::{Brand, PhantomData};
use std::sync::Wait;
use std::thread::Threads;

/// What came of a replay: the answers, and the fibs behind them.
#[derive(Drop)]
pub struct Ran {
    /// The answer of each get, in script order.
    pub gots: Vec<Got>,
    /// The fibs as they were left.
    pub fibs: Fibs,
}

/// Makes the gets over fibs that `A` and `B` name.
fn answer_named<
    A: Naming<32> + Send + Sync,
    B: Naming<128> + Send + Sync,
    G: Gate + Sync,
    R: Threads + Wait + Sync,
>(rt: &R, alloc: Global, asks: &[Ask], fibs: Fibs, gate: &G) -> Result<Ran, OutOfMemory>
    requires inet { IsNewFib A.plan A.readers fibs.inet × (fibs.inet.publisher.table ≡ A.table) }
    requires inet6 { IsNewFib B.plan B.readers fibs.inet6 × (fibs.inet6.publisher.table ≡ B.table) }
    requires workers { (0 < A.readers) × (A.readers ≤ 64) × (B.readers ≡ A.readers) }
    requires asks { (length asks.now ≤ 1048576) × AreWithin (of_plans A.plan B.plan) asks.now }
    ensures right { IfOk result (λ ran. AreRight targets_max (of_plans A.plan B.plan) asks.now ran.gots.items) }
    ensures rising { IfOk result (λ ran. IsRising A.readers asks.now (version_in ran.gots.items)) }
    ensures through { IfOk result (λ ran. IsThrough banks targets_max A.table A.plan A.readers ran.fibs.inet.control ran.fibs.inet.publisher) }
    ensures through6 { IfOk result (λ ran. IsThrough banks targets_max B.table B.plan B.readers ran.fibs.inet6.control ran.fibs.inet6.publisher) }
    ensures made { IfOk result (λ ran. AreMade targets_max A.readers (of_plans A.plan B.plan) asks.now (version_in ran.gots.items) Inet A.table A.plan ran.fibs.inet.passes.items) }
    ensures made6 { IfOk result (λ ran. AreMade targets_max A.readers (of_plans A.plan B.plan) asks.now (version_in ran.gots.items) Inet6 B.table B.plan ran.fibs.inet6.passes.items) }
{
    let Fibs { inet, inet6 } = fibs;
    let workers = inet.passes.len();
    let jobs = make_jobs::<A, B>(alloc, inet.passes, inet6.passes)?;
    let producers = Producers {
        inet: Producer {
            control: inet.control,
            publisher: inet.publisher,
            of: PhantomData,
        },
        inet6: Producer {
            control: inet6.control,
            publisher: inet6.publisher,
            of: PhantomData,
        },
    };
    let Beside { producers, dones } = run_beside(rt, alloc, asks, producers, jobs, gate)?;
    let Handed { gots, passes } = hand_back(alloc, asks, workers, dones)?;
    let Producers { inet, inet6 } = producers;
    Ok(Ran {
        gots,
        fibs: Fibs {
            inet: Fib {
                control: inet.control,
                publisher: inet.publisher,
                passes: passes.inet,
            },
            inet6: Fib {
                control: inet6.control,
                publisher: inet6.publisher,
                passes: passes.inet6,
            },
        },
    })
}

/// Makes the gets of a script by as many workers as each family has passes, 1 to 64, beside one
/// control. Get `j`, counted from 0, is made by worker `j` modulo their number, once the worker was
/// told of the versions up to the last sync line before it. The fibs are as [`fibs`] gives them for
/// the script. The gate is called ahead of each get and behind it, by the worker that makes it.
///
/// The versions at which the gets are answered may differ from one run to the next. By the end the
/// last version of each family is published, and pass `w` has made the gets of worker `w` and no
/// other lookup.
///
/// `OutOfMemory` where memory is wanting, in the control or in a worker; the fibs are given up then. A
/// control that is short of memory tells every worker, so that none waits for a note that never comes.
///
/// [`fibs`]: crate::fibs
pub fn answer_gets<G: Gate + Sync, R: Threads + Wait + Sync>(
    rt: &R,
    alloc: Global,
    script: &Script,
    fibs: Fibs,
    gate: &G,
) -> Result<Ran, OutOfMemory>
    requires workers { (0 < length fibs.inet.passes.items) × (length fibs.inet.passes.items ≤ 64) }
    requires inet { IsNewFib script.now.inet (length fibs.inet.passes.items) fibs.inet }
    requires inet6 { IsNewFib script.now.inet6 (length fibs.inet.passes.items) fibs.inet6 }
    ensures right { IfOk result (λ ran. AreRight targets_max script.now (gets_of script.now) ran.gots.items) }
    ensures legal { IfOk result (λ ran. IsLegal targets_max (length fibs.inet.passes.items) script.now (version_in ran.gots.items)) }
    ensures inet { IfOk result (λ ran. IsRunFib (length fibs.inet.passes.items) script.now (version_in ran.gots.items) Inet script.now.inet fibs.inet ran.fibs.inet) }
    ensures inet6 { IfOk result (λ ran. IsRunFib (length fibs.inet.passes.items) script.now (version_in ran.gots.items) Inet6 script.now.inet6 fibs.inet6 ran.fibs.inet6) }
{
    let asks = asks_of(alloc, script)?;
    answer_named::<Brand, Brand, G, R>(rt, alloc, &asks, fibs, gate)
}
