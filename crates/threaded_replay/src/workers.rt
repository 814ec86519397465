//! All workers, each in a thread of its own where one can be made.
ghost use Rattle.std.specs.Prelude.{◌≡◌, ℕ, ◌<◌, ◌≤◌, IfOk, length, slice_index_or};
ghost use Rattle.replay_run.specs.Limits.{targets_max};
ghost use Rattle.threaded_replay.specs.Serving.{IsDone, of_plans};
ghost use Rattle.threaded_replay.specs.Tally.{IsNew};

use crate::OutOfMemory;
use crate::ask::Ask;
use crate::naming::Naming;
use crate::post::Post;
use crate::worker::{Done, Job, work_counted};
use module_trait::Steps;
use replay_run::Gate;
use std::alloc::Global;
use std::marker::Brand;
use std::sync::Wait;
use std::sync::ledger::{Blank, Ledger};
use std::thread;
use std::thread::Threads;

/// Makes a worker's gets, whose reads are counted in the ledger that the blank is for.
fn work_with<A: Naming<32>, B: Naming<128>, G: Gate, L: Ledger, R: Wait>(
    rt: &R,
    alloc: Global,
    asks: &[Ask],
    workers: usize,
    post: &Post<A, B>,
    gate: &G,
    job: Job<A, B>,
    blank: Blank,
) -> Result<Done<A, B>, OutOfMemory>
    requires name { blank.name ≡ L.name }
    requires parts { blank.parts ≡ L.parts }
    requires some { 0 < blank.parts }
    requires sizes { (length asks.now ≤ 1048576) × (job.number < workers) × (workers ≤ 64) }
    requires new { IsNew job.number job.inet × IsNew job.number job.inet6 }
    ensures { IfOk result (λ done. IsDone targets_max (of_plans A.plan B.plan) asks.now workers job.number done.gots.items done.inet done.inet6) }
{
    let mut steps = Steps::<L>::new(alloc, blank)?;
    work_counted(rt, alloc, asks, workers, post, gate, job, &mut steps)
}

/// Makes a worker's gets.
fn work<A: Naming<32>, B: Naming<128>, G: Gate, R: Wait>(
    rt: &R,
    alloc: Global,
    asks: &[Ask],
    workers: usize,
    post: &Post<A, B>,
    gate: &G,
    job: Job<A, B>,
) -> Result<Done<A, B>, OutOfMemory>
    requires sizes { (length asks.now ≤ 1048576) × (job.number < workers) × (workers ≤ 64) }
    requires new { IsNew job.number job.inet × IsNew job.number job.inet6 }
    ensures { IfOk result (λ done. IsDone targets_max (of_plans A.plan B.plan) asks.now workers job.number done.gots.items done.inet done.inet6) }
{
    work_with::<A, B, G, Brand, R>(rt, alloc, asks, workers, post, gate, job, Blank::new(1))
}

/// Makes all gets, one worker for each job: what each worker did.
pub(crate) fn work_all<
    A: Naming<32> + Send + Sync,
    B: Naming<128> + Send + Sync,
    G: Gate + Sync,
    R: Threads + Wait + Sync,
>(
    rt: &R,
    alloc: Global,
    asks: &[Ask],
    posts: &[Post<A, B>],
    gate: &G,
    jobs: Vec<Job<A, B>>,
) -> Result<Vec<Result<Done<A, B>, OutOfMemory>>, OutOfMemory>
    requires sizes { (length asks.now ≤ 1048576) × (length posts.now ≤ 64) × (length jobs.items ≡ length posts.now) }
    requires jobs { (i : ℕ) (d : _) → i < length jobs.items → ((slice_index_or jobs.items i d).number ≡ i) × IsNew i (slice_index_or jobs.items i d).inet × IsNew i (slice_index_or jobs.items i d).inet6 }
    ensures count { IfOk result (λ v. length v.items ≡ length jobs.items) }
    ensures done { IfOk result (λ v. (i : ℕ) (d : _) → i < length jobs.items → IfOk (slice_index_or v.items i d) (λ e. IsDone targets_max (of_plans A.plan B.plan) asks.now (length posts.now) i e.gots.items e.inet e.inet6)) }
{
    let workers = posts.len();
    thread::map_vec(
        rt,
        jobs,
        &|job: Job<A, B>| -> Result<Done<A, B>, OutOfMemory>
            requires { (length asks.now ≤ 1048576) × (job.number < workers) × (workers ≤ 64) × (workers ≡ length posts.now) × IsNew job.number job.inet × IsNew job.number job.inet6 }
            ensures { IfOk result (λ done. IsDone targets_max (of_plans A.plan B.plan) asks.entry.now workers job.number done.gots.items done.inet done.inet6) }
        { work(rt, alloc, asks, workers, &posts[job.number], gate, job) },
    )
}
