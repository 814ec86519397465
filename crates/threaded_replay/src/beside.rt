//! The control and the workers beside each other.
ghost use Rattle.std.specs.Prelude.{◌≡◌, ℕ, ◌<◌, ◌≤◌, IfOk, Ok, length, map, slice_index_or};
ghost use denote.Param.Send.{IsSync};
ghost use Rattle.threaded_replay.specs.Asked.{AreWithin};
ghost use Rattle.replay_run.specs.Limits.{banks, targets_max};
ghost use Rattle.threaded_replay.specs.Producing.{IsAbreast, IsThrough};
ghost use Rattle.threaded_replay.specs.Serving.{IsDone, of_plans};
ghost use Rattle.threaded_replay.specs.Tally.{IsNew};

use crate::OutOfMemory;
use crate::ask::Ask;
use crate::jobs::make_posts;
use crate::naming::Naming;
use crate::steer::{Producers, steer};
use crate::worker::{Done, Job};
use crate::workers::work_all;
use replay_run::Gate;
use std::alloc::Global;
use std::sync::Wait;
use std::thread::{Threads, join};

/// What control and workers hand back.
#[derive(Drop)]
pub(crate) struct Beside<A: Naming<32>, B: Naming<128>> {
    pub(crate) producers: Producers<A, B>,
    pub(crate) dones: Vec<Done<A, B>>,
}

/// What the workers did, where all of them came to their end.
fn gather<A: Naming<32>, B: Naming<128>>(
    alloc: Global,
    results: Vec<Result<Done<A, B>, OutOfMemory>>,
) -> Result<Vec<Done<A, B>>, OutOfMemory>
    ensures { IfOk result (λ v. map (λ d. Ok d) v.items ≡ results.items) }
{
    let mut dones = Vec::new(alloc);
    for result in results {
        dones.push(result?)?;
    }
    Ok(dones)
}

/// The same, with what is known of each.
fn gather_done<A: Naming<32>, B: Naming<128>>(
    alloc: Global,
    asks: &[Ask],
    workers: usize,
    results: Vec<Result<Done<A, B>, OutOfMemory>>,
) -> Result<Vec<Done<A, B>>, OutOfMemory>
    requires count { length results.items ≡ workers }
    requires done { (i : ℕ) (d : _) → i < workers → IfOk (slice_index_or results.items i d) (λ e. IsDone targets_max (of_plans A.plan B.plan) asks.now workers i e.gots.items e.inet e.inet6) }
    ensures count { IfOk result (λ v. length v.items ≡ workers) }
    ensures done { IfOk result (λ v. (i : ℕ) (d : _) → i < workers → IsDone targets_max (of_plans A.plan B.plan) asks.now workers i (slice_index_or v.items i d).gots.items (slice_index_or v.items i d).inet (slice_index_or v.items i d).inet6) }
{
    let dones = gather(alloc, results)?;
    Ok(dones)
}

/// Has the control publish all versions and the workers make all gets, beside each other: the
/// workers in threads of their own, the control in the thread that calls.
pub(crate) fn run_beside<
    A: Naming<32> + Send + Sync,
    B: Naming<128> + Send + Sync,
    G: Gate + Sync,
    R: Threads + Wait + Sync,
>(
    rt: &R,
    alloc: Global,
    asks: &[Ask],
    producers: Producers<A, B>,
    jobs: Vec<Job<A, B>>,
    gate: &G,
) -> Result<Beside<A, B>, OutOfMemory>
    requires sizes { (length asks.now ≤ 1048576) × (0 < length jobs.items) × (length jobs.items ≤ 64) }
    requires within { AreWithin (of_plans A.plan B.plan) asks.now }
    requires inet { IsAbreast banks targets_max A.table A.plan A.readers producers.inet.control producers.inet.publisher }
    requires inet6 { IsAbreast banks targets_max B.table B.plan B.readers producers.inet6.control producers.inet6.publisher }
    requires jobs { (i : ℕ) (d : _) → i < length jobs.items → ((slice_index_or jobs.items i d).number ≡ i) × IsNew i (slice_index_or jobs.items i d).inet × IsNew i (slice_index_or jobs.items i d).inet6 }
    ensures inet { IfOk result (λ r. IsThrough banks targets_max A.table A.plan A.readers r.producers.inet.control r.producers.inet.publisher) }
    ensures inet6 { IfOk result (λ r. IsThrough banks targets_max B.table B.plan B.readers r.producers.inet6.control r.producers.inet6.publisher) }
    ensures count { IfOk result (λ r. length r.dones.items ≡ length jobs.items) }
    ensures done { IfOk result (λ r. (i : ℕ) (d : _) → i < length r.dones.items → IsDone targets_max (of_plans A.plan B.plan) asks.now (length r.dones.items) i (slice_index_or r.dones.items i d).gots.items (slice_index_or r.dones.items i d).inet (slice_index_or r.dones.items i d).inet6) }
{
    let posts = make_posts::<A, B>(alloc, jobs.len())?;
    let shared = posts.as_slice();
    let (workers, control) = join(
        rt,
        || -> Result<Vec<Result<Done<A, B>, OutOfMemory>>, OutOfMemory>
            requires { (length asks.now ≤ 1048576) × (length shared.now ≤ 64) × (length jobs.items ≡ length shared.now) × ((i : ℕ) (d : _) → i < length jobs.items → ((slice_index_or jobs.items i d).number ≡ i) × IsNew i (slice_index_or jobs.items i d).inet × IsNew i (slice_index_or jobs.items i d).inet6) }
            ensures count { IfOk result (λ v. length v.items ≡ length jobs.items) }
            ensures done { IfOk result (λ v. (i : ℕ) (d : _) → i < length jobs.items → IfOk (slice_index_or v.items i d) (λ e. IsDone targets_max (of_plans A.plan B.plan) asks.entry.now (length shared.entry.now) i e.gots.items e.inet e.inet6)) }
        { work_all(rt, alloc, asks, shared, gate, jobs) },
        || -> Result<Producers<A, B>, OutOfMemory>
            requires { IsSync R.row × AreWithin (of_plans A.plan B.plan) asks.now × (0 < length shared.now) × (length shared.now ≤ 64) × IsAbreast banks targets_max A.table A.plan A.readers producers.inet.control producers.inet.publisher × IsAbreast banks targets_max B.table B.plan B.readers producers.inet6.control producers.inet6.publisher }
            ensures inet { IfOk result (λ p. IsThrough banks targets_max A.table A.plan A.readers p.inet.control p.inet.publisher) }
            ensures inet6 { IfOk result (λ p. IsThrough banks targets_max B.table B.plan B.readers p.inet6.control p.inet6.publisher) }
        { steer(rt, alloc, asks, shared, producers) },
    );
    let producers = control?;
    let dones = gather_done(alloc, asks, shared.len(), workers?)?;
    Ok(Beside { producers, dones })
}
