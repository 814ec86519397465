//! What the workers begin with.
ghost use Rattle.std.specs.Prelude.{◌≡◌, ℕ, ◌<◌, IfOk, length, slice_index_or};
ghost use Rattle.fib_pass.specs.Views.{AreNewPasses};
ghost use Rattle.threaded_replay.specs.Tally.{IsNew};

use crate::OutOfMemory;
use crate::naming::{Naming, TiedPass};
use crate::post::Post;
use crate::worker::Job;
use fib_pass::Pass;
use replay_run::{BANKS, TARGETS_MAX};
use std::alloc::Global;

/// A place for each worker's notes.
pub(crate) fn make_posts<A: Naming<32>, B: Naming<128>>(
    alloc: Global,
    workers: usize,
) -> Result<Vec<Post<A, B>>, OutOfMemory>
    ensures { IfOk result (λ posts. length posts.items ≡ workers) }
{
    let mut posts = Vec::with_capacity(alloc, workers)?;
    for _count in 0..workers {
        posts.push(Post::new(alloc))?;
    }
    Ok(posts)
}

/// A job for each worker: its number, and the passes of that number.
pub(crate) fn make_jobs<A: Naming<32>, B: Naming<128>>(
    alloc: Global,
    passes: Vec<Pass<32, BANKS, TARGETS_MAX>>,
    passes6: Vec<Pass<128, BANKS, TARGETS_MAX>>,
) -> Result<Vec<Job<A, B>>, OutOfMemory>
    requires inet { AreNewPasses A.table A.plan (length passes.items) passes.items }
    requires inet6 { AreNewPasses B.table B.plan (length passes.items) passes6.items }
    ensures count { IfOk result (λ jobs. length jobs.items ≡ length passes.items) }
    ensures jobs { IfOk result (λ jobs. (i : ℕ) (d : _) → i < length jobs.items → ((slice_index_or jobs.items i d).number ≡ i) × IsNew i (slice_index_or jobs.items i d).inet × IsNew i (slice_index_or jobs.items i d).inet6) }
{
    let mut jobs = Vec::new(alloc);
    let mut rest6 = passes6.into_iter();
    for inet in passes {
        let Some(inet6) = rest6.next() else {
            unreachable!()
        };
        jobs.push(Job {
            number: jobs.len(),
            inet: TiedPass::new(inet),
            inet6: TiedPass::new(inet6),
        })?;
    }
    Ok(jobs)
}
