//! What the workers did, put together.
ghost use Rattle.std.specs.Prelude.{◌≡◌, ℕ, ◌%◌, ◌/◌, ◌<◌, All, IfOk, length, map, slice_index_or};
ghost use Rattle.threaded_replay.specs.Legal.{Inet, Inet6};
ghost use Rattle.replay_run.specs.Limits.{targets_max};
ghost use Rattle.threaded_replay.specs.Merging.{AreMade, AreRight, HasMade, IsRising, version_in};
ghost use Rattle.threaded_replay.specs.Serving.{IsDone, of_plans};
ghost use Rattle.threaded_replay.specs.Tally.{tally_of};

use crate::OutOfMemory;
use crate::ask::Ask;
use crate::got::Got;
use crate::naming::Naming;
use crate::worker::Done;
use fib_pass::Pass;
use replay_run::{BANKS, TARGETS_MAX};
use std::alloc::Global;

/// An answer of a worker.
fn got_at<A: Naming<32>, B: Naming<128>>(dones: &[Done<A, B>], worker: usize, place: usize) -> Got
    requires worker { worker < length dones.now }
    requires place { (d : _) → place < length (slice_index_or dones.now worker d).gots.items }
    ensures { (g : _) (d : _) → result ≡ slice_index_or (slice_index_or dones.now worker d).gots.items place g }
{
    let done = &dones[worker];
    done.gots[place]
}

/// The answers by the gets' numbers.
fn merge<A: Naming<32>, B: Naming<128>>(
    alloc: Global,
    asks: &[Ask],
    workers: usize,
    dones: &[Done<A, B>],
) -> Result<Vec<Got>, OutOfMemory>
    requires count { (length dones.now ≡ workers) × (0 < workers) }
    requires done { (i : ℕ) (d : _) → i < workers → IsDone targets_max (of_plans A.plan B.plan) asks.now workers i (slice_index_or dones.now i d).gots.items (slice_index_or dones.now i d).inet (slice_index_or dones.now i d).inet6 }
    ensures count { IfOk result (λ v. length v.items ≡ length asks.now) }
    ensures each { IfOk result (λ v. (j : ℕ) (g : _) (d : _) → j < length v.items → slice_index_or v.items j g ≡ slice_index_or (slice_index_or dones.now (j % workers) d).gots.items (j / workers) g) }
{
    let mut gots = Vec::new(alloc);
    for j in 0..asks.len() {
        gots.push(got_at(dones, j % workers, j / workers))?;
    }
    Ok(gots)
}

/// The answers by the gets' numbers, with what is known of them and of the workers' passes.
fn merge_right<A: Naming<32>, B: Naming<128>>(
    alloc: Global,
    asks: &[Ask],
    workers: usize,
    dones: &[Done<A, B>],
) -> Result<Vec<Got>, OutOfMemory>
    requires count { (length dones.now ≡ workers) × (0 < workers) }
    requires done { (i : ℕ) (d : _) → i < workers → IsDone targets_max (of_plans A.plan B.plan) asks.now workers i (slice_index_or dones.now i d).gots.items (slice_index_or dones.now i d).inet (slice_index_or dones.now i d).inet6 }
    ensures right { IfOk result (λ v. AreRight targets_max (of_plans A.plan B.plan) asks.now v.items) }
    ensures rising { IfOk result (λ v. IsRising workers asks.now (version_in v.items)) }
    ensures made { IfOk result (λ v. (i : ℕ) (d : _) → i < workers → HasMade targets_max workers (of_plans A.plan B.plan) asks.now (version_in v.items) Inet i (slice_index_or dones.now i d).inet) }
    ensures made6 { IfOk result (λ v. (i : ℕ) (d : _) → i < workers → HasMade targets_max workers (of_plans A.plan B.plan) asks.now (version_in v.items) Inet6 i (slice_index_or dones.now i d).inet6) }
{
    let gots = merge(alloc, asks, workers, dones)?;
    Ok(gots)
}

/// The passes of all workers, in order.
#[derive(Drop)]
pub(crate) struct Passes {
    pub(crate) inet: Vec<Pass<32, BANKS, TARGETS_MAX>>,
    pub(crate) inet6: Vec<Pass<128, BANKS, TARGETS_MAX>>,
}

/// The passes of all workers, in order.
fn untie<A: Naming<32>, B: Naming<128>>(
    alloc: Global,
    dones: Vec<Done<A, B>>,
) -> Result<Passes, OutOfMemory>
    ensures inet { IfOk result (λ p. map (tally_of A.plan) p.inet.items ≡ map (λ d. d.inet) dones.items) }
    ensures inet6 { IfOk result (λ p. map (tally_of B.plan) p.inet6.items ≡ map (λ d. d.inet6) dones.items) }
    ensures tied { IfOk result (λ p. All (λ q. (q.seat.table ≡ A.table) × (q.seat.key ≡ A.plan)) p.inet.items) }
    ensures tied6 { IfOk result (λ p. All (λ q. (q.seat.table ≡ B.table) × (q.seat.key ≡ B.plan)) p.inet6.items) }
{
    let mut inet = Vec::new(alloc);
    let mut inet6 = Vec::new(alloc);
    for done in dones {
        let Done {
            inet: pass,
            inet6: pass6,
            gots: _,
        } = done;
        inet.push(pass.into_pass())?;
        inet6.push(pass6.into_pass())?;
    }
    Ok(Passes { inet, inet6 })
}

/// What the workers hand back together.
#[derive(Drop)]
pub(crate) struct Handed {
    pub(crate) gots: Vec<Got>,
    pub(crate) passes: Passes,
}

/// The answers and the passes of all workers.
pub(crate) fn hand_back<A: Naming<32>, B: Naming<128>>(
    alloc: Global,
    asks: &[Ask],
    workers: usize,
    dones: Vec<Done<A, B>>,
) -> Result<Handed, OutOfMemory>
    requires count { (length dones.items ≡ workers) × (0 < workers) }
    requires done { (i : ℕ) (d : _) → i < workers → IsDone targets_max (of_plans A.plan B.plan) asks.now workers i (slice_index_or dones.items i d).gots.items (slice_index_or dones.items i d).inet (slice_index_or dones.items i d).inet6 }
    ensures right { IfOk result (λ h. AreRight targets_max (of_plans A.plan B.plan) asks.now h.gots.items) }
    ensures rising { IfOk result (λ h. IsRising workers asks.now (version_in h.gots.items)) }
    ensures made { IfOk result (λ h. AreMade targets_max workers (of_plans A.plan B.plan) asks.now (version_in h.gots.items) Inet A.table A.plan h.passes.inet.items) }
    ensures made6 { IfOk result (λ h. AreMade targets_max workers (of_plans A.plan B.plan) asks.now (version_in h.gots.items) Inet6 B.table B.plan h.passes.inet6.items) }
{
    let gots = merge_right(alloc, asks, workers, dones.as_slice())?;
    let passes = untie(alloc, dones)?;
    Ok(Handed { gots, passes })
}
