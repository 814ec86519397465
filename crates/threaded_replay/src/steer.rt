//! What the control does beside the workers.
ghost use Rattle.std.specs.Prelude.{◌<◌, ◌≤◌, IfOk, OnOk, length};
ghost use Rattle.threaded_replay.specs.Asked.{AreWithin, commands_in};
ghost use Rattle.replay_run.specs.Limits.{banks, targets_max};
ghost use Rattle.threaded_replay.specs.Producing.{IsAbreast, IsThrough};
ghost use Rattle.threaded_replay.specs.Serving.{of_plans};

use crate::OutOfMemory;
use crate::ask::{Address, Ask};
use crate::naming::Naming;
use crate::post::Post;
use crate::producer::Producer;
use std::alloc::Global;
use std::sync::Wait;
use std::thread::Threads;

/// How many workers there may be.
const WORKERS_MAX: usize = 64;

/// What makes the versions of both families.
#[derive(Drop)]
pub(crate) struct Producers<A: Naming<32>, B: Naming<128>> {
    pub(crate) inet: Producer<32, A>,
    pub(crate) inet6: Producer<128, B>,
}

/// The sync line of each family whose note a worker was handed last, by the number of commands up
/// to and with it; 0 without one.
#[derive(Clone, Copy)]
struct Told {
    inet: u32,
    inet6: u32,
}

/// Publishes what a sync line of IPv4 asks for, and hands a worker its note, if it hasn't that yet.
fn hand_inet<A: Naming<32>, B: Naming<128>, R: Threads + Wait + Sync>(
    rt: &R,
    alloc: Global,
    synced: u32,
    post: &Post<A, B>,
    told: &mut u32,
    producer: &mut Producer<32, A>,
) -> Result<(), OutOfMemory>
    requires abreast { IsAbreast banks targets_max A.table A.plan A.readers producer.old.control producer.old.publisher }
    requires within { synced ≤ length A.plan.commands }
    ensures { OnOk result (IsAbreast banks targets_max A.table A.plan A.readers producer.new.control producer.new.publisher) }
{
    if *told == synced {
        return Ok(());
    }
    producer.publish_to(rt, alloc, synced)?;
    let note = producer.tell()?;
    post.put_inet(rt, synced, note)?;
    *told = synced;
    Ok(())
}

/// The same of IPv6.
fn hand_inet6<A: Naming<32>, B: Naming<128>, R: Threads + Wait + Sync>(
    rt: &R,
    alloc: Global,
    synced: u32,
    post: &Post<A, B>,
    told: &mut u32,
    producer: &mut Producer<128, B>,
) -> Result<(), OutOfMemory>
    requires abreast { IsAbreast banks targets_max B.table B.plan B.readers producer.old.control producer.old.publisher }
    requires within { synced ≤ length B.plan.commands }
    ensures { OnOk result (IsAbreast banks targets_max B.table B.plan B.readers producer.new.control producer.new.publisher) }
{
    if *told == synced {
        return Ok(());
    }
    producer.publish_to(rt, alloc, synced)?;
    let note = producer.tell()?;
    post.put_inet6(rt, synced, note)?;
    *told = synced;
    Ok(())
}

/// Does what a worker waits for ahead of a get.
fn hand_note<A: Naming<32>, B: Naming<128>, R: Threads + Wait + Sync>(
    rt: &R,
    alloc: Global,
    ask: &Ask,
    post: &Post<A, B>,
    told: &mut Told,
    producers: &mut Producers<A, B>,
) -> Result<(), OutOfMemory>
    requires inet { IsAbreast banks targets_max A.table A.plan A.readers producers.old.inet.control producers.old.inet.publisher }
    requires inet6 { IsAbreast banks targets_max B.table B.plan B.readers producers.old.inet6.control producers.old.inet6.publisher }
    requires within { ask.now.synced ≤ commands_in (of_plans A.plan B.plan) ask.now.family }
    ensures inet { OnOk result (IsAbreast banks targets_max A.table A.plan A.readers producers.new.inet.control producers.new.inet.publisher) }
    ensures inet6 { OnOk result (IsAbreast banks targets_max B.table B.plan B.readers producers.new.inet6.control producers.new.inet6.publisher) }
{
    let synced = ask.synced();
    match ask.address() {
        Address::Inet(_) => {
            hand_inet(rt, alloc, synced, post, &mut told.inet, &mut producers.inet)
        }
        Address::Inet6(_) => {
            hand_inet6(
                rt,
                alloc,
                synced,
                post,
                &mut told.inet6,
                &mut producers.inet6,
            )
        }
    }
}

/// Publishes what the sync lines before the gets ask for, and hands the notes out: one for each
/// worker and each family of which the worker makes a get between a sync line and the next.
fn hand_out<A: Naming<32>, B: Naming<128>, R: Threads + Wait + Sync>(
    rt: &R,
    alloc: Global,
    asks: &[Ask],
    posts: &[Post<A, B>],
    producers: &mut Producers<A, B>,
) -> Result<(), OutOfMemory>
    requires inet { IsAbreast banks targets_max A.table A.plan A.readers producers.old.inet.control producers.old.inet.publisher }
    requires inet6 { IsAbreast banks targets_max B.table B.plan B.readers producers.old.inet6.control producers.old.inet6.publisher }
    requires within { AreWithin (of_plans A.plan B.plan) asks.now }
    requires posts { (0 < length posts.now) × (length posts.now ≤ 64) }
    ensures inet { OnOk result (IsAbreast banks targets_max A.table A.plan A.readers producers.new.inet.control producers.new.inet.publisher) }
    ensures inet6 { OnOk result (IsAbreast banks targets_max B.table B.plan B.readers producers.new.inet6.control producers.new.inet6.publisher) }
{
    let mut told = [Told { inet: 0, inet6: 0 }; WORKERS_MAX];
    for j in 0..asks.len() {
        let worker = j % posts.len();
        hand_note(
            rt,
            alloc,
            &asks[j],
            &posts[worker],
            &mut told[worker],
            producers,
        )?;
    }
    Ok(())
}

/// Publishes all versions of both families, the notes being handed out meanwhile.
fn produce_all<A: Naming<32>, B: Naming<128>, R: Threads + Wait + Sync>(
    rt: &R,
    alloc: Global,
    asks: &[Ask],
    posts: &[Post<A, B>],
    producers: &mut Producers<A, B>,
) -> Result<(), OutOfMemory>
    requires inet { IsAbreast banks targets_max A.table A.plan A.readers producers.old.inet.control producers.old.inet.publisher }
    requires inet6 { IsAbreast banks targets_max B.table B.plan B.readers producers.old.inet6.control producers.old.inet6.publisher }
    requires within { AreWithin (of_plans A.plan B.plan) asks.now }
    requires posts { (0 < length posts.now) × (length posts.now ≤ 64) }
    ensures inet { OnOk result (IsThrough banks targets_max A.table A.plan A.readers producers.new.inet.control producers.new.inet.publisher) }
    ensures inet6 { OnOk result (IsThrough banks targets_max B.table B.plan B.readers producers.new.inet6.control producers.new.inet6.publisher) }
{
    hand_out(rt, alloc, asks, posts, producers)?;
    producers.inet.publish_all(rt, alloc)?;
    producers.inet6.publish_all(rt, alloc)
}

/// Publishes all versions of both families, the notes being handed out meanwhile. Where memory is
/// wanting it says so to each worker, so that none waits on.
pub(crate) fn steer<A: Naming<32>, B: Naming<128>, R: Threads + Wait + Sync>(
    rt: &R,
    alloc: Global,
    asks: &[Ask],
    posts: &[Post<A, B>],
    producers: Producers<A, B>,
) -> Result<Producers<A, B>, OutOfMemory>
    requires inet { IsAbreast banks targets_max A.table A.plan A.readers producers.inet.control producers.inet.publisher }
    requires inet6 { IsAbreast banks targets_max B.table B.plan B.readers producers.inet6.control producers.inet6.publisher }
    requires within { AreWithin (of_plans A.plan B.plan) asks.now }
    requires posts { (0 < length posts.now) × (length posts.now ≤ 64) }
    ensures inet { IfOk result (λ p. IsThrough banks targets_max A.table A.plan A.readers p.inet.control p.inet.publisher) }
    ensures inet6 { IfOk result (λ p. IsThrough banks targets_max B.table B.plan B.readers p.inet6.control p.inet6.publisher) }
{
    let mut producers = producers;
    match produce_all(rt, alloc, asks, posts, &mut producers) {
        Ok(()) => Ok(producers),
        Err(error) => {
            for post in posts {
                post.end(rt);
            }
            Err(error)
        }
    }
}
