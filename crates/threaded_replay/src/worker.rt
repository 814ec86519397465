//! A worker.
ghost use Rattle.std.specs.Prelude.{◌≡◌, ◌+◌, ◌<◌, ◌≤◌, None, IfSome, IfOk, length};
ghost use Rattle.threaded_replay.specs.Legal.{by_family};
ghost use Rattle.replay_run.specs.Limits.{targets_max};
ghost use Rattle.threaded_replay.specs.Serving.{IsDone, IsServed, of_plans};
ghost use Rattle.threaded_replay.specs.Tally.{AnswersSince, IsNew};

use crate::OutOfMemory;
use crate::ask::{Address, Ask};
use crate::follow::Follower;
use crate::got::Got;
use crate::naming::{Naming, TiedPass};
use crate::post::Post;
use module_trait::Steps;
use prefix_width::Addr;
use replay_run::Gate;
use std::alloc::Global;
use std::sync::Wait;
use std::sync::ledger::Ledger;

/// What a worker is given: its number, and its pass of each family.
#[derive(Drop)]
pub(crate) struct Job<A: Naming<32>, B: Naming<128>> {
    pub(crate) number: usize,
    pub(crate) inet: TiedPass<32, A>,
    pub(crate) inet6: TiedPass<128, B>,
}

/// What a worker hands back: its passes, and its answers in the order of their gets.
#[derive(Drop)]
pub(crate) struct Done<A: Naming<32>, B: Naming<128>> {
    pub(crate) inet: TiedPass<32, A>,
    pub(crate) inet6: TiedPass<128, B>,
    pub(crate) gots: Vec<Got>,
}

/// A worker's passes while it works.
#[derive(Drop)]
struct Followers<A: Naming<32>, B: Naming<128>> {
    inet: Follower<32, A>,
    inet6: Follower<128, B>,
}

/// Answers a get of IPv4, once the note of its sync line is taken in. `None` where that never comes.
fn answer_inet<A: Naming<32>, B: Naming<128>, L: Ledger, R: Wait>(
    rt: &R,
    post: &Post<A, B>,
    ask: &Ask,
    addr: Addr<32>,
    steps: &mut Steps<L>,
    pass: &mut Follower<32, A>,
) -> Option<Got>
    requires { pass.old.0.lookups < 16777216 }
    ensures { IfSome result (λ got. (got.inet6 ≡ None) × AnswersSince targets_max A.plan ask.now.synced pass.old.0 addr ask.now.flow got.version got.inet pass.new.0) }
{
    let synced = ask.synced();
    if !pass.has(synced) {
        let note = post.take_inet(rt, synced)?;
        pass.learn(synced, note);
    }
    let answer = pass.lookup(addr, ask.flow(), steps);
    Some(Got {
        version: answer.version,
        inet: answer.nexthop,
        inet6: None,
    })
}

/// Answers a get of IPv6, once the note of its sync line is taken in. `None` where that never comes.
fn answer_inet6<A: Naming<32>, B: Naming<128>, L: Ledger, R: Wait>(
    rt: &R,
    post: &Post<A, B>,
    ask: &Ask,
    addr: Addr<128>,
    steps: &mut Steps<L>,
    pass: &mut Follower<128, B>,
) -> Option<Got>
    requires { pass.old.0.lookups < 16777216 }
    ensures { IfSome result (λ got. (got.inet ≡ None) × AnswersSince targets_max B.plan ask.now.synced pass.old.0 addr ask.now.flow got.version got.inet6 pass.new.0) }
{
    let synced = ask.synced();
    if !pass.has(synced) {
        let note = post.take_inet6(rt, synced)?;
        pass.learn(synced, note);
    }
    let answer = pass.lookup(addr, ask.flow(), steps);
    Some(Got {
        version: answer.version,
        inet: None,
        inet6: answer.nexthop,
    })
}

impl<A: Naming<32>, B: Naming<128>> Followers<A, B> {
    /// Answers a get. `None` where the control has ended without the note that it waits for.
    fn answer<L: Ledger, R: Wait>(
        &mut self,
        rt: &R,
        post: &Post<A, B>,
        ask: &Ask,
        steps: &mut Steps<L>,
    ) -> Option<Got>
        requires { (self.old.inet.0.lookups < 16777216) × (self.old.inet6.0.lookups < 16777216) }
        ensures served { IfSome result (λ got. IsServed targets_max (of_plans A.plan B.plan) ask.now (λ h. by_family h self.old.inet.0 self.old.inet6.0) got (λ h. by_family h self.new.inet.0 self.new.inet6.0)) }
        ensures few { IfSome result (λ got. (self.new.inet.0.lookups ≤ self.old.inet.0.lookups + 1) × (self.new.inet6.0.lookups ≤ self.old.inet6.0.lookups + 1)) }
    {
        match ask.address() {
            Address::Inet(addr) => answer_inet(rt, post, ask, addr, steps, &mut self.inet),
            Address::Inet6(addr) => answer_inet6(rt, post, ask, addr, steps, &mut self.inet6),
        }
    }
}

/// Makes the gets `number`, `number + workers` and so on, each once the note of its sync line is
/// taken in. Where the control ends without such a note, memory was wanting.
pub(crate) fn work_counted<A: Naming<32>, B: Naming<128>, G: Gate, L: Ledger, R: Wait>(
    rt: &R,
    alloc: Global,
    asks: &[Ask],
    workers: usize,
    post: &Post<A, B>,
    gate: &G,
    job: Job<A, B>,
    steps: &mut Steps<L>,
) -> Result<Done<A, B>, OutOfMemory>
    requires sizes { (length asks.now ≤ 1048576) × (job.number < workers) × (workers ≤ 64) }
    requires new { IsNew job.number job.inet × IsNew job.number job.inet6 }
    ensures { IfOk result (λ done. IsDone targets_max (of_plans A.plan B.plan) asks.now workers job.number done.gots.items done.inet done.inet6) }
{
    let Job {
        number,
        inet,
        inet6,
    } = job;
    let mut passes = Followers {
        inet: Follower::new(inet),
        inet6: Follower::new(inet6),
    };
    let mut gots = Vec::new(alloc);
    let mut j = number;
    while j < asks.len() {
        gate.before(j as u32);
        let Some(got) = passes.answer(rt, post, &asks[j], steps) else {
            return Err(OutOfMemory);
        };
        gate.after(j as u32);
        gots.push(got)?;
        j += workers;
    }
    let Followers { inet, inet6 } = passes;
    Ok(Done {
        inet: inet.into_pass(),
        inet6: inet6.into_pass(),
        gots,
    })
}
