//! What the tests share: addresses, plans, fibs and small steps.
ghost use Rattle.std.specs.Prelude.{◌≡◌, ◌+◌, ◌<◌, ◌≤◌, All, length};
ghost use Rattle.prefix_width.specs.Limits.{AreBanks, AreTargets};
ghost use Rattle.fib_sync.specs.Lawful.{IsLawful};
ghost use Rattle.fib_sync.specs.VersionNames.{fresh_at, names_at};

use crate::{Answer, FibCloseError, Pass, Publisher, Ready, Totals, fib_start};
use fib_sync::{Advance, Control};
use module_trait::Steps;
use prefix_width::{Addr, Nexthop, Path, Prefix};
use rib_store::{Command, Plan};
use std::alloc::Global;
use std::process::Abort;
use std::sync::Arc;
use std::sync::ledger::Ledger;

/// 10.0.0.0 and 192.0.0.0.
const TEN: u128 = 0x0a00_0000;

const NET: u128 = 0xc000_0000;

/// The nexthop by a host of 192.0.0.0/16.
pub(crate) fn via(rt: &impl Abort, host: u16) -> Nexthop<32> {
    let gateway = Addr::new(NET + u128::from(host)).expect(rt, "an address");
    Nexthop::via(gateway, 0, 0)
}

/// The address 10.place.0.1, where the place is below 256.
pub(crate) fn address(rt: &impl Abort, place: u16) -> Addr<32> {
    Addr::new(TEN + u128::from(place) * 0x1_0000 + 1).expect(rt, "an address")
}

/// The prefix 10.place.0.0/16, or 10.0.0.0/8 at place 0.
fn block(rt: &impl Abort, place: u16) -> Prefix<32> {
    let len = if place == 0 { 8 } else { 16 };
    Prefix::masked(address(rt, place), len).expect(rt, "a prefix")
}

/// The path by a host of 192.0.0.0/16.
fn path(rt: &impl Abort, host: u16) -> Path<32> {
    Path::new(via(rt, host), 1).expect(rt, "a path")
}

/// An add of a place's prefix by a host.
fn add(rt: &impl Abort, place: u16, host: u16) -> Command<32> {
    Command::Add {
        prefix: block(rt, place),
        path: path(rt, host),
    }
}

/// A change of a place's route to a host.
fn change(rt: &impl Abort, place: u16, host: u16) -> Command<32> {
    Command::Change {
        prefix: block(rt, place),
        path: path(rt, host),
    }
}

/// A plan of one version for each host from 1 on, in turn: the host's place is its rest at so many
/// places, whose route it adds where there is none yet, and else changes.
pub(crate) fn turns(rt: &impl Abort, alloc: Global, places: u16, hosts: u16) -> Arc<Plan<32>> {
    let mut plan = Plan::new(alloc);
    for turn in 0..hosts {
        let place = turn % places.max(1);
        let host = turn.saturating_add(1);
        let command = if turn < places {
            add(rt, place, host)
        } else {
            change(rt, place, host)
        };
        plan.push(command).expect(rt, "room");
        plan.push(Command::Sync).expect(rt, "room");
    }
    Arc::new(alloc, plan).expect(rt, "memory")
}

/// A control of a plan, and a fib of so many passes at version 0.
pub(crate) fn started<const K: u64, const LIVE: u32>(
    rt: &impl Abort,
    alloc: Global,
    plan: &Arc<Plan<32>>,
    passes: u8,
) -> (
    Control<32, K, LIVE>,
    Publisher<32, K, LIVE>,
    Vec<Pass<32, K, LIVE>>,
)
    requires banks { AreBanks K }
    requires targets { AreTargets LIVE }
    ensures plan { result.1.key ≡ result.0.plan }
    ensures version { result.1.own.version ≡ result.0.image.version }
    ensures table { All (λ p. p.seat.table ≡ result.1.table) result.2.items }
{
    let commands = Arc::try_clone(plan).expect(rt, "memory");
    let (control, first) = Control::begin(alloc, commands).expect(rt, "memory");
    let (publisher, passes) = fib_start(alloc, plan, &first, passes).expect(rt, "a fib");
    (control, publisher, passes)
}

/// A control of a plan, and a fib of two passes at version 0.
pub(crate) fn started_two<const K: u64, const LIVE: u32>(
    rt: &impl Abort,
    alloc: Global,
    plan: &Arc<Plan<32>>,
) -> (
    Control<32, K, LIVE>,
    Publisher<32, K, LIVE>,
    Pass<32, K, LIVE>,
    Pass<32, K, LIVE>,
)
    requires banks { AreBanks K }
    requires targets { AreTargets LIVE }
    ensures plan { result.1.key ≡ result.0.plan }
    ensures version { result.1.own.version ≡ result.0.image.version }
    ensures first { result.2.seat.table ≡ result.1.table }
    ensures second { result.3.seat.table ≡ result.1.table }
{
    let (control, publisher, mut passes) = started(rt, alloc, plan, 2);
    let second = passes.pop().expect(rt, "a pass");
    let first = passes.pop().expect(rt, "a pass");
    (control, publisher, first, second)
}

/// The control's next image, ready to be published.
pub(crate) fn ready_next<const K: u64, const LIVE: u32>(
    rt: &impl Abort,
    alloc: Global,
    control: &mut Control<32, K, LIVE>,
    publisher: &Publisher<32, K, LIVE>,
) -> Ready<32, K, LIVE>
    requires plan { publisher.now.key ≡ control.old.plan }
    requires version { publisher.now.own.version ≡ control.old.image.version }
    ensures plan { control.new.plan ≡ control.old.plan }
    ensures version { control.new.image.version ≡ publisher.now.own.version + 1 }
    ensures count { length result.values ≡ publisher.now.own.readers }
    ensures lawful { All (λ image. IsLawful LIVE publisher.now.key (names_at K LIVE publisher.now.key (publisher.now.own.version + 1)) (publisher.now.own.version + 1) image) result.values }
    ensures fresh { result.fresh ≡ fresh_at K LIVE publisher.now.key (publisher.now.own.version + 1) }
{
    let Ok(Advance::Next(image)) = control.advance(alloc) else {
        panic!(rt; "no next version");
    };
    publisher.prepare(alloc, &image).expect(rt, "memory")
}

/// Publishes the control's next image.
pub(crate) fn publish_next<const K: u64, const LIVE: u32>(
    rt: &impl Abort,
    alloc: Global,
    control: &mut Control<32, K, LIVE>,
    publisher: &mut Publisher<32, K, LIVE>,
) -> u64
    requires plan { publisher.old.key ≡ control.old.plan }
    requires version { publisher.old.own.version ≡ control.old.image.version }
    ensures plan { publisher.new.key ≡ control.new.plan }
    ensures version { publisher.new.own.version ≡ control.new.image.version }
    ensures table { publisher.new.table ≡ publisher.old.table }
{
    let ready = ready_next(rt, alloc, control, publisher);
    match publisher.try_publish(ready) {
        Ok(version) => version,
        Err(_) => panic!(rt; "a pass holds it up"),
    }
}

/// A lookup of 10.place.0.1 by a pass: the version of the answer, and its nexthop.
pub(crate) fn look_up<const K: u64, const LIVE: u32, L: Ledger>(
    rt: &impl Abort,
    pass: &mut Pass<32, K, LIVE>,
    place: u16,
    steps: &mut Steps<L>,
) -> (u64, Option<Nexthop<32>>)
    ensures { pass.new.seat.table ≡ pass.old.seat.table }
{
    let addr = address(rt, place);
    let Answer { version, nexthop } = pass.lookup(addr, 0, steps).expect(rt, "a lookup");
    (version, nexthop)
}

/// What a fib comes to that is closed with all its passes.
pub(crate) fn closed<const K: u64, const LIVE: u32>(
    rt: &impl Abort,
    alloc: Global,
    publisher: Publisher<32, K, LIVE>,
    passes: Vec<Pass<32, K, LIVE>>,
) -> Totals<32>
    requires { All (λ p. p.seat.table ≡ publisher.table) passes.items }
{
    match publisher.close(alloc, passes) {
        Ok(totals) => totals,
        Err(_) => panic!(rt; "not closed"),
    }
}

/// What a fib comes to that is closed with its two passes.
pub(crate) fn closed_two<const K: u64, const LIVE: u32>(
    rt: &impl Abort,
    alloc: Global,
    publisher: Publisher<32, K, LIVE>,
    first: Pass<32, K, LIVE>,
    second: Pass<32, K, LIVE>,
) -> Totals<32>
    requires first { first.seat.table ≡ publisher.table }
    requires second { second.seat.table ≡ publisher.table }
{
    let mut passes = Vec::new(alloc);
    passes.push(first).expect(rt, "memory");
    passes.push(second).expect(rt, "memory");
    closed(rt, alloc, publisher, passes)
}

/// What comes back where a fib is to be closed with one pass, and others are missing.
pub(crate) fn handed_back<const K: u64, const LIVE: u32>(
    rt: &impl Abort,
    alloc: Global,
    publisher: Publisher<32, K, LIVE>,
    pass: Pass<32, K, LIVE>,
) -> (Publisher<32, K, LIVE>, Pass<32, K, LIVE>)
    requires { pass.seat.table ≡ publisher.table }
    ensures publisher { result.0 ≡ publisher.entry }
    ensures pass { result.1 ≡ pass.entry }
{
    let mut passes = Vec::new(alloc);
    passes.push(pass).expect(rt, "memory");
    let Err(FibCloseError::Missing { publisher, passes }) = publisher.close(alloc, passes) else {
        panic!(rt; "none is missing");
    };
    let mut passes = passes;
    assert_eq!(rt; passes.len(), 1);
    let pass = passes.pop().expect(rt, "a pass");
    (publisher, pass)
}
