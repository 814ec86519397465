//! Passes in threads of their own, beside a publisher that publishes on.
ghost use Rattle.std.specs.Prelude.{◌≡◌, ◌+◌, ◌<◌, All, IfOk, length};
ghost use denote.Param.Send.{IsSync};
ghost use Rattle.atomic_table.specs.Seated.{TableId};
ghost use Rattle.fib_sync.specs.Lawful.{IsLawful};
ghost use Rattle.fib_sync.specs.VersionNames.{fresh_at, names_at};

use crate::test_fibs::{address, closed, ready_next, started, turns};
use crate::{Answer, OutOfMemory, Pass, Publisher, Ready, Totals};
use fib_sync::{Advance, Control};
use module_trait::Steps;
use prefix_width::{Addr, Nexthop};
use rib_store::Plan;
use std::alloc::Global;
use std::collections::BTreeMap;
use std::marker::Brand;
use std::process::Abort;
use std::sync::ledger::{Blank, Ledger};
use std::sync::{Arc, Wait};
use std::thread;
use std::thread::{Threads, join, map_vec};

/// How many versions are published.
const VERSIONS: u16 = 2_000;

/// How many lookups a thread makes at most.
const LOOKUPS: u32 = 100_000;

/// A lookup that was answered.
#[derive(Clone, Copy)]
struct Found {
    addr: Addr<32>,
    answer: Answer<32>,
}

/// A pass, and what it has found.
#[derive(Drop)]
struct Looked {
    pass: Pass<32, 4, 2_047>,
    found: Vec<Found>,
}

/// Looks addresses up in turn, until the answer is of the last version.
fn look_up_on<L: Ledger>(
    rt: &impl Abort,
    alloc: Global,
    mut pass: Pass<32, 4, 2_047>,
    steps: &mut Steps<L>,
) -> Looked
    ensures { result.pass.seat.table ≡ pass.seat.table }
{
    let mut found = Vec::new(alloc);
    for lookup in 0..LOOKUPS {
        // Places 0 to 3 have routes, and 256 has none.
        let addr = address(rt, [0, 1, 2, 3, 9, 256][lookup as usize % 6]);
        let answer = pass.lookup(addr, 0, steps).expect(rt, "a lookup");
        let last = answer.version == u64::from(VERSIONS);
        found.push(Found { addr, answer }).expect(rt, "memory");
        if last {
            break;
        }
        thread::yield_now();
    }
    Looked { pass, found }
}

/// The same with the counter of a ledger, which the blank is for.
fn look_up_with<L: Ledger>(
    rt: &impl Abort,
    alloc: Global,
    pass: Pass<32, 4, 2_047>,
    blank: Blank,
) -> Looked
    requires name { blank.name ≡ L.name }
    requires parts { blank.parts ≡ L.parts }
    requires some { 0 < blank.parts }
    ensures { result.pass.seat.table ≡ pass.seat.table }
{
    let mut steps = Steps::<L>::new(alloc, blank).expect(rt, "memory");
    look_up_on(rt, alloc, pass, &mut steps)
}

/// The same with a counter of its own.
fn look_up_apart(rt: &impl Abort, alloc: Global, pass: Pass<32, 4, 2_047>) -> Looked
    ensures { result.pass.seat.table ≡ pass.seat.table }
{
    look_up_with::<Brand>(rt, alloc, pass, Blank::new(1))
}

/// All passes, each in a thread of its own where one can be made.
fn look_up_all<R: Threads + Abort + Sync>(
    rt: &R,
    alloc: Global,
    passes: Vec<Pass<32, 4, 2_047>>,
) -> Result<Vec<Looked>, OutOfMemory>
    ensures { (table : TableId) → All (λ p. p.seat.table ≡ table) passes.items → IfOk result (λ v. All (λ l. l.pass.seat.table ≡ table) v.items) }
{
    map_vec(
        rt,
        passes,
        &|pass: Pass<32, 4, 2_047>| -> Looked
            ensures { result.pass.seat.table ≡ pass.seat.table }
        { look_up_apart(rt, alloc, pass) },
    )
}

/// Publishes what is ready, however often a pass holds it up.
fn publish<R: Wait>(rt: &R, publisher: &mut Publisher<32, 4, 2_047>, ready: Ready<32, 4, 2_047>)
    requires count { length ready.values ≡ publisher.old.own.readers }
    requires lawful { All (λ image. IsLawful 2047 publisher.old.key (names_at 4 2047 publisher.old.key (publisher.old.own.version + 1)) (publisher.old.own.version + 1) image) ready.values }
    requires fresh { ready.fresh ≡ fresh_at 4 2047 publisher.old.key (publisher.old.own.version + 1) }
    ensures key { (publisher.new.key ≡ publisher.old.key) × (publisher.new.table ≡ publisher.old.table) }
    ensures version { publisher.new.own.version ≡ publisher.old.own.version + 1 }
{
    let mut ready = ready;
    for _ in rt.forever() {
        match publisher.try_publish(ready) {
            Ok(_) => return,
            Err(again) => ready = again.ready,
        }
        thread::yield_now();
    }
    unreachable!()
}

/// Publishes all versions.
fn publish_all<R: Wait + Abort>(
    rt: &R,
    alloc: Global,
    mut control: Control<32, 4, 2_047>,
    mut publisher: Publisher<32, 4, 2_047>,
) -> Publisher<32, 4, 2_047>
    requires plan { publisher.key ≡ control.plan }
    requires version { publisher.own.version ≡ control.image.version }
    ensures { result.table ≡ publisher.table }
{
    for _version in 0..VERSIONS {
        let ready = ready_next(rt, alloc, &mut control, &publisher);
        publish(rt, &mut publisher, ready);
    }
    assert!(rt; matches!(control.advance(alloc), Ok(Advance::Finished)));
    publisher
}

/// What threads found, with their passes.
#[derive(Drop)]
struct Gathered {
    passes: Vec<Pass<32, 4, 2_047>>,
    found: Vec<Vec<Found>>,
}

/// Passes, and apart from them what each has found.
fn gather(rt: &impl Abort, alloc: Global, looked: Vec<Looked>) -> Gathered
    ensures { (table : TableId) → All (λ l. l.pass.seat.table ≡ table) looked.items → All (λ p. p.seat.table ≡ table) result.passes.items }
{
    let mut passes = Vec::new(alloc);
    let mut found = Vec::new(alloc);
    for one in looked {
        let Looked { pass, found: its } = one;
        passes.push(pass).expect(rt, "memory");
        found.push(its).expect(rt, "memory");
    }
    Gathered { passes, found }
}

/// Looks up in so many threads beside the publisher. Answers what each found, and the totals.
fn look_up_beside<R: Threads + Wait + Abort + Sync>(
    rt: &R,
    alloc: Global,
    plan: &Arc<Plan<32>>,
    threads: u8,
) -> (Vec<Vec<Found>>, Totals<32>) {
    let (control, publisher, passes) = started::<4, 2_047>(rt, alloc, plan, threads);
    let (looked, publisher) = join(
        rt,
        || -> Result<Vec<Looked>, OutOfMemory>
            requires { IsSync R.row }
            ensures { (table : TableId) → All (λ p. p.seat.table ≡ table) passes.items → IfOk result (λ v. All (λ l. l.pass.seat.table ≡ table) v.items) }
        { look_up_all(rt, alloc, passes) },
        || -> Publisher<32, 4, 2_047>
            requires { (publisher.key ≡ control.plan) × (publisher.own.version ≡ control.image.version) }
            ensures { result.table ≡ publisher.table }
        { publish_all(rt, alloc, control, publisher) },
    );
    let Gathered { passes, found } = gather(rt, alloc, looked.expect(rt, "memory"));
    let totals = closed(rt, alloc, publisher, passes);
    (found, totals)
}

/// Compares the answers of the control's version with a scan of its whole table, from a place on,
/// and answers the place behind them.
fn compare(
    rt: &impl Abort,
    alloc: Global,
    control: &Control<32, 4, 2_047>,
    found: &[Found],
    from: usize,
) -> usize {
    let rows = control.rib().rows(alloc).expect(rt, "memory");
    for place in from..found.len() {
        let Found { addr, answer } = found[place];
        if answer.version != control.image().version() {
            return place;
        }
        assert_eq!(rt;
            answer.nexthop,
            rows.answer(&addr, 0),
            "version {}",
            answer.version
        );
    }
    found.len()
}

/// Compares all that one thread found, in the order of the versions.
fn compare_all(rt: &impl Abort, alloc: Global, plan: &Arc<Plan<32>>, found: &[Found]) {
    let commands = Arc::try_clone(plan).expect(rt, "memory");
    let (mut control, _) = Control::<32, 4, 2_047>::begin(alloc, commands).expect(rt, "memory");
    let mut next = compare(rt, alloc, &control, found, 0);
    for _version in 0..VERSIONS {
        assert!(rt; matches!(control.advance(alloc), Ok(Advance::Next(_))));
        next = compare(rt, alloc, &control, found, next);
    }
    assert_eq!(rt; next, found.len());
}

/// Counts an answer at its nexthop.
fn count(rt: &impl Abort, counts: &mut BTreeMap<Nexthop<32>, u64>, nexthop: Option<Nexthop<32>>) {
    let Some(nexthop) = nexthop else { return };
    let before = counts.get(&nexthop).copied().unwrap_or(0);
    let more = counts.insert(nexthop, before.saturating_add(1));
    assert!(rt; more.is_ok());
}

/// How many answers there are of each nexthop.
fn counts_of(rt: &impl Abort, alloc: Global, found: &[Vec<Found>]) -> BTreeMap<Nexthop<32>, u64> {
    let mut counts = BTreeMap::new(alloc);
    for its in found {
        for one in its {
            count(rt, &mut counts, one.answer.nexthop);
        }
    }
    counts
}

/// The totals are those of all answers.
fn check_totals(rt: &impl Abort, alloc: Global, found: &[Vec<Found>], totals: &Totals<32>) {
    assert_eq!(rt; totals.version(), u64::from(VERSIONS));
    assert_eq!(rt; totals.passes().len(), found.len());
    let mut lookups = 0u64;
    for (its, end) in found.iter().zip(totals.passes().iter()) {
        assert_eq!(rt; end.lookups, its.len() as u64);
        lookups = lookups.saturating_add(end.lookups);
    }
    assert_eq!(rt; totals.lookups(), lookups);
    let counts = counts_of(rt, alloc, found);
    assert_eq!(rt; totals.packets().len(), counts.len());
    for (packets, (nexthop, count)) in totals.packets().iter().zip(counts.iter()) {
        assert_eq!(rt; (packets.nexthop, packets.count), (*nexthop, *count));
    }
}

#[test]
fn four_threads_look_up_beside_2_000_versions(rt: HostRuntime) {
    let alloc: Global = rt.alloc();
    let plan = turns(&rt, alloc, 4, VERSIONS);
    let (found, totals) = look_up_beside(&rt, alloc, &plan, 4);
    for its in &found {
        compare_all(&rt, alloc, &plan, its);
    }
    check_totals(&rt, alloc, &found, &totals);
}
