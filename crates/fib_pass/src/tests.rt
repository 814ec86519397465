//! Passes that hold a version up, and exact totals.
ghost use Rattle.std.specs.Prelude.{◌≡◌, ◌+◌, ◌<◌, All, length};
ghost use Rattle.prefix_width.specs.Limits.{AreBanks, AreTargets};
ghost use Rattle.fib_sync.specs.Lawful.{IsLawful};
ghost use Rattle.fib_sync.specs.VersionNames.{fresh_at, names_at};

use crate::test_fibs::{
    address, closed_two, handed_back, look_up, publish_next, ready_next, started_two, turns, via,
};
use crate::{
    FibNote, Inside, Packets, Pass, PassEnd, Publisher, Ready, StartError, Totals, fib_start,
    law_answers_have_numbers, law_fresh_pairs_are_free, law_names_are_fit, law_pairs_are_numbers,
};
use fib_sync::Control;
use module_trait::Steps;
use std::alloc::Global;
use std::marker::Brand;
use std::process::Abort;
use std::sync::Arc;
use std::sync::ledger::{Blank, Ledger};

/// A try that pass 0, inside at version 0, holds up. What was ready comes back.
fn held_up<const K: u64, const LIVE: u32>(
    rt: &impl Abort,
    publisher: &mut Publisher<32, K, LIVE>,
    ready: Ready<32, K, LIVE>,
) -> Ready<32, K, LIVE>
    requires count { length ready.values ≡ publisher.old.own.readers }
    requires lawful { All (λ image. IsLawful LIVE publisher.old.key (names_at K LIVE publisher.old.key (publisher.old.own.version + 1)) (publisher.old.own.version + 1) image) ready.values }
    requires fresh { ready.fresh ≡ fresh_at K LIVE publisher.old.key (publisher.old.own.version + 1) }
    ensures ready { result ≡ ready.entry }
    ensures key { publisher.new.key ≡ publisher.old.key }
    ensures version { publisher.new.own.version ≡ publisher.old.own.version }
    ensures readers { publisher.new.own.readers ≡ publisher.old.own.readers }
{
    match publisher.try_publish(ready) {
        Ok(_) => panic!(rt; "nothing holds it up"),
        Err(again) => {
            assert_eq!(rt; (again.reader, again.stands), (0, 1));
            again.ready
        }
    }
}

/// A pass inside at version 0 holds the version up that takes its bank, at each of so many tries,
/// until it leaves.
fn hold_up<const K: u64, const LIVE: u32, L: Ledger>(
    rt: &impl Abort,
    alloc: Global,
    tries: u32,
    steps: &mut Steps<L>,
)
    requires banks { AreBanks K }
    requires targets { AreTargets LIVE }
{
    let plan = turns(rt, alloc, 16, 9);
    let (mut control, mut publisher, pass, mut other) = started_two::<K, LIVE>(rt, alloc, &plan);
    let mut inside = pass.enter();
    for version in 1..K {
        assert_eq!(rt;
            publish_next(rt, alloc, &mut control, &mut publisher),
            version
        );
    }
    let mut ready = ready_next(rt, alloc, &mut control, &publisher);
    for _try in 0..tries {
        ready = held_up(rt, &mut publisher, ready);
    }
    // The other pass answers at the version before, and the one inside at version 0.
    assert_eq!(rt;
        look_up(rt, &mut other, 0, steps),
        (K - 1, Some(via(rt, 1)))
    );
    let found = inside
        .lookup(address(rt, 0), 0, steps)
        .expect(rt, "a lookup");
    assert_eq!(rt;
        (inside.version(), found.version, found.nexthop),
        (0, 0, None)
    );
    let mut pass = inside.leave();
    assert!(rt; publisher.try_publish(ready).is_ok());
    assert_eq!(rt; publisher.version(), K);
    let host = K as u16;
    assert_eq!(rt;
        look_up(rt, &mut pass, host - 1, steps),
        (K, Some(via(rt, host)))
    );
}

/// With 2, 4 and 8 banks.
fn hold_up_each<L: Ledger>(rt: &impl Abort, alloc: Global, tries: u32, blank: Blank)
    requires name { blank.name ≡ L.name }
    requires parts { blank.parts ≡ L.parts }
    requires some { 0 < blank.parts }
{
    let mut steps = Steps::<L>::new(alloc, blank).expect(rt, "memory");
    hold_up::<2, 2_047, L>(rt, alloc, tries, &mut steps);
    hold_up::<4, 2_047, L>(rt, alloc, tries, &mut steps);
    hold_up::<8, 4_095, L>(rt, alloc, tries, &mut steps);
}

#[test]
fn a_pass_inside_holds_the_version_up_that_takes_its_bank(rt: HostRuntime) {
    hold_up_each::<Brand>(&rt, rt.alloc(), 1, Blank::new(1));
}

#[test]
fn a_pass_that_stays_inside_holds_it_up_at_each_of_1_000_tries(rt: HostRuntime) {
    hold_up_each::<Brand>(&rt, rt.alloc(), 1_000, Blank::new(1));
}

/// A pass that has made so many lookups, and has seen this version.
fn ended(lookups: u64, seen: u64) -> PassEnd {
    PassEnd { lookups, seen }
}

/// So many packets by a host of 192.0.0.0/16.
fn packets(rt: &impl Abort, host: u16, count: u64) -> Packets<32> {
    let nexthop = via(rt, host);
    Packets { nexthop, count }
}

/// Looks each of five versions of one route up, and answers what the fib comes to.
fn look_at_five<const K: u64, const LIVE: u32, L: Ledger>(
    rt: &impl Abort,
    alloc: Global,
    steps: &mut Steps<L>,
) -> Totals<32>
    requires banks { AreBanks K }
    requires targets { AreTargets LIVE }
{
    let plan = turns(rt, alloc, 1, 5);
    let (mut control, mut publisher, mut pass, other) = started_two::<K, LIVE>(rt, alloc, &plan);
    for host in 1..6u16 {
        let version = publish_next(rt, alloc, &mut control, &mut publisher);
        let found = look_up(rt, &mut pass, 7, steps);
        assert_eq!(rt; found, (version, Some(via(rt, host))));
    }
    closed_two(rt, alloc, publisher, pass, other)
}

/// The first pass has made one packet by each of five nexthops.
fn check_five(rt: &impl Abort, totals: &Totals<32>) {
    assert_eq!(rt; (totals.version(), totals.lookups()), (5, 5));
    assert_eq!(rt; totals.passes(), [ended(5, 5), ended(0, 0)].as_slice());
    assert_eq!(rt; totals.packets().len(), 5);
    for (found, host) in totals.packets().iter().zip(1u16..6) {
        assert_eq!(rt; *found, packets(rt, host, 1));
    }
}

/// With 2, 4 and 8 banks.
fn look_at_five_each<L: Ledger>(rt: &impl Abort, alloc: Global, blank: Blank)
    requires name { blank.name ≡ L.name }
    requires parts { blank.parts ≡ L.parts }
    requires some { 0 < blank.parts }
{
    let mut steps = Steps::<L>::new(alloc, blank).expect(rt, "memory");
    check_five(rt, &look_at_five::<2, 2_047, L>(rt, alloc, &mut steps));
    check_five(rt, &look_at_five::<4, 2_047, L>(rt, alloc, &mut steps));
    check_five(rt, &look_at_five::<8, 4_095, L>(rt, alloc, &mut steps));
}

#[test]
fn five_changes_have_a_packet_each(rt: HostRuntime) {
    look_at_five_each::<Brand>(&rt, rt.alloc(), Blank::new(1));
}

/// A fib of two passes that is closed with one of them, and then with both.
fn close_twice<L: Ledger>(rt: &impl Abort, alloc: Global, blank: Blank) -> Totals<32>
    requires name { blank.name ≡ L.name }
    requires parts { blank.parts ≡ L.parts }
    requires some { 0 < blank.parts }
{
    let mut steps = Steps::<L>::new(alloc, blank).expect(rt, "memory");
    let plan = turns(rt, alloc, 2, 2);
    let (mut control, mut publisher, first, mut second) = started_two::<4, 2_047>(rt, alloc, &plan);
    publish_next(rt, alloc, &mut control, &mut publisher);
    assert_eq!(rt;
        look_up(rt, &mut second, 1, &mut steps),
        (1, Some(via(rt, 1)))
    );
    publish_next(rt, alloc, &mut control, &mut publisher);
    let (publisher, mut first) = handed_back(rt, alloc, publisher, first);
    assert_eq!(rt;
        (publisher.version(), first.lookups(), first.seen()),
        (2, 0, 0)
    );
    assert_eq!(rt;
        look_up(rt, &mut first, 1, &mut steps),
        (2, Some(via(rt, 2)))
    );
    assert_eq!(rt;
        look_up(rt, &mut first, 0, &mut steps),
        (2, Some(via(rt, 1)))
    );
    closed_two(rt, alloc, publisher, first, second)
}

#[test]
fn a_fib_is_closed_with_all_its_passes(rt: HostRuntime) {
    let totals = close_twice::<Brand>(&rt, rt.alloc(), Blank::new(1));
    assert_eq!(rt; (totals.version(), totals.lookups()), (2, 3));
    assert_eq!(rt; totals.passes(), [ended(2, 2), ended(1, 1)].as_slice());
    assert_eq!(rt;
        totals.packets(),
        [packets(&rt, 1, 2), packets(&rt, 2, 1)].as_slice()
    );
}

/// A pass learns of a version by a note, and of another by a look.
fn learn_and_look(rt: &impl Abort, alloc: Global) {
    let plan = turns(rt, alloc, 2, 2);
    let (mut control, mut publisher, mut pass, _) = started_two::<4, 2_047>(rt, alloc, &plan);
    publish_next(rt, alloc, &mut control, &mut publisher);
    let note = publisher.tell().expect(rt, "memory");
    assert_eq!(rt; (note.version(), pass.seen()), (1, 0));
    pass.learn(note);
    assert_eq!(rt; pass.seen(), 1);
    publish_next(rt, alloc, &mut control, &mut publisher);
    assert_eq!(rt; pass.seen(), 1);
    assert_eq!(rt; pass.look(), 2);
    assert_eq!(rt; (pass.seen(), pass.lookups()), (2, 0));
}

#[test]
fn a_pass_sees_what_it_learns_and_looks_at(rt: HostRuntime) {
    learn_and_look(&rt, rt.alloc());
}

/// Why a fib of so many passes doesn't start.
fn start_error(rt: &impl Abort, alloc: Global, passes: u8) -> Option<StartError> {
    let plan = turns(rt, alloc, 1, 1);
    let commands = Arc::try_clone(&plan).expect(rt, "memory");
    let (_control, first) = Control::<32, 4, 2_047>::begin(alloc, commands).expect(rt, "memory");
    match fib_start::<32, 4, 2_047>(alloc, &plan, &first, passes) {
        Ok((publisher, list)) => {
            assert_eq!(rt; (publisher.version(), list.len()), (0, usize::from(passes)));
            None
        }
        Err(error) => Some(error),
    }
}

#[test]
fn a_fib_has_1_to_64_passes(rt: HostRuntime) {
    for (passes, right) in [(0, false), (1, true), (64, true), (65, false), (255, false)] {
        let wanted = if right {
            None
        } else {
            Some(StartError::BadCount)
        };
        assert_eq!(rt; start_error(&rt, rt.alloc(), passes), wanted, "{passes}");
    }
}

/// A value of such a type can go to another thread.
fn can_go<T: Send>() {}

#[test]
fn passes_and_what_is_published_can_go_to_other_threads() {
    can_go::<Pass<32, 4, 2_047>>();
    can_go::<Inside<32, 4, 2_047>>();
    can_go::<Publisher<32, 4, 2_047>>();
    can_go::<Ready<32, 4, 2_047>>();
    can_go::<FibNote<32, 4, 2_047>>();
}

#[test]
fn the_laws_are_called() {
    law_names_are_fit::<32>();
    law_fresh_pairs_are_free::<32>();
    law_pairs_are_numbers::<32>();
    law_answers_have_numbers::<32>();
}
