//! Images beside the scan of their version's rows.
ghost use Rattle.std.specs.Prelude.{◌≡◌, ◌<◌, ◌≤◌};
ghost use Rattle.prefix_width.specs.Limits.{AreBanks, AreTargets};

use crate::{Advance, Control, law_compiled_slots_are_lawful, law_lawful_images_answer, lookup};
use engine_set::Image;
use module_trait::Steps;
use nhgrp_slots::Target;
use prefix_width::{Addr, Kind, Nexthop, Path, Prefix, Setting};
use rib_store::{Command, Plan};
use std::alloc::Global;
use std::marker::Brand;
use std::process::Abort;
use std::sync::Arc;
use std::sync::ledger::{Blank, Ledger};
use std::test::Fail;
use std::thread::Threads;

/// 10.0.0.0 and 192.0.0.0, the first 32 bits of an address.
const TEN: u128 = 0x0a00_0000;

const NET: u128 = 0xc000_0000;

/// What a plan asks, by numbers.
#[derive(Clone, Copy)]
enum Step {
    /// An add of a prefix by a host of 192.0.0.0/16.
    Add(u128, u8, u128),
    /// A change of 10.0.0.0/8 to a host.
    Change(u128),
    Delete(u128, u8),
    Algo(Setting),
    Sync,
    Flush,
}

/// The thread that makes a version, or threads.
#[derive(Clone, Copy)]
enum Way {
    Serial,
    Parallel,
}

/// What the image of a version shows.
#[derive(Clone, Copy, Debug, PartialEq, Eq)]
struct Shown {
    commands: u32,
    kind: Kind,
    routes: u32,
    /// The first of its fresh nexthops.
    fresh: Option<(u16, u32)>,
}

/// The address with these first 32 bits.
fn addr<const W: u32>(value: u128) -> Option<Addr<W>>
    requires { (1 ≤ W) × (W ≤ 128) }
{
    Addr::new(value << W.saturating_sub(32))
}

fn prefix<const W: u32>(value: u128, len: u8) -> Option<Prefix<W>>
    requires { (1 ≤ W) × (W ≤ 128) }
{
    Prefix::masked(addr(value)?, len)
}

/// The path by the host of 192.0.0.0/16.
fn path<const W: u32>(host: u128) -> Option<Path<W>>
    requires { (1 ≤ W) × (W ≤ 128) }
{
    Path::new(Nexthop::via(addr(NET | host)?, 0, 0), 1)
}

fn command_of<const W: u32>(step: Step) -> Option<Command<W>>
    requires { (1 ≤ W) × (W ≤ 128) }
{
    match step {
        Step::Add(base, len, host) => Some(Command::Add {
            prefix: prefix(base, len)?,
            path: path(host)?,
        }),
        Step::Change(host) => Some(Command::Change {
            prefix: prefix(TEN, 8)?,
            path: path(host)?,
        }),
        Step::Delete(base, len) => Some(Command::Delete {
            prefix: prefix(base, len)?,
            gateway: None,
        }),
        Step::Algo(setting) => Some(Command::Algo { setting }),
        Step::Sync => Some(Command::Sync),
        Step::Flush => Some(Command::Flush),
    }
}

/// The plan of these steps.
fn plan_of<const W: u32>(alloc: Global, steps: &[Step]) -> Result<Arc<Plan<W>>, Fail>
    requires { (1 ≤ W) × (W ≤ 128) }
{
    let mut plan = Plan::new(alloc);
    for step in steps {
        let command = command_of(*step).ok_or("no command")?;
        plan.push(command)?;
    }
    Ok(Arc::new(alloc, plan)?)
}

/// Whether there was a next version, whose image is now the last one.
fn goes_on<R: Threads + Sync, const W: u32, const K: u64, const LIVE: u32>(
    rt: &R,
    alloc: Global,
    control: &mut Control<W, K, LIVE>,
    way: Way,
) -> Result<bool, Fail> {
    let advance = match way {
        Way::Serial => control.advance(alloc)?,
        Way::Parallel => control.advance_par(rt, alloc)?,
    };
    match advance {
        Advance::Next(_) => Ok(true),
        Advance::Finished => Ok(false),
    }
}

/// The nexthop that the last image gives.
fn found<L: Ledger, const W: u32, const K: u64, const LIVE: u32>(
    control: &Control<W, K, LIVE>,
    addr: Addr<W>,
    flow: u32,
    steps: &mut Steps<L>,
) -> Option<Nexthop<W>> {
    let index = lookup(control.image(), addr, flow, steps)?;
    match control.indexes().target_of(index) {
        Some(Target::One(nexthop)) => Some(*nexthop),
        _ => None,
    }
}

/// Compares the last image with a scan of the rows of its table, at a few addresses and flows.
fn compare<L: Ledger, const W: u32, const K: u64, const LIVE: u32>(
    rt: &impl Abort,
    alloc: Global,
    control: &Control<W, K, LIVE>,
    steps: &mut Steps<L>,
) -> Result<(), Fail>
    requires { (1 ≤ W) × (W ≤ 128) }
{
    let rows = control.rib().rows(alloc)?;
    for value in [
        0,
        TEN,
        TEN + 0x0000_7f01,
        TEN + 0x0100_0000,
        TEN + 0x0101_0203,
        NET,
        0xffff_ffff,
    ] {
        let addr = addr(value).ok_or("no address")?;
        for flow in [0, 1, 7] {
            let nexthop = found(control, addr, flow, steps);
            assert_eq!(rt; nexthop, rows.answer(&addr, flow), "at {value} flow {flow}");
        }
    }
    Ok(())
}

/// What an image shows.
fn shown_by<const W: u32>(image: &Image<W>) -> Shown {
    Shown {
        commands: image.count(),
        kind: image.kind(),
        routes: image.routes(),
        fresh: image.fresh().first().copied(),
    }
}

/// Runs a control to its end, compares each image, and gives what each shows.
fn run_control<R: Abort + Threads + Sync, L: Ledger, const W: u32, const K: u64, const LIVE: u32>(
    rt: &R,
    alloc: Global,
    control: &mut Control<W, K, LIVE>,
    way: Way,
    steps: &mut Steps<L>,
) -> Result<Vec<Shown>, Fail>
    requires { (1 ≤ W) × (W ≤ 128) }
{
    let mut shown = Vec::new(alloc);
    let commands = control.plan().len();
    for _ in 0..=commands {
        if !goes_on(rt, alloc, control, way)? {
            break;
        }
        compare(rt, alloc, control, steps)?;
        shown.push(shown_by(control.image()))?;
    }
    assert_eq!(rt; control.commands(), commands);
    assert_eq!(rt; control.replies().len(), commands as usize);
    assert_eq!(rt; control.image().version(), shown.len() as u64);
    Ok(shown)
}

/// Runs the plan of these steps to its end.
fn run_plan<R: Abort + Threads + Sync, L: Ledger, const W: u32, const K: u64, const LIVE: u32>(
    rt: &R,
    alloc: Global,
    plan: &[Step],
    way: Way,
    steps: &mut Steps<L>,
) -> Result<Vec<Shown>, Fail>
    requires width { (1 ≤ W) × (W ≤ 128) }
    requires banks { AreBanks K }
    requires targets { AreTargets LIVE }
{
    let plan = plan_of(alloc, plan)?;
    let (mut control, first) = Control::<W, K, LIVE>::begin(alloc, plan)?;
    assert_eq!(rt; first.fresh().len(), 0);
    run_control(rt, alloc, &mut control, way, steps)
}

// Each nexthop is fresh; an index comes again once as many versions as there are banks were without
// it.
fn change_one_route<R: Abort + Threads + Sync, L: Ledger>(
    rt: &R,
    alloc: Global,
    blank: Blank,
) -> Result<(), Fail>
    requires name { blank.name ≡ L.name }
    requires parts { blank.parts ≡ L.parts }
    requires some { 0 < blank.parts }
{
    let mut steps = Steps::<L>::new(alloc, blank)?;
    let plan = [
        Step::Add(TEN, 8, 1),
        Step::Change(2),
        Step::Change(3),
        Step::Change(4),
        Step::Change(5),
    ];
    let four = run_plan::<R, L, 32, 4, 2_047>(rt, alloc, &plan, Way::Serial, &mut steps)?;
    let eight = run_plan::<R, L, 128, 8, 4_095>(rt, alloc, &plan, Way::Serial, &mut steps)?;
    for (number, index, index_of_eight) in [(1, 1, 1), (2, 2, 2), (3, 3, 3), (4, 4, 4), (5, 1, 5)] {
        let shown = Shown {
            commands: number,
            kind: Kind::Range,
            routes: 1,
            fresh: Some((index, number)),
        };
        assert_eq!(rt; four.get(number as usize - 1), Some(&shown));
        let fresh = Some((index_of_eight, number));
        assert_eq!(rt;
            eight.get(number as usize - 1),
            Some(&Shown { fresh, ..shown })
        );
    }
    Ok(())
}

#[test]
fn a_route_that_is_changed_again_and_again(rt: HostRuntime) -> Result<(), Fail> {
    change_one_route::<HostRuntime, Brand>(&rt, rt.alloc(), Blank::new(1))
}

// Two paths of one prefix, then each module in turn; a flush at the end. An algo makes a version
// where its module differs.
const MODULES_IN_TURN: [Step; 12] = [
    Step::Add(TEN, 8, 1),
    Step::Add(TEN + 0x0101_0000, 16, 2),
    Step::Add(TEN, 8, 3),
    Step::Algo(Setting::Fixed(Kind::Radix)),
    Step::Add(TEN + 0x0100_0000, 9, 2),
    Step::Delete(TEN, 8),
    Step::Algo(Setting::Fixed(Kind::Dxr)),
    Step::Add(TEN, 8, 4),
    Step::Algo(Setting::Fixed(Kind::Scan)),
    Step::Sync,
    Step::Algo(Setting::Auto),
    Step::Flush,
];

/// The module and the number of routes of each of its versions.
const VERSIONS: [(Kind, u32); 11] = [
    (Kind::Range, 1),
    (Kind::Range, 2),
    (Kind::Range, 2),
    (Kind::Radix, 2),
    (Kind::Radix, 3),
    (Kind::Radix, 2),
    (Kind::Dxr, 2),
    (Kind::Dxr, 3),
    (Kind::Scan, 3),
    (Kind::Range, 3),
    (Kind::Range, 0),
];

fn take_each_module<R: Abort + Threads + Sync, L: Ledger>(
    rt: &R,
    alloc: Global,
    blank: Blank,
) -> Result<(), Fail>
    requires name { blank.name ≡ L.name }
    requires parts { blank.parts ≡ L.parts }
    requires some { 0 < blank.parts }
{
    let mut steps = Steps::<L>::new(alloc, blank)?;
    for way in [Way::Serial, Way::Parallel] {
        let shown = run_plan::<R, L, 32, 4, 2_047>(rt, alloc, &MODULES_IN_TURN, way, &mut steps)?;
        assert_eq!(rt; shown.len(), VERSIONS.len());
        for place in 0..VERSIONS.len() {
            let version = shown
                .get(place)
                .map(|shown: &Shown| (shown.kind, shown.routes));
            assert_eq!(rt; version, Some(VERSIONS[place]), "version {place} and 1");
        }
    }
    Ok(())
}

#[test]
fn each_module_in_turn(rt: HostRuntime) -> Result<(), Fail> {
    take_each_module::<HostRuntime, Brand>(&rt, rt.alloc(), Blank::new(1))
}

/// Adds or deletes 10.0.0.0/24 and so on, and lets the module be chosen.
fn push_growth(steps: &mut Vec<Step>, from: u32, to: u32) -> Result<(), Fail> {
    for number in from..to {
        let base = TEN + u128::from(number) * 256;
        steps.push(Step::Add(base, 24, u128::from(number % 5)))?;
    }
    for number in to..from {
        let base = TEN + u128::from(number) * 256;
        steps.push(Step::Delete(base, 24))?;
    }
    Ok(steps.push(Step::Algo(Setting::Auto))?)
}

/// The module of the last version with so many routes.
fn kind_at(shown: &[Shown], routes: u32) -> Option<Kind> {
    let mut kind = None;
    for version in shown {
        if version.routes == routes {
            kind = Some(version.kind);
        }
    }
    kind
}

// By hand from the preferences of the modules: range gives way at 252 routes and comes again at 175,
// and where there is DXR it is best from 1,000 routes on and gives way below.
const GROWTH: [(u32, Kind, Kind); 8] = [
    (25, Kind::Range, Kind::Range),
    (251, Kind::Range, Kind::Range),
    (252, Kind::Radix, Kind::Radix),
    (998, Kind::Radix, Kind::Radix),
    (1_000, Kind::Dxr, Kind::Radix),
    (999, Kind::Radix, Kind::Radix),
    (176, Kind::Radix, Kind::Radix),
    (175, Kind::Range, Kind::Range),
];

fn grow<R: Abort + Threads + Sync, L: Ledger>(
    rt: &R,
    alloc: Global,
    blank: Blank,
) -> Result<(), Fail>
    requires name { blank.name ≡ L.name }
    requires parts { blank.parts ≡ L.parts }
    requires some { 0 < blank.parts }
{
    let mut steps = Steps::<L>::new(alloc, blank)?;
    let mut plan = Vec::new(alloc);
    let mut from = 0;
    for (routes, _, _) in &GROWTH {
        push_growth(&mut plan, from, *routes)?;
        from = *routes;
    }
    let inet = run_plan::<R, L, 32, 4, 2_047>(rt, alloc, &plan, Way::Parallel, &mut steps)?;
    let inet6 = run_plan::<R, L, 128, 4, 2_047>(rt, alloc, &plan, Way::Parallel, &mut steps)?;
    for (routes, kind, kind_of_inet6) in &GROWTH {
        assert_eq!(rt; kind_at(&inet, *routes), Some(*kind), "{routes} routes");
        assert_eq!(rt;
            kind_at(&inet6, *routes),
            Some(*kind_of_inet6),
            "{routes} routes"
        );
    }
    Ok(())
}

#[test]
fn growth_through_the_modules(rt: HostRuntime) -> Result<(), Fail> {
    grow::<HostRuntime, Brand>(&rt, rt.alloc(), Blank::new(1))
}

#[test]
fn the_laws_are_called() {
    law_lawful_images_answer::<32>();
    law_compiled_slots_are_lawful::<32>();
}
