//! What an image adds to the lookup of its engine.
ghost use Rattle.std.specs.Prelude.{◌≡◌, ◌<◌};

use crate::routes::{addresses_in, draw_prefixes};
use crate::sources::{Targets, engine_of, image_of};
use bench_kit::{Fault, cpu_time};
use engine_set::{Engine, Image};
use module_trait::Steps;
use prefix_width::{Addr, Kind, Prefix};
use std::alloc::Global;
use std::marker::Brand;
use std::sync::ledger::{Blank, Ledger};
use std::time::{CpuClock, Duration};

/// How often the addresses are looked up. The fastest round counts.
const ROUNDS: u32 = 100;

/// How many addresses there are, but for a scan, which reads each row.
const ADDRESSES: usize = 65_536;

/// How many rows a round of scans reads.
const SCANNED_ROWS: usize = 10_000_000;

/// What lookups in an engine and in images of the same routes take.
#[derive(Clone, Copy)]
pub(crate) struct Costs {
    /// How many routes there are.
    pub(crate) routes: usize,
    /// How many lookups a round has.
    pub(crate) lookups: usize,
    /// In the engine alone.
    pub(crate) engine: Fastest,
    /// In the image where each route goes by a nexthop.
    pub(crate) nexthops: Fastest,
    /// In the image where each route goes by a group.
    pub(crate) groups: Fastest,
}

/// The fastest of several rounds.
#[derive(Clone, Copy)]
pub(crate) struct Fastest {
    /// The processor time that it took.
    pub(crate) time: Duration,
    /// The sum of the indexes of all rounds, so that no lookup is left out.
    pub(crate) sum: u64,
}

/// Where a round looks up.
#[derive(Clone, Copy)]
enum Source<'a> {
    Engine(&'a Engine<32>),
    Image(&'a Image<32>),
}

/// Looks addresses up in an engine, and adds the indexes.
fn sum_found<L: Ledger>(engine: &Engine<32>, addrs: &[Addr<32>], steps: &mut Steps<L>) -> u64 {
    let mut sum = 0u64;
    for addr in addrs {
        let index = engine.find(addr, steps).unwrap_or(0);
        sum = sum.wrapping_add(u64::from(index));
    }
    sum
}

/// Looks addresses up in an image, each with another flow, and adds the indexes.
fn sum_resolved<L: Ledger>(image: &Image<32>, addrs: &[Addr<32>], steps: &mut Steps<L>) -> u64 {
    let mut sum = 0u64;
    let mut flow = 0u32;
    for addr in addrs {
        let index = image.resolve(*addr, flow, steps).unwrap_or(0);
        sum = sum.wrapping_add(u64::from(index));
        flow = flow.wrapping_add(1);
    }
    sum
}

/// The fastest of all rounds.
fn time_rounds<R: CpuClock, L: Ledger>(
    rt: &R,
    source: &Source,
    addrs: &[Addr<32>],
    steps: &mut Steps<L>,
) -> Result<Fastest, Fault> {
    let mut time = Duration::MAX;
    let mut sum = 0u64;
    for _ in 0..ROUNDS {
        let start = cpu_time(rt)?;
        let more = match source {
            Source::Engine(engine) => sum_found(engine, addrs, steps),
            Source::Image(image) => sum_resolved(image, addrs, steps),
        };
        time = time.min(cpu_time(rt)?.saturating_sub(start));
        sum = sum.wrapping_add(more);
    }
    Ok(Fastest { time, sum })
}

/// The fastest round in an engine.
fn time_engine<R: CpuClock, L: Ledger>(
    rt: &R,
    alloc: Global,
    kind: Kind,
    prefixes: &[Prefix<32>],
    addrs: &[Addr<32>],
    steps: &mut Steps<L>,
) -> Result<Fastest, Fault> {
    let engine = engine_of(alloc, kind, prefixes)?;
    time_rounds(rt, &Source::Engine(&engine), addrs, steps)
}

/// The fastest round in an image.
fn time_image<R: CpuClock, L: Ledger>(
    rt: &R,
    alloc: Global,
    kind: Kind,
    prefixes: &[Prefix<32>],
    targets: Targets,
    addrs: &[Addr<32>],
    steps: &mut Steps<L>,
) -> Result<Fastest, Fault> {
    let image = image_of(alloc, kind, prefixes, targets)?;
    time_rounds(rt, &Source::Image(&image), addrs, steps)
}

/// How many lookups a round has.
fn lookups_of(kind: Kind, routes: usize) -> usize {
    match kind {
        Kind::Scan => (SCANNED_ROWS / routes.max(1)).min(ADDRESSES),
        _ => ADDRESSES,
    }
}

/// What lookups take in a module at so many routes.
fn compare_counted<R: CpuClock, L: Ledger>(
    rt: &R,
    alloc: Global,
    kind: Kind,
    routes: u32,
    blank: Blank,
) -> Result<Costs, Fault>
    requires name { blank.name ≡ L.name }
    requires parts { blank.parts ≡ L.parts }
    requires some { 0 < blank.parts }
{
    let mut steps = Steps::<L>::new(alloc, blank)?;
    let prefixes = draw_prefixes(alloc, routes)?;
    let all = prefixes.as_slice();
    let addrs = addresses_in(alloc, all, lookups_of(kind, all.len()))?;
    let engine = time_engine(rt, alloc, kind, all, &addrs, &mut steps)?;
    let nexthops = time_image(rt, alloc, kind, all, Targets::Nexthops, &addrs, &mut steps)?;
    let groups = time_image(rt, alloc, kind, all, Targets::Groups, &addrs, &mut steps)?;
    Ok(Costs {
        routes: all.len(),
        lookups: addrs.len(),
        engine,
        nexthops,
        groups,
    })
}

/// What lookups take in a module at so many routes.
pub(crate) fn compare<R: CpuClock>(
    rt: &R,
    alloc: Global,
    kind: Kind,
    routes: u32,
) -> Result<Costs, Fault> {
    compare_counted::<R, Brand>(rt, alloc, kind, routes, Blank::new(1))
}
