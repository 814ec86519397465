//! Lookups that are compared with scans.
ghost use Rattle.std.specs.Prelude.{◌≡◌, ◌<◌, Ok, Err};
ghost use Rattle.fib_soak.specs.Rows.{rows_after};
ghost use Rattle.fib_soak.specs.Answers.{IsScanned};

use crate::OutOfMemory;
use crate::clock::rest;
use crate::course::Course;
use crate::fib::{Inside, Pass};
use crate::scan::Rows;
use bench_kit::{Draws, Fault};
use fib_pass::Answer;
use module_trait::Steps;
use prefix_width::Addr;
use std::alloc::Global;
use std::marker::Brand;
use std::rt::Clock;
use std::sync::atomic::{AtomicBool, AtomicU8, Ordering};
use std::sync::ledger::{Blank, Ledger};
use std::thread::{Threads, map_vec};
use std::time::Duration;

/// After how many lookups a pass rests.
const BATCH: u32 = 16;

/// No version is held yet.
pub(crate) const BEFORE: u8 = 0;

/// A version is held.
pub(crate) const HELD: u8 = 1;

/// It is held no more.
pub(crate) const AFTER: u8 = 2;

/// What is known of the table that passes look up in.
#[derive(Clone, Copy)]
pub(crate) struct Known<'a> {
    /// The course.
    pub(crate) course: &'a Course,
    /// The version that has its rows, before the first turn.
    pub(crate) base: u64,
    /// Whether a version is held.
    pub(crate) stage: &'a AtomicU8,
}

/// How a pass goes on.
#[derive(Clone, Copy, Debug, PartialEq, Eq)]
pub(crate) struct Way {
    /// How many lookups it makes at most.
    pub(crate) lookups: u32,
    /// How long it rests after [`BATCH`] of them.
    pub(crate) pause: Duration,
}

/// What a pass has found.
#[derive(Clone, Copy, Debug, PartialEq, Eq)]
pub(crate) struct Found {
    /// How many lookups were made, each of which was the scan's.
    pub(crate) lookups: u64,
    /// The version of the last one.
    pub(crate) newest: u64,
    /// The version of the last one beside a version that was held.
    pub(crate) beside: u64,
}

impl Found {
    /// Nothing is found yet, in a table at this version.
    pub(crate) fn none(version: u64) -> Found {
        Found {
            lookups: 0,
            newest: version,
            beside: version,
        }
    }

    /// What two passes have found.
    pub(crate) fn with(self, other: Found) -> Found {
        Found {
            lookups: self.lookups.saturating_add(other.lookups),
            newest: self.newest.max(other.newest),
            beside: self.beside.max(other.beside),
        }
    }
}

/// Compares an answer with the scan of its version's rows. The versions follow one another from
/// the base, a turn each.
fn compare(
    alloc: Global,
    known: Known,
    rows: &mut Rows,
    addr: &Addr<32>,
    flow: u32,
    answer: Answer<32>,
) -> Result<(), Fault>
    requires before { rows.old.rows.items ≡ rows_after known.course.now.prefixes.items rows.old.turns }
    ensures after { rows.new.rows.items ≡ rows_after known.entry.course.now.prefixes.items rows.new.turns }
    ensures same { result ≡ Ok tt → IsScanned known.entry.course.now.prefixes.items known.entry.base addr.now flow answer }
    ensures other { result ≡ Err Fault.Answer → IsScanned known.entry.course.now.prefixes.items known.entry.base addr.now flow answer → ⊥ }
{
    let Some(turns) = answer.version.checked_sub(known.base) else {
        return Err(Fault::Answer);
    };
    rows.follow(alloc, known.course, turns)?;
    if answer.nexthop == rows.scan(addr, flow) {
        Ok(())
    } else {
        Err(Fault::Answer)
    }
}

/// A lookup that is compared: its version. `None` where the pass has made all its lookups.
fn look_up<L: Ledger>(
    alloc: Global,
    pass: &mut Pass,
    known: Known,
    rows: &mut Rows,
    draws: &mut Draws,
    steps: &mut Steps<L>,
) -> Result<Option<u64>, Fault>
    requires { rows.old.rows.items ≡ rows_after known.course.now.prefixes.items rows.old.turns }
    ensures { rows.new.rows.items ≡ rows_after known.entry.course.now.prefixes.items rows.new.turns }
{
    let course = known.course;
    let Some((addr, flow)) = course.draw_packet(draws) else {
        return Ok(None);
    };
    let Ok(answer) = pass.lookup(addr, flow, steps) else {
        return Ok(None);
    };
    let version = answer.version;
    compare(alloc, known, rows, &addr, flow, answer)?;
    Ok(Some(version))
}

/// Looks up at most so often, until a flag is cleared.
fn look_up_while<R: Clock, L: Ledger>(
    rt: &R,
    alloc: Global,
    reader: &mut Reader,
    known: Known,
    way: Way,
    going: &AtomicBool,
    steps: &mut Steps<L>,
) -> Result<Found, Fault> {
    let mut rows = Rows::new(alloc, known.course, 0)?;
    let mut draws = Draws::new(reader.seed);
    let mut found = Found::none(known.base);
    for turn in 0..way.lookups {
        if turn % BATCH == 0 {
            rest(rt, way.pause);
        }
        if !going.load(Ordering::SeqCst) {
            break;
        }
        let pass = &mut reader.pass;
        let Some(version) = look_up(alloc, pass, known, &mut rows, &mut draws, steps)? else {
            break;
        };
        if version < found.newest {
            return Err(Fault::Answer);
        }
        found.lookups = found.lookups.saturating_add(1);
        found.newest = version;
        if known.stage.load(Ordering::SeqCst) == HELD {
            found.beside = version;
        }
    }
    Ok(found)
}

/// Looks up in one epoch, [`BATCH`] times: how often. Each answer must be of its version.
pub(crate) fn look_up_inside<L: Ledger>(
    alloc: Global,
    inside: &mut Inside,
    known: Known,
    rows: &mut Rows,
    draws: &mut Draws,
    steps: &mut Steps<L>,
) -> Result<u64, Fault>
    requires { rows.old.rows.items ≡ rows_after known.course.now.prefixes.items rows.old.turns }
    ensures { rows.new.rows.items ≡ rows_after known.entry.course.now.prefixes.items rows.new.turns }
{
    let mut lookups = 0u64;
    for _ in 0..BATCH {
        let Some((addr, flow)) = known.course.draw_packet(draws) else {
            break;
        };
        let Ok(answer) = inside.lookup(addr, flow, steps) else {
            break;
        };
        if answer.version != inside.version() {
            return Err(Fault::Answer);
        }
        compare(alloc, known, rows, &addr, flow, answer)?;
        lookups = lookups.saturating_add(1);
    }
    Ok(lookups)
}

/// A pass with a counter of its own.
fn read_counted<R: Clock, L: Ledger>(
    rt: &R,
    alloc: Global,
    reader: Reader,
    known: Known,
    way: Way,
    going: &AtomicBool,
    blank: Blank,
) -> Result<Found, Fault>
    requires name { blank.name ≡ L.name }
    requires parts { blank.parts ≡ L.parts }
    requires some { 0 < blank.parts }
{
    let mut steps = Steps::<L>::new(alloc, blank)?;
    let mut reader = reader;
    look_up_while(rt, alloc, &mut reader, known, way, going, &mut steps)
}

/// What a pass finds.
fn read<R: Clock>(
    rt: &R,
    alloc: Global,
    reader: Reader,
    known: Known,
    way: Way,
    going: &AtomicBool,
) -> Result<Found, Fault> {
    read_counted::<R, Brand>(rt, alloc, reader, known, way, going, Blank::new(1))
}

/// A pass, and where its draws begin.
#[derive(Drop)]
pub(crate) struct Reader {
    pass: Pass,
    seed: u64,
}

/// Passes with draws from a seed on.
pub(crate) fn readers_of(
    alloc: Global,
    passes: Vec<Pass>,
    seed: u64,
) -> Result<Vec<Reader>, OutOfMemory> {
    let mut readers = Vec::with_capacity(alloc, passes.len())?;
    let mut seed = seed;
    for pass in passes {
        readers.push(Reader { pass, seed })?;
        seed = seed.wrapping_add(1);
    }
    Ok(readers)
}

/// What passes find together, each in a thread of its own where one can be made.
pub(crate) fn read_all<R: Threads + Clock + Sync>(
    rt: &R,
    alloc: Global,
    readers: Vec<Reader>,
    known: Known,
    way: Way,
    going: &AtomicBool,
) -> Result<Found, Fault> {
    let all = map_vec(
        rt,
        readers,
        &|reader: Reader| { read(rt, alloc, reader, known, way, going) },
    )?;
    let mut found = Found::none(known.base);
    for outcome in all {
        found = found.with(outcome?);
    }
    Ok(found)
}
