//! Readers that make hits in threads of their own, beside a control that gives the indexes again.
ghost use Rattle.std.specs.Prelude.{◌≡◌, ◌<◌, All, IfOk, length};
ghost use denote.Param.Send.{IsSync};
ghost use Rattle.atomic_table.specs.Seated.{TableId};

use crate::OutOfMemory;
use crate::test_turns::{TurnControl, TurnReader, index_of, started, try_turn};
use std::alloc::Global;
use std::process::Abort;
use std::sync::Wait;
use std::sync::atomic::{AtomicBool, Ordering};
use std::test::Fail;
use std::thread;
use std::thread::{Threads, join, map_vec};

/// How many versions are placed at least, each of which gives an index to another number.
const VERSIONS: u64 = 20_000;

/// How many are placed at most.
const VERSIONS_MAX: u64 = 1_000_000;

/// How often each reader enters.
const ROUNDS: u64 = 200_000;

/// How many hits were made at each number.
#[derive(Clone, Copy, Debug, PartialEq, Eq)]
struct Hits([u64; 4]);

impl Hits {
    /// Adds so many at a number from 1 to 3.
    fn add(&mut self, number: u32, count: u64) {
        if let Some(hits) = self.0.get_mut(number as usize) {
            *hits = hits.saturating_add(count);
        }
    }

    /// Adds those of another.
    fn add_all(&mut self, other: &Hits) {
        for number in 1..4u32 {
            if let Some(count) = other.0.get(number as usize) {
                self.add(number, *count);
            }
        }
    }
}

/// A reader, and the hits that it has made.
#[derive(Drop)]
struct Read {
    seat: TurnReader<4, 4, 2047>,
    hits: Hits,
}

/// Enters, makes a hit and leaves, so often.
fn hit_on(seat: TurnReader<4, 4, 2047>) -> Read
    requires { length seat.own.hits ≡ 0 }
    ensures { result.seat.table ≡ seat.table }
{
    let mut seat = seat;
    let mut hits = Hits([0; 4]);
    for _round in 0..ROUNDS {
        let mut standing = seat.enter();
        if let Some(index) = index_of::<4, 4>(standing.version()) {
            hits.add(standing.hit(index), 1);
        }
        seat = standing.leave();
    }
    Read { seat, hits }
}

/// All readers, each in a thread of its own where one can be made. The flag is cleared behind them.
fn hit_all<R: Threads + Sync>(
    rt: &R,
    seats: Vec<TurnReader<4, 4, 2047>>,
    reading: &AtomicBool,
) -> Result<Vec<Read>, OutOfMemory>
    requires { All (λ s. length s.own.hits ≡ 0) seats.items }
    ensures { (table : TableId) → All (λ s. s.table ≡ table) seats.items → IfOk result (λ v. All (λ r. r.seat.table ≡ table) v.items) }
{
    let reads = map_vec(
        rt,
        seats,
        &|seat: TurnReader<4, 4, 2047>| -> Read
            requires { length seat.own.hits ≡ 0 }
            ensures { result.seat.table ≡ seat.table }
        { hit_on(seat) },
    );
    reading.store(false, Ordering::SeqCst);
    reads
}

/// Places versions while the readers read and there are too few, however often readers hold one up.
fn place_all<R: Abort + Wait>(
    rt: &R,
    alloc: Global,
    control: TurnControl<4, 4, 2047>,
    reading: &AtomicBool,
) -> TurnControl<4, 4, 2047>
    ensures { result.table ≡ control.table }
{
    let mut control = control;
    for _ in rt.forever() {
        let version = control.version();
        let done = version >= VERSIONS && !reading.load(Ordering::SeqCst);
        if done || version >= VERSIONS_MAX {
            break;
        }
        if !try_turn(rt, alloc, &mut control) {
            thread::yield_now();
        }
    }
    control
}

/// The seats of readers, and the hits that they have made together.
#[derive(Drop)]
struct Gathered {
    seats: Vec<TurnReader<4, 4, 2047>>,
    hits: Hits,
}

/// Takes what readers have done together.
fn gather<R: Abort>(rt: &R, alloc: Global, reads: Vec<Read>) -> Gathered
    ensures { (table : TableId) → All (λ r. r.seat.table ≡ table) reads.items → All (λ s. s.table ≡ table) result.seats.items }
{
    let mut seats = Vec::new(alloc);
    let mut hits = Hits([0; 4]);
    for one in reads {
        let Read { seat, hits: more } = one;
        hits.add_all(&more);
        seats.push(seat).expect(rt, "memory");
    }
    Gathered { seats, hits }
}

/// The hits that four readers make beside the control, and the counts at close.
fn hit_beside<R: Threads + Abort + Wait + Sync>(rt: &R, alloc: Global) -> (Hits, Hits) {
    let (control, seats) = started::<R, 4, 4, 2047>(rt, alloc, 4);
    let reading = AtomicBool::new(true);
    let flag = &reading;
    // Where no other thread can be made the readers are done first, in this one.
    let (control, reads) = join(
        rt,
        || -> TurnControl<4, 4, 2047>
            ensures { result.table ≡ control.table }
        { place_all(rt, alloc, control, flag) },
        || -> Result<Vec<Read>, OutOfMemory>
            requires { IsSync R.row × All (λ s. length s.own.hits ≡ 0) seats.items }
            ensures { (table : TableId) → All (λ s. s.table ≡ table) seats.items → IfOk result (λ v. All (λ r. r.seat.table ≡ table) v.items) }
        { hit_all(rt, seats, flag) },
    );
    let all = gather(rt, alloc, reads.expect(rt, "memory"));
    let Ok(closed) = control.close(alloc, all.seats) else {
        panic!(rt; "not closed");
    };
    assert!(rt; closed.version >= VERSIONS, "{}", closed.version);
    let mut counted = Hits([0; 4]);
    for (number, count) in closed.counts {
        counted.add(number, count);
    }
    (all.hits, counted)
}

#[test]
fn counts_are_exact_beside_a_control_that_gives_indexes_again(rt: HostRuntime) -> Result<(), Fail> {
    let (made, counted) = hit_beside(&rt, rt.alloc());
    assert_eq!(rt; counted, made);
    assert!(rt; made != Hits([0; 4]));
    Ok(())
}
