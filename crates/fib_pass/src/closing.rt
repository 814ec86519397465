//! How a fib ends.
ghost use Rattle.std.specs.Prelude.{◌≡◌, ◌≢◌, ℕ, ◌+◌, ◌<◌, ◌≤◌, [], length, map, replicate, All, IfOk, IfErr, OnOk, sum_by, vec_capacity};
ghost use Rattle.std.specs.Arc.{arc_value};
ghost use Rattle.prefix_width.specs.Limits.{last_index};
ghost use Rattle.epoch_core.specs.Closing.{IsOneOfEach, readers_of};
ghost use Rattle.epoch_core.specs.Plays.{IsOneHistory};
ghost use Rattle.fib_pass.specs.Closing.{AreOf, HandsBack, HaveRoom, IsSheet, joined};
ghost use Rattle.fib_pass.specs.Totals.{counted_hops, end_of, last_count, packets_hit, packets_of};

use crate::OutOfMemory;
use crate::counting::{ends_of, lookups_in, order_of, packets_in, spread};
use crate::key::Outside;
use crate::pass::{Beside, Pass};
use crate::publisher::Publisher;
use crate::totals::{Packets, PassEnd, Totals};
use epoch_core::{CloseError, Closed};
use prefix_width::Nexthop;
use rib_store::Plan;
use std::alloc::Global;

/// Why a fib did not end.
#[derive(Drop)]
pub enum FibCloseError<const W: u32, const K: u64, const LIVE: u32> {
    /// Fewer passes were given than there are.
    Missing {
        /// The publisher, as it was.
        publisher: Publisher<W, K, LIVE>,
        /// The passes, as they were.
        passes: Vec<Pass<W, K, LIVE>>,
    },
    /// No memory.
    OutOfMemory {
        /// The publisher, as it was.
        publisher: Publisher<W, K, LIVE>,
        /// The passes, as they were.
        passes: Vec<Pass<W, K, LIVE>>,
    },
}

/// The memory for the totals: the nexthops in order with their numbers, a place for each number's
/// count, the packets, and what each pass had done.
#[derive(Drop)]
struct Sheet<const W: u32> {
    order: Vec<(Nexthop<W>, u32)>,
    places: Vec<u64>,
    packets: Vec<Packets<W>>,
    ends: Vec<PassEnd>,
}

impl<const W: u32> Sheet<W> {
    /// The totals, by the counts of the numbers.
    fn fill(self, closed: Closed) -> Totals<W>
        requires within { All (λ c. c.0 < length self.places.items) closed.counts.items }
        requires zeros { (n : ℕ) × (self.places.items ≡ replicate n 0) }
        requires order { All (λ e. e.1 < length self.places.items) self.order.items }
        requires packets { (self.packets.items ≡ []) × (length self.order.items ≤ vec_capacity self.packets) }
        requires few { (length self.ends.items < 256) × All (λ e. e.lookups ≤ 16777216) self.ends.items }
        ensures version { result.version ≡ closed.version }
        ensures lookups { result.lookups ≡ sum_by (λ e. e.lookups) self.entry.ends.items }
        ensures passes { result.passes ≡ self.entry.ends.items }
        ensures packets { result.packets ≡ packets_of (counted_hops (last_count closed.counts.items) self.entry.order.items) }
    {
        let Sheet {
            order,
            mut places,
            packets,
            ends,
        } = self;
        spread(&closed.counts, &mut places);
        let packets = packets_in(&order, &places, packets);
        let lookups = lookups_in(&ends);
        Totals::new(closed.version, lookups, ends, packets)
    }
}

/// A sheet for the totals of these passes.
fn sheet_for<const W: u32, const K: u64, const LIVE: u32>(
    alloc: Global,
    plan: &Plan<W>,
    passes: &[Pass<W, K, LIVE>],
) -> Result<Sheet<W>, OutOfMemory>
    ensures { IfOk result (IsSheet plan.now passes.now) }
{
    let order = order_of(alloc, plan)?;
    let places = vec![in alloc; 0u64; plan.nexthops() as usize + 1]?;
    let packets = Vec::with_capacity(alloc, order.len())?;
    let ends = ends_of(alloc, passes)?;
    Ok(Sheet {
        order,
        places,
        packets,
        ends,
    })
}

/// Empty lists for the seats of passes, for what they have beside them, and for the passes
/// themselves, where they have to be handed back.
#[derive(Drop)]
struct Lists<const W: u32, const K: u64, const LIVE: u32> {
    seats: Vec<Outside<W, K, LIVE>>,
    beside: Vec<Beside<W>>,
    spare: Vec<Pass<W, K, LIVE>>,
}

/// Lists with room for so many passes.
fn lists_for<const W: u32, const K: u64, const LIVE: u32>(
    alloc: Global,
    count: usize,
) -> Result<Lists<W, K, LIVE>, OutOfMemory>
    ensures { IfOk result (HaveRoom count) }
{
    Ok(Lists {
        seats: Vec::with_capacity(alloc, count)?,
        beside: Vec::with_capacity(alloc, count)?,
        spare: Vec::with_capacity(alloc, count)?,
    })
}

/// The seats of passes, and what the passes have beside them. Both lists have room for all.
fn take_apart<const W: u32, const K: u64, const LIVE: u32>(
    passes: Vec<Pass<W, K, LIVE>>,
    mut seats: Vec<Outside<W, K, LIVE>>,
    mut beside: Vec<Beside<W>>,
) -> (Vec<Outside<W, K, LIVE>>, Vec<Beside<W>>)
    requires empty { (seats.items ≡ []) × (beside.items ≡ []) }
    requires room { (length passes.items ≤ vec_capacity seats) × (length passes.items ≤ vec_capacity beside) }
    ensures seats { result.0.items ≡ map (λ p. p.seat) passes.entry.items }
    ensures passes { joined result.0.items result.1.items ≡ passes.entry.items }
    ensures fit { AreOf result.0.items result.1.items }
{
    for pass in passes {
        let (seat, rest) = pass.into_parts();
        seats.push(seat).unwrap();
        beside.push(rest).unwrap();
    }
    (seats, beside)
}

/// The passes of seats and of what they have beside them. The list has room for all.
fn put_together<const W: u32, const K: u64, const LIVE: u32>(
    seats: Vec<Outside<W, K, LIVE>>,
    beside: Vec<Beside<W>>,
    mut passes: Vec<Pass<W, K, LIVE>>,
) -> Vec<Pass<W, K, LIVE>>
    requires fit { AreOf seats.items beside.items }
    requires empty { passes.items ≡ [] }
    requires room { length seats.items ≤ vec_capacity passes }
    ensures { result.items ≡ joined seats.entry.items beside.entry.items }
{
    let mut rests = beside.into_iter();
    for seat in seats {
        let Some(rest) = rests.next() else {
            unreachable!()
        };
        passes.push(Pass::of_parts(seat, rest)).unwrap();
    }
    passes
}

impl<const W: u32, const K: u64, const LIVE: u32> Publisher<W, K, LIVE> {
    /// Takes all passes in, and answers what they did. Where there are fewer passes than were
    /// started, all come back, and so they do for want of memory. All passes are of this fib.
    pub fn close(
        self,
        alloc: Global,
        passes: Vec<Pass<W, K, LIVE>>,
    ) -> Result<Totals<W>, FibCloseError<W, K, LIVE>>
        requires table { All (λ p. p.seat.table ≡ self.table) passes.items }
        ensures version { IfOk result (λ t. t.version ≡ self.entry.own.version) }
        ensures lookups { IfOk result (λ t. t.lookups ≡ sum_by (λ p. p.lookups) passes.entry.items) }
        ensures passes { IfOk result (λ t. t.passes ≡ map end_of passes.entry.items) }
        ensures packets { IfOk result (λ t. t.packets ≡ packets_hit self.entry.key passes.entry.items) }
        ensures all { OnOk result (IsOneOfEach self.entry.own.readers (map (λ p. p.seat) passes.entry.items)) }
        ensures history { IfOk result (λ t. IsOneHistory K (last_index K LIVE) self.entry.own.readers t.version self.entry.steps (readers_of (map (λ p. p.seat) passes.entry.items))) }
        ensures handed_back { IfErr result (λ e. HandsBack self.entry passes.entry.items e) }
    {
        if passes.len() < usize::from(self.readers()) {
            return Err(FibCloseError::Missing {
                publisher: self,
                passes,
            });
        }
        let Ok(sheet) = sheet_for(alloc, self.plan(), &passes) else {
            return Err(FibCloseError::OutOfMemory {
                publisher: self,
                passes,
            });
        };
        let Ok(lists) = lists_for(alloc, passes.len()) else {
            return Err(FibCloseError::OutOfMemory {
                publisher: self,
                passes,
            });
        };
        self.end(alloc, sheet, lists, passes)
    }

    /// Takes all passes in, of which there are enough.
    fn end(
        self,
        alloc: Global,
        sheet: Sheet<W>,
        lists: Lists<W, K, LIVE>,
        passes: Vec<Pass<W, K, LIVE>>,
    ) -> Result<Totals<W>, FibCloseError<W, K, LIVE>>
        requires table { All (λ p. p.seat.table ≡ self.table) passes.items }
        requires enough { self.own.readers ≤ length passes.items }
        requires few { self.own.readers < 256 }
        requires sheet { IsSheet self.key passes.items sheet }
        requires room { HaveRoom (length passes.items) lists }
        ensures version { IfOk result (λ t. t.version ≡ self.entry.own.version) }
        ensures lookups { IfOk result (λ t. t.lookups ≡ sum_by (λ p. p.lookups) passes.entry.items) }
        ensures passes { IfOk result (λ t. t.passes ≡ map end_of passes.entry.items) }
        ensures packets { IfOk result (λ t. t.packets ≡ packets_hit self.entry.key passes.entry.items) }
        ensures all { OnOk result (IsOneOfEach self.entry.own.readers (map (λ p. p.seat) passes.entry.items)) }
        ensures history { IfOk result (λ t. IsOneHistory K (last_index K LIVE) self.entry.own.readers t.version self.entry.steps (readers_of (map (λ p. p.seat) passes.entry.items))) }
        ensures handed_back { IfErr result (λ e. HandsBack self.entry passes.entry.items e) }
    {
        let (seat, plan) = self.into_parts();
        let Lists {
            seats,
            beside,
            spare,
        } = lists;
        let (seats, beside) = take_apart(passes, seats, beside);
        match seat.close(alloc, seats) {
            Ok(closed) => Ok(sheet.fill(closed)),
            Err(CloseError::Missing { .. }) => unreachable!(),
            Err(CloseError::OutOfMemory { control, seats }) => Err(FibCloseError::OutOfMemory {
                publisher: Publisher::seated(control, plan),
                passes: put_together(seats, beside, spare),
            }),
        }
    }
}
