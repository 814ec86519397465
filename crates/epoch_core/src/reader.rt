//! A reader, outside and in its epoch.
ghost use Rattle.std.specs.Prelude.{◌≡◌, ℕ, ◌<◌, ◌≤◌, [], length, true, Some};
ghost use Rattle.std.specs.Arc.{arc_value};
ghost use Rattle.epoch_core.specs.declared.view.Role.TheVariants.{Reader};
ghost use Rattle.epoch_core.specs.declared.event.Event.TheVariants as event;
ghost use Rattle.epoch_core.specs.History.{OneMore, EnterSteps};
ghost use Rattle.epoch_core.specs.Rule.{IsSized};
ghost use Rattle.epoch_core.specs.Step.{looked_own, announced_own, entered_own, left_own, hit_own, has_index, has_pair, most_hits};
ghost use Rattle.epoch_core.specs.World.{first_own};

use crate::board::{Board, FIRST_INDEX_WORD, Lawful, NUMBER, Place, WORD_STRIDE, slot_of};
use crate::plays::{Announce, Enter, Hit, Leave, Look};
use std::alloc::Global;
use std::marker::Model;
use std::sync::Arc;

/// A reader that is outside: it has no version in hand.
#[derive(Drop)]
pub struct ReaderSeat<Q, T: Lawful<Q> + Drop, const K: u64, const LIVE: u32> {
    pub(crate) board: Arc<Board<Q, T, K, LIVE>, Global>,
    pub(crate) place: Place<Q, T>,
    // As wide as its neighbours: padding would be copied with each move of the seat.
    pub(crate) index: usize,
    pub(crate) seen: u64,
}

impl<Q, T: Lawful<Q> + Drop, const K: u64, const LIVE: u32> Model for ReaderSeat<Q, T, K, LIVE> {
    ghost use Rattle.std.specs.Arc.{arc_value};
    ghost use Rattle.std.specs.Prelude.{Some};
    ghost use Rattle.epoch_core.specs.SeatViews.{ReaderView, reader_view, IsOutside};

    ghost Value = { ReaderView Q };

    ghost view = { λ s. reader_view s.place (arc_value s.board).shared.key.key s.index };

    ghost invariant = { λ s. IsOutside K LIVE s.place (arc_value s.board).shared.table_id (Some (arc_value s.board).shared.key.key) s.index s.seen };
}

/// A reader in its epoch, with a version and the value that stands there. It has to be spent, by
/// [`Standing::leave`].
pub struct Standing<Q, T: Lawful<Q> + Drop, const K: u64, const LIVE: u32> {
    board: Arc<Board<Q, T, K, LIVE>, Global>,
    place: Place<Q, T>,
    index: usize,
    version: u64,
    value: Arc<T, Global>,
}

impl<Q, T: Lawful<Q> + Drop, const K: u64, const LIVE: u32> Model for Standing<Q, T, K, LIVE> {
    ghost use Rattle.std.specs.Prelude.{Some};
    ghost use Rattle.std.specs.Arc.{arc_value};
    ghost use Rattle.epoch_core.specs.Rule.{at_key, names_at_key};
    ghost use Rattle.epoch_core.specs.SeatViews.{StandingView, reader_view, IsInEpoch};

    ghost Value = { StandingView Q T };

    ghost view = { λ s. record { seat = reader_view s.place (arc_value s.board).shared.key.key s.index; version = s.version; value = arc_value s.value } };

    ghost invariant = { λ s. IsInEpoch K LIVE (at_key (λ q v c. T.is_lawful q v (arc_value c))) (names_at_key T.names) s.place (arc_value s.board).shared.table_id (Some (arc_value s.board).shared.key.key) s.index s.version s.value };
}

impl<Q, T: Lawful<Q> + Drop, const K: u64, const LIVE: u32> ReaderSeat<Q, T, K, LIVE> {
    /// The seat of a reader that has done nothing yet.
    pub(crate) fn seated(
        board: Arc<Board<Q, T, K, LIVE>, Global>,
        place: Place<Q, T>,
        index: u8,
    ) -> ReaderSeat<Q, T, K, LIVE>
        requires table { (place.table_id ≡ (arc_value board).shared.table_id) × IsSized K LIVE place.table_id }
        requires number { index < 64 }
        requires new { place.me ≡ (record { key = Some (arc_value board).shared.key.key; role = Reader index first_own; steps = [] }, []) }
        ensures { result ≡ record { table = place.table_id; key = (arc_value board).shared.key.key; number = index; own = first_own; steps = [] } }
    {
        ReaderSeat {
            board,
            place,
            index: usize::from(index),
            seen: 0,
        }
    }

    /// The latest version that it has looked at, entered at or been told of.
    pub fn seen(&self) -> u64
        ensures { result ≡ self.now.own.seen }
    {
        self.seen
    }

    /// The version that is published at this step.
    pub fn look(&mut self) -> u64
        ensures seat { self.new ≡ record self.old { own = looked_own result self.old.own; steps = self.new.steps } }
        ensures step { OneMore self.old.steps (event.Look self.old.number) result self.new.steps }
        ensures later { self.old.own.seen ≤ result }
    {
        let board = &self.board;
        let found = board.shared.load::<Look>(&mut self.place, 0);
        self.seen = found;
        found
    }

    /// Looks, announces the version that it found, and takes the version that is published then in
    /// hand. No publish replaces that until the reader leaves.
    pub fn enter(self) -> Standing<Q, T, K, LIVE>
        ensures seat { (result.seat.table ≡ self.table) × (result.seat.key ≡ self.key) × (result.seat.number ≡ self.number) }
        ensures steps { result.seat.own ≡ entered_own result.version (announced_own (looked_own result.seat.own.last self.own)) }
        ensures later { (self.own.seen ≤ result.seat.own.last) × (result.seat.own.last ≤ result.version) }
        ensures history { EnterSteps self.number self.steps result.seat.own.last result.version result.seat.steps }
        ensures lawful { T.is_lawful result.seat.key result.version result.value }
    {
        let Self {
            board,
            mut place,
            index,
            seen: _,
        } = self;
        let shared = &board.shared;
        let found = shared.load::<Look>(&mut place, 0);
        shared.store::<Announce>(&mut place, WORD_STRIDE * (1 + index), found + 1);
        let current = shared.load::<Enter<T, K, LIVE>>(&mut place, 0);
        let bank = (current % K) as usize;
        let value = shared
            .exchange(&mut place, slot_of(bank, index), None)
            .unwrap();
        Standing {
            board,
            place,
            index,
            version: current,
            value,
        }
    }
}

impl<Q, T: Lawful<Q> + Drop, const K: u64, const LIVE: u32> Standing<Q, T, K, LIVE> {
    /// The version in hand.
    pub fn version(&self) -> u64
        ensures { result ≡ self.now.version }
    {
        self.version
    }

    /// The value in hand.
    pub fn value(&self) -> &T
        ensures value { result.now ≡ self.now.value }
        ensures lawful { T.is_lawful self.now.seat.key self.now.version result.now }
    {
        &self.value
    }

    /// Makes one hit on the word of this index, and answers the number that the version in hand
    /// names for it. A seat makes at most 16,777,216 hits.
    pub fn hit(&mut self, index: u16) -> u32
        requires named { has_index index (T.names self.old.seat.key self.old.version) ≡ true }
        requires room { length self.old.seat.own.hits < most_hits }
        ensures number { has_pair index result (T.names self.old.seat.key self.old.version) ≡ true }
        ensures seat { self.new ≡ record self.old { seat = record self.old.seat { own = hit_own result self.old.seat.own; steps = self.new.seat.steps } } }
        ensures step { (found : ℕ) × OneMore self.old.seat.steps (event.Hit self.old.seat.number index) found self.new.seat.steps }
    {
        let board = &self.board;
        let word = FIRST_INDEX_WORD + usize::from(index);
        let found = board.shared.fetch_add::<Hit<T>>(&mut self.place, word, 1);
        (found / NUMBER) as u32
    }

    /// Gives the value back and announces nothing any more.
    pub fn leave(self) -> ReaderSeat<Q, T, K, LIVE>
        ensures seat { result ≡ record self.seat { own = left_own self.seat.own; steps = result.steps } }
        ensures step { OneMore self.seat.steps (event.Leave self.seat.number) 0 result.steps }
    {
        let Standing {
            board,
            mut place,
            index,
            version,
            value,
        } = self;
        let shared = &board.shared;
        let bank = (version % K) as usize;
        shared.exchange(&mut place, slot_of(bank, index), Some(value));
        shared.store::<Leave>(&mut place, WORD_STRIDE * (1 + index), 0);
        ReaderSeat {
            board,
            place,
            index,
            seen: version,
        }
    }
}
