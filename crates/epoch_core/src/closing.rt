//! How the seats end.
ghost use Rattle.std.specs.Prelude.{◌≡◌, ℕ, ◌+◌, ◌<◌, ◌≤◌, [], ◌∷◌, ◌++◌, length, vec_capacity, All, IfOk, IfErr, OnOk};
ghost use Rattle.prefix_width.specs.Limits.{last_index};
ghost use Rattle.epoch_core.specs.Closing.{readers_of, IsOneOfEach, HandsBack};
ghost use Rattle.epoch_core.specs.Counts.{hits_of, rising_counts};
ghost use Rattle.epoch_core.specs.Plays.{HaveSeen, IsOneHistory};
ghost use Rattle.epoch_core.specs.Rule.{AreOnce};
ghost use Rattle.epoch_core.specs.declared.view.Phase.TheVariants.{Idle};

use crate::board::Lawful;
use crate::control::ControlSeat;
use crate::plays::{Close, End};
use crate::reader::ReaderSeat;
use crate::words::{gather, tally_all};
use prefix_width::last_index;
use std::alloc::Global;

/// What the control finds when all readers' seats have ended.
#[derive(Debug, Drop)]
pub struct Closed {
    /// The version that was published last.
    pub version: u64,
    /// Each number that has hits, with how many the readers made, by rising number.
    pub counts: Vec<(u32, u64)>,
}

/// Why the seats did not end.
#[derive(Drop)]
pub enum CloseError<Q, T: Lawful<Q> + Drop, const K: u64, const LIVE: u32> {
    /// Fewer readers' seats were given than there are readers.
    Missing {
        /// The control's seat, as it was.
        control: ControlSeat<Q, T, K, LIVE>,
        /// The readers' seats, as they were.
        seats: Vec<ReaderSeat<Q, T, K, LIVE>>,
    },
    /// No memory.
    OutOfMemory {
        /// The control's seat, as it was.
        control: ControlSeat<Q, T, K, LIVE>,
        /// The readers' seats, as they were.
        seats: Vec<ReaderSeat<Q, T, K, LIVE>>,
    },
}

impl<Q, T: Lawful<Q> + Drop, const K: u64, const LIVE: u32> ControlSeat<Q, T, K, LIVE> {
    /// Takes a reader's seat in.
    fn end(&mut self, seat: ReaderSeat<Q, T, K, LIVE>)
        requires { seat.table ≡ self.old.table }
        ensures { self.new ≡ record self.old { own = record self.old.own { ended = (seat.number, seat.own, seat.steps) ∷ self.old.own.ended } } }
    {
        let ReaderSeat {
            board: _,
            place,
            index: _,
            seen: _,
        } = seat;
        let board = &self.board;
        board.shared.join_seat::<End>(&mut self.place, place);
    }

    /// Takes all these readers' seats in.
    fn end_all(&mut self, seats: Vec<ReaderSeat<Q, T, K, LIVE>>)
        requires { All (λ s. s.table ≡ self.old.table) seats.items }
        ensures { self.new ≡ record self.old { own = record self.old.own { ended = readers_of seats.items ++ self.old.own.ended } } }
    {
        let mut left = seats;
        while let Some(seat) = left.pop() {
            self.end(seat);
        }
    }

    /// Tallies all index words, and answers the version published last with each number's hits, in
    /// the list.
    fn finish(self, list: Vec<(u32, u64)>) -> Closed
        requires ended { self.own.readers ≤ length self.own.ended }
        requires list { (list.items ≡ []) × (self.own.numbers < vec_capacity list) }
        ensures last { result.version ≡ self.own.version }
        ensures once { AreOnce self.own.readers self.own.ended }
        ensures seen { HaveSeen self.own.version self.own.ended }
        ensures history { IsOneHistory K (last_index K LIVE) self.own.readers self.own.version self.steps self.own.ended }
        ensures counts { result.counts.items ≡ rising_counts (λ p. hits_of p self.own.ended) (self.own.numbers + 1) }
        ensures none_above { (p : ℕ) → self.own.numbers < p → hits_of p self.own.ended ≡ 0 }
    {
        let ControlSeat {
            board,
            mut place,
            readers: _,
            version: _,
            passed: _,
            booked,
        } = self;
        let mut counts = booked;
        let words = usize::from(last_index(K, LIVE)) + 1;
        tally_all(&board.shared, &mut place, &mut counts, words);
        let version = board.shared.load::<Close<K, LIVE>>(&mut place, 0);
        Closed {
            version,
            counts: gather(&counts, list),
        }
    }

    /// Takes all the readers' seats in, and answers the version that was published last and how
    /// many hits the readers made at each number. So each reader is outside for good, and no seat
    /// is left that could enter or make a hit. Where there are fewer seats than readers, all come
    /// back, and so they do for want of memory. All seats are of this table.
    pub fn close(
        self,
        alloc: Global,
        seats: Vec<ReaderSeat<Q, T, K, LIVE>>,
    ) -> Result<Closed, CloseError<Q, T, K, LIVE>>
        requires table { All (λ s. s.table ≡ self.table) seats.items }
        ensures last { IfOk result (λ c. c.version ≡ self.own.version) }
        ensures counts { IfOk result (λ c. c.counts.items ≡ rising_counts (λ p. hits_of p (readers_of seats.items)) (self.own.numbers + 1)) }
        ensures none_above { OnOk result ((p : ℕ) → self.own.numbers < p → hits_of p (readers_of seats.items) ≡ 0) }
        ensures all { OnOk result (IsOneOfEach self.own.readers seats.items) }
        ensures outside { OnOk result (All (λ s. s.own.phase ≡ Idle) seats.items) }
        ensures seen { IfOk result (λ c. All (λ s. s.own.seen ≤ c.version) seats.items) }
        ensures history { IfOk result (λ c. IsOneHistory K (last_index K LIVE) self.own.readers c.version self.steps (readers_of seats.items)) }
        ensures handed_back { IfErr result (λ e. HandsBack self seats.items e) }
    {
        if seats.len() < usize::from(self.readers()) {
            return Err(CloseError::Missing {
                control: self,
                seats,
            });
        }
        let Ok(list) = Vec::with_capacity(alloc, self.booked.len()) else {
            return Err(CloseError::OutOfMemory {
                control: self,
                seats,
            });
        };
        let mut control = self;
        control.end_all(seats);
        Ok(control.finish(list))
    }
}
