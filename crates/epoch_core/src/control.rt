//! The control, which publishes versions.
ghost use Rattle.std.specs.Prelude.{◌≡◌, ℕ, ◌+◌, ◌<◌, ◌≤◌, [], List, length, replicate, vec_len, true, false, All, IfSome, IfNone, IfOk, IfErr, OnOk, Some};
ghost use Rattle.std.specs.Arc.{arc_value};
ghost use Rattle.prefix_width.specs.Limits.{AreBanks, last_index};
ghost use Rattle.epoch_core.specs.declared.event.Event.TheVariants as event;
ghost use Rattle.epoch_core.specs.declared.view.Made.{Made};
ghost use Rattle.epoch_core.specs.Fresh.{AreFresh, IsFresh, NamesFit, latest_first};
ghost use Rattle.epoch_core.specs.History.{OneMore, PassedThen, PublishedThen, ReassignSteps};
ghost use Rattle.epoch_core.specs.Step.{may_pass, are_distinct, each_among};
ghost use Rattle.epoch_core.specs.Rule.{at_key, first_control, opened_view, IsSized};
ghost use Rattle.epoch_core.specs.Plays.{published_control, taken_places, filled_places, Each};

use crate::OutOfMemory;
use crate::board::{Board, Lawful, Place, READERS, Top, WORD_STRIDE, slot_of};
use crate::copies::{Copies, Held};
use crate::plays::{Publish, Scan};
use crate::words::reassign_all;
use std::alloc::Global;
use std::array;
use std::marker::Model;
use std::sync::Arc;

/// The one seat that publishes.
#[derive(Drop)]
pub struct ControlSeat<Q, T: Lawful<Q> + Drop, const K: u64, const LIVE: u32> {
    pub(crate) board: Arc<Board<Q, T, K, LIVE>, Global>,
    pub(crate) place: Place<Q, T>,
    pub(crate) readers: u8,
    pub(crate) version: u64,
    pub(crate) passed: u8,
    pub(crate) booked: Vec<u64>,
}

impl<Q, T: Lawful<Q> + Drop, const K: u64, const LIVE: u32> Model for ControlSeat<Q, T, K, LIVE> {
    ghost use Rattle.std.specs.Arc.{arc_value};
    ghost use Rattle.std.specs.Prelude.{Some};
    ghost use Rattle.epoch_core.specs.Rule.{at_key, names_at_key};
    ghost use Rattle.epoch_core.specs.SeatViews.{ControlView, control_view, IsControlSeat};

    ghost Value = { ControlView Q };

    ghost view = { λ s. control_view s.place (arc_value s.board).shared.key.key };

    ghost invariant = { λ s. IsControlSeat K LIVE (at_key (λ q v c. T.is_lawful q v (arc_value c))) (names_at_key T.names) s.place (arc_value s.board).shared.table_id (Some (arc_value s.board).shared.key.key) s.readers s.version s.passed s.booked.items };
}

/// Whether a reader whose announcement this is may be passed while this version is published.
fn may_go<const K: u64>(version: u64, stands: u64) -> bool
    requires banks { AreBanks K }
    requires numbers { (version < 4294967296) × (stands ≤ version + 1) }
    ensures { result ≡ may_pass K version stands }
{
    stands == 0 || version + 2 < stands + K
}

/// Puts the copies into the places in hand, those of readers 0, 1 and so on in the bank, and what
/// stood there into `replaced`.
fn hand_out<Q, T: Lawful<Q> + Drop, const K: u64, const LIVE: u32>(
    top: &Top<Q, T, K, LIVE>,
    place: &mut Place<Q, T>,
    bank: usize,
    version: u64,
    mut copies: Vec<Arc<T, Global>>,
    replaced: &mut [Option<Arc<T, Global>>],
)
    requires room { vec_len copies ≤ length replaced.old }
    requires table { (place.old.table_id ≡ top.now.table_id) × (bank < 8) × (vec_len copies ≤ 64) }
    requires hands { (ys : List _) × (place.old.me.1 ≡ taken_places bank ys) × (length ys ≡ vec_len copies) }
    requires lawful { Each (at_key (λ q v c. T.is_lawful q v (arc_value c)) place.old.me.0.key version) copies.items }
    ensures seat { (place.new.table_id ≡ place.old.table_id) × (place.new.id ≡ place.old.id) × (place.new.me.0 ≡ place.old.me.0) }
    ensures hands { (cs : List _) × (place.new.me.1 ≡ filled_places bank 0 cs) × (length cs ≡ vec_len copies) × Each (at_key (λ q v c. T.is_lawful q v (arc_value c)) place.old.me.0.key version) cs }
{
    while let Some(copy) = copies.pop() {
        let reader = copies.len();
        replaced[reader] = top.exchange(place, slot_of(bank, reader), Some(copy));
        place.turn();
    }
}

impl<Q, T: Lawful<Q> + Drop, const K: u64, const LIVE: u32> ControlSeat<Q, T, K, LIVE> {
    /// The control's seat once all readers' seats are made.
    pub(crate) fn seated(
        board: Arc<Board<Q, T, K, LIVE>, Global>,
        place: Place<Q, T>,
        readers: u8,
        numbers: u32,
        booked: Vec<u64>,
    ) -> ControlSeat<Q, T, K, LIVE>
        requires table { (place.table_id ≡ (arc_value board).shared.table_id) × IsSized K LIVE place.table_id }
        requires count { readers ≤ 64 }
        requires booked { booked.items ≡ replicate (numbers + 1) 0 }
        requires names { NamesFit (last_index K LIVE) numbers (T.names (arc_value board).shared.key.key) }
        requires new { place.me ≡ (opened_view (Some (arc_value board).shared.key.key) readers numbers readers, []) }
        ensures { result ≡ record { table = place.table_id; key = (arc_value board).shared.key.key; own = record (first_control readers numbers) { opened = readers }; steps = [] } }
    {
        let _ = numbers;
        ControlSeat {
            board,
            place,
            readers,
            version: 0,
            passed: 0,
            booked,
        }
    }

    /// The version that it published last, 0 at first.
    pub fn version(&self) -> u64
        ensures version { result ≡ self.now.own.version }
        ensures low { result < 4294967296 }
    {
        self.version
    }

    /// How many readers there are.
    pub fn readers(&self) -> u8
        ensures { result ≡ self.now.own.readers }
    {
        self.readers
    }

    /// A handle of the image for each reader, with the pairs of an index and a number that the next
    /// version names anew, by rising index. None of their indexes is named by one of the last
    /// `K - 1` versions.
    pub fn prepare(
        &self,
        alloc: Global,
        image: &Arc<T, Global>,
        fresh: &[(u16, u32)],
    ) -> Result<Copies<T, K, LIVE>, OutOfMemory>
        requires { AreFresh K (T.names self.now.key) self.now.own.version fresh.now }
        ensures count { IfOk result (λ c. length c.values ≡ self.now.own.readers) }
        ensures image { IfOk result (λ c. All (λ x. x ≡ arc_value image.now) c.values) }
        ensures fresh { IfOk result (λ c. c.fresh ≡ fresh.now) }
    {
        let readers = usize::from(self.readers);
        let mut handles = Vec::with_capacity(alloc, readers)?;
        for _count in 0..readers {
            handles.push(Arc::try_clone(image)?)?;
        }
        let mut pairs = Vec::new(alloc);
        pairs.extend_from_slice(fresh)?;
        Ok(Copies {
            handles,
            fresh: pairs,
        })
    }

    /// Scans the next reader, and answers its announcement where that holds the control up.
    fn scan(&mut self) -> Option<u64>
        requires { self.old.own.passed < self.old.own.readers }
        ensures none { IfNone result (self.new.own.passed ≡ self.old.own.passed + 1) }
        ensures some { IfSome result (λ stands. (self.new.own.passed ≡ self.old.own.passed) × (self.new.own.found ≡ (self.old.own.passed, stands))) }
        ensures held_up { IfSome result (λ stands. (0 < stands) × (stands + K ≤ self.old.own.version + 2)) }
        ensures seat { (self.new.table ≡ self.old.table) × (self.new.key ≡ self.old.key) }
        ensures own { self.new.own ≡ record self.old.own { scans = self.old.own.scans + 1; found = self.new.own.found; passed = self.new.own.passed } }
        ensures passed { IfNone result (may_pass K self.old.own.version self.new.own.found.1 ≡ true) }
        ensures step { (self.new.own.found.0 ≡ self.old.own.passed) × OneMore self.old.steps (event.Scan self.old.own.passed) self.new.own.found.1 self.new.steps }
    {
        let board = &self.board;
        let reader = usize::from(self.passed);
        let stands = board
            .shared
            .load::<Scan<T, K>>(&mut self.place, WORD_STRIDE * (1 + reader));
        if may_go::<K>(self.version, stands) {
            self.passed += 1;
            None
        } else {
            Some(stands)
        }
    }

    /// Scans the readers that aren't passed, in order. Where none holds the next version up, gives
    /// the words of the fresh indexes to their numbers, puts the copies into the readers' places,
    /// publishes, and answers the new version. Else the readers passed stay passed, no index word
    /// is touched, and the copies come back. There is a copy for each reader, lawful for that
    /// version, and the fresh pairs are those of [`Control::prepare`] for it. The version before is
    /// below 4,294,967,295.
    pub fn try_place(&mut self, copies: Copies<T, K, LIVE>) -> Result<u64, Held<T, K, LIVE>>
        requires count { length copies.values ≡ self.old.own.readers }
        requires lawful { All (λ c. T.is_lawful self.old.key (self.old.own.version + 1) c) copies.values }
        requires room { self.old.own.version < 4294967295 }
        requires fresh { AreFresh K (T.names self.old.key) self.old.own.version copies.fresh }
        ensures seat { (self.new.table ≡ self.old.table) × (self.new.key ≡ self.old.key) × (self.new.own.readers ≡ self.old.own.readers) }
        ensures placed { IfOk result (λ v. (v ≡ self.old.own.version + 1) × (self.new.own ≡ record self.old.own { version = v; passed = 0; booked = self.new.own.booked; scans = self.new.own.scans; found = self.new.own.found })) }
        ensures scans { OnOk result (self.new.own.scans + self.old.own.passed ≡ self.old.own.scans + self.old.own.readers) }
        ensures held { IfErr result (λ h. self.new.own ≡ record self.old.own { passed = h.reader; scans = self.new.own.scans; found = (h.reader, h.stands) }) }
        ensures held_up { IfErr result (λ h. (0 < h.stands) × (h.stands + K ≤ self.old.own.version + 2)) }
        ensures in_order { IfErr result (λ h. (self.old.own.passed ≤ h.reader) × (h.reader < self.old.own.readers) × (self.new.own.scans + self.old.own.passed ≡ self.old.own.scans + h.reader + 1)) }
        ensures published_last { OnOk result (PublishedThen K self.old.own.version self.old.own.passed self.old.own.readers self.old.steps self.old.own.found copies.fresh (T.names self.old.key (self.old.own.version + 1)) self.new.steps self.new.own.found) }
        ensures scanned_last { IfErr result (λ h. (found : ℕ × ℕ) × PassedThen K self.old.own.version self.old.own.passed h.reader self.old.steps self.old.own.found (event.Scan h.reader) h.stands self.new.steps found) }
        ensures copies { IfErr result (λ h. h.copies ≡ copies) }
    {
        let _ = &self.passed;
        while self.passed < self.readers {
            if let Some(stands) = self.scan() {
                return Err(Held {
                    reader: self.passed,
                    stands,
                    copies,
                });
            }
        }
        let Copies { handles, fresh } = copies;
        Ok(self.publish(handles, &fresh))
    }

    /// Publishes the next version, once each reader is passed.
    fn publish(&mut self, handles: Vec<Arc<T, Global>>, fresh: &[(u16, u32)]) -> u64
        requires count { (vec_len handles ≡ self.old.own.readers) × (self.old.own.passed ≡ self.old.own.readers) }
        requires lawful { All (λ c. T.is_lawful self.old.key (self.old.own.version + 1) (arc_value c)) handles.items }
        requires room { self.old.own.version < 4294967295 }
        requires names { (are_distinct (T.names self.old.key (self.old.own.version + 1)) ≡ true) × (each_among (T.names self.old.key (self.old.own.version + 1)) (T.names self.old.key self.old.own.version) fresh.now ≡ true) }
        requires fresh { IsFresh K (last_index K LIVE) self.old.own.numbers self.old.own.version (T.names self.old.key) fresh.now }
        ensures seat { (self.new.table ≡ self.old.table) × (self.new.key ≡ self.old.key) × (self.new.own ≡ record (published_control self.old.own) { booked = self.new.own.booked }) }
        ensures steps { (mid : List Made) × ReassignSteps self.old.steps (latest_first fresh.now []) mid × OneMore mid (event.Publish (T.names self.old.key (self.old.own.version + 1))) (self.old.own.version + 1) self.new.steps }
        ensures version { result ≡ self.old.own.version + 1 }
    {
        let next = self.version + 1;
        let board = &self.board;
        let bank = (next % K) as usize;
        // What is replaced is let go of once the version is published, not before.
        let mut replaced: [Option<Arc<T, Global>>; READERS] = array::from_fn(|_reader| None);
        reassign_all(&board.shared, &mut self.place, &mut self.booked, fresh);
        hand_out(
            &board.shared,
            &mut self.place,
            bank,
            next,
            handles,
            &mut replaced,
        );
        board.shared.store::<Publish<T>>(&mut self.place, 0, next);
        self.version = next;
        self.passed = 0;
        next
    }
}
