//! How the table and its seats are made.
ghost use Rattle.std.specs.Prelude.{◌≡◌, ◌*◌, ◌↔◌, ◌⊎◌, ◌<◌, ◌≤◌, [], length, IfOk, IfErr, OnOk, Some};
ghost use Rattle.std.specs.Arc.{arc_value};
ghost use Rattle.epoch_core.specs.declared.starting.StartError.TheVariants.{BadCount};
ghost use Rattle.epoch_core.specs.Rule.{first_control, IsSized, opened_view};
ghost use Rattle.epoch_core.specs.SeatViews.{AreFirstSeats};
ghost use Rattle.prefix_width.specs.Limits.{AreBanks, AreTargets, last_index};
ghost use Rattle.epoch_core.specs.Fresh.{NamesFit};
ghost use Rattle.epoch_core.specs.Slots.{is_first_slot, FirstSlot, FirstSlots};

use crate::OutOfMemory;
use crate::board::{About, Board, FIRST_INDEX_WORD, Lawful, Place, READERS, SLOT_STRIDE};
use crate::control::ControlSeat;
use crate::plays::Open;
use crate::reader::ReaderSeat;
use atomic_table::Table;
use prefix_width::last_index;
use std::alloc::Global;
use std::sync::Arc;
use thiserror::Error;

/// Whether the slot of this number is a reader's in bank 0.
fn is_first(readers: usize, place: usize) -> bool
    requires { readers ≤ 64 }
    ensures { result ≡ is_first_slot readers place }
{
    place % SLOT_STRIDE == 0 && place < SLOT_STRIDE * readers
}

/// The slot of this number at the start: the first version stands in bank 0.
fn first_slot<T>(
    readers: usize,
    place: usize,
    first: &Arc<T, Global>,
) -> Result<Option<Arc<T, Global>>, OutOfMemory>
    requires { readers ≤ 64 }
    ensures { IfOk result (FirstSlot (λ c. arc_value c ≡ arc_value first.now) readers place) }
{
    if is_first(readers, place) {
        Ok(Some(Arc::try_clone(first)?))
    } else {
        Ok(None)
    }
}

/// All slots at the start.
fn lay<T: Drop>(
    alloc: Global,
    banks: usize,
    readers: usize,
    first: &Arc<T, Global>,
) -> Result<Vec<Option<Arc<T, Global>>>, OutOfMemory>
    requires { (banks ≤ 8) × (readers ≤ 64) }
    ensures { IfOk result (λ v. (length v.items ≡ 512 * banks) × FirstSlots (λ c. arc_value c ≡ arc_value first.now) readers 0 v.items) }
{
    let count = SLOT_STRIDE * READERS * banks;
    let mut slots = Vec::with_capacity(alloc, count)?;
    for place in 0..count {
        slots.push(first_slot(readers, place, first)?)?;
    }
    Ok(slots)
}

/// The table and its first seat.
fn open<Q: Drop, T: Lawful<Q> + Drop, const K: u64, const LIVE: u32>(
    alloc: Global,
    key: Q,
    readers: u8,
    numbers: u32,
    first: &Arc<T, Global>,
) -> Result<(Arc<Board<Q, T, K, LIVE>, Global>, Place<Q, T>), OutOfMemory>
    requires limits { AreBanks K × AreTargets LIVE }
    requires first { (readers ≤ 64) × T.is_lawful key 0 (arc_value first.now) × (T.names key 0 ≡ []) }
    ensures { IfOk result (λ t. (t.1.table_id ≡ (arc_value t.0).shared.table_id) × IsSized K LIVE t.1.table_id × ((arc_value t.0).shared.key.key ≡ key) × (t.1.me ≡ (opened_view (Some (arc_value t.0).shared.key.key) readers numbers 0, []))) }
{
    let slots = lay(alloc, K as usize, usize::from(readers), first)?;
    let greatest = usize::from(last_index(K, LIVE));
    let words = vec![in alloc; 0u64; FIRST_INDEX_WORD + greatest + 1]?;
    let about = About {
        key,
        readers: u64::from(readers),
        numbers: u64::from(numbers),
    };
    let made: Result<(Board<Q, T, K, LIVE>, Place<Q, T>), _> = Table::new(
        alloc, &words, slots, &about,
    );
    let Ok((table, place)) = made else {
        return Err(OutOfMemory);
    };
    let board = Arc::new(alloc, table)?;
    Ok((board, place))
}

/// One seat for each reader, made of the control's.
fn seat_readers<Q, T: Lawful<Q> + Drop, const K: u64, const LIVE: u32>(
    alloc: Global,
    board: &Arc<Board<Q, T, K, LIVE>, Global>,
    place: &mut Place<Q, T>,
    readers: u8,
    numbers: u32,
) -> Result<Vec<ReaderSeat<Q, T, K, LIVE>>, OutOfMemory>
    requires table { (place.old.table_id ≡ (arc_value board.now).shared.table_id) × IsSized K LIVE place.old.table_id × (readers ≤ 64) }
    requires new { place.old.me ≡ (opened_view (Some (arc_value board.now).shared.key.key) readers numbers 0, []) }
    ensures seat { IfOk result (λ v. (place.new.table_id ≡ place.old.table_id) × (place.new.me ≡ (opened_view (Some (arc_value board.now).shared.key.key) readers numbers readers, []))) }
    ensures seats { IfOk result (λ v. AreFirstSeats place.old.table_id (arc_value board.now).shared.key.key readers v.items) }
{
    let mut seats = Vec::with_capacity(alloc, usize::from(readers))?;
    for index in 0..readers {
        let shared = Arc::try_clone(board)?;
        let seat = shared.shared.split_seat::<Open>(place);
        seats.push(ReaderSeat::seated(shared, seat, index))?;
    }
    Ok(seats)
}

/// Why no table was made.
#[derive(Clone, Copy, Debug, PartialEq, Eq, Error)]
pub enum StartError {
    /// There are 1 to 64 readers.
    #[error("the number of readers isn't from 1 to 64")]
    BadCount,
    /// No memory.
    #[error("out of memory")]
    OutOfMemory,
}

/// A table at version 0, with the control's seat and one for each reader, in order. `numbers`, at
/// most 1,048,576, is the greatest number that any version names. Each version's names have
/// distinct indexes, from 1 to the greatest index of `K` banks and `LIVE` targets, and version 0
/// names nothing.
pub fn start<Q: Drop, T: Lawful<Q> + Drop, const K: u64, const LIVE: u32>(
    alloc: Global,
    key: Q,
    readers: u8,
    numbers: u32,
    first: &Arc<T, Global>,
) -> Result<(ControlSeat<Q, T, K, LIVE>, Vec<ReaderSeat<Q, T, K, LIVE>>), StartError>
    requires banks { AreBanks K }
    requires targets { AreTargets LIVE }
    requires lawful { T.is_lawful key 0 (arc_value first.now) }
    requires names { NamesFit (last_index K LIVE) numbers (T.names key) }
    ensures count { OnOk result ((1 ≤ readers) × (readers ≤ 64)) }
    ensures bad_count { IfErr result (λ e. (e ≡ BadCount) ↔ ((readers ≡ 0) ⊎ (64 < readers))) }
    ensures control { IfOk result (λ t. (t.0.key ≡ key) × (t.0.own ≡ record (first_control readers numbers) { opened = readers }) × (t.0.steps ≡ [])) }
    ensures seats { IfOk result (λ t. AreFirstSeats t.0.table key readers t.1.items) }
{
    if readers == 0 || usize::from(readers) > READERS {
        return Err(StartError::BadCount);
    }
    let Ok((board, mut place)) = open(alloc, key, readers, numbers, first) else {
        return Err(StartError::OutOfMemory);
    };
    let Ok(seats) = seat_readers(alloc, &board, &mut place, readers, numbers) else {
        return Err(StartError::OutOfMemory);
    };
    let Ok(booked) = vec![in alloc; 0u64; numbers as usize + 1] else {
        return Err(StartError::OutOfMemory);
    };
    Ok((
        ControlSeat::seated(board, place, readers, numbers, booked),
        seats,
    ))
}
