//! The index words: how the control gives them to numbers, and how it counts their hits at the end.
ghost use Rattle.std.specs.Prelude.{◌≡◌, ◌+◌, ◌*◌, ◌<◌, ◌≤◌, ◌∷◌, ◌==◌, ℕ, [], List, length, map, vec_len, vec_capacity, false, slice_index_or};
ghost use Rattle.std.specs.Arc.{arc_value};
ghost use Rattle.prefix_width.specs.Limits.{last_index};
ghost use Rattle.epoch_core.specs.Counts.{IsCounted, from_greatest, rising_counts};
ghost use Rattle.epoch_core.specs.Fresh.{IsFresh, latest_first};
ghost use Rattle.epoch_core.specs.History.{OneMore, ReassignSteps};
ghost use Rattle.epoch_core.specs.SeatViews.{IsBooked};
ghost use Rattle.epoch_core.specs.Sound.{IsRecent};
ghost use Rattle.epoch_core.specs.Step.{has_index};
ghost use Rattle.epoch_core.specs.Rule.{names_at_key, control_own, IsSized};
ghost use Rattle.epoch_core.specs.declared.event.Event.TheVariants as event;
ghost use Rattle.epoch_core.specs.declared.view.Role.TheVariants.{Control};

use crate::board::{FIRST_INDEX_WORD, Lawful, NUMBER, Place, Top};
use crate::plays::{Reassign, Tally};

/// Gives the word of this index to the number, and books the count that it had under the number
/// that it carried.
fn reassign<Q, T: Lawful<Q> + Drop, const K: u64, const LIVE: u32>(
    top: &Top<Q, T, K, LIVE>,
    place: &mut Place<Q, T>,
    booked: &mut [u64],
    index: u16,
    number: u32,
)
    requires table { (place.old.table_id ≡ top.now.table_id) × IsSized K LIVE place.old.table_id }
    requires role { place.old.me.0.role ≡ Control (control_own place.old) }
    requires passed { (control_own place.old).passed ≡ (control_own place.old).readers }
    requires index { (0 < index) × (index ≤ last_index K LIVE) × (number ≤ (control_own place.old).numbers) }
    requires free { (u : ℕ) → IsRecent K (control_own place.old).version u → has_index index (names_at_key T.names place.old.me.0.key u) ≡ false }
    requires once { has_index index (control_own place.old).done ≡ false }
    requires untallied { (control_own place.old).tallied ≡ [] }
    requires books { IsBooked (control_own place.old) booked.old }
    ensures seat { (place.new.table_id ≡ place.old.table_id) × (place.new.me.1 ≡ place.old.me.1) × (place.new.me.0.key ≡ place.old.me.0.key) }
    ensures role { place.new.me.0.role ≡ Control (control_own place.new) }
    ensures own { control_own place.new ≡ record (control_own place.old) { done = (index, number) ∷ (control_own place.old).done; booked = (control_own place.new).booked } }
    ensures books { IsBooked (control_own place.new) booked.new }
    ensures step { (found : ℕ) × OneMore place.old.me.0.steps (event.Reassign index number) found place.new.me.0.steps }
{
    let word = FIRST_INDEX_WORD + usize::from(index);
    let found = top.swap::<Reassign>(place, word, u64::from(number) * NUMBER);
    let old = (found / NUMBER) as usize;
    booked[old] += found % NUMBER;
}

/// Gives the word of each of these indexes to its number, in order.
pub(crate) fn reassign_all<Q, T: Lawful<Q> + Drop, const K: u64, const LIVE: u32>(
    top: &Top<Q, T, K, LIVE>,
    place: &mut Place<Q, T>,
    booked: &mut [u64],
    fresh: &[(u16, u32)],
)
    requires table { (place.old.table_id ≡ top.now.table_id) × IsSized K LIVE place.old.table_id }
    requires role { place.old.me.0.role ≡ Control (control_own place.old) }
    requires passed { ((control_own place.old).passed ≡ (control_own place.old).readers) × ((control_own place.old).done ≡ []) }
    requires untallied { (control_own place.old).tallied ≡ [] }
    requires fresh { IsFresh K (last_index K LIVE) (control_own place.old).numbers (control_own place.old).version (names_at_key T.names place.old.me.0.key) fresh.now }
    requires books { IsBooked (control_own place.old) booked.old }
    ensures seat { (place.new.table_id ≡ place.old.table_id) × (place.new.me.1 ≡ place.old.me.1) × (place.new.me.0.key ≡ place.old.me.0.key) }
    ensures role { place.new.me.0.role ≡ Control (control_own place.new) }
    ensures own { control_own place.new ≡ record (control_own place.old) { done = latest_first fresh.now []; booked = (control_own place.new).booked } }
    ensures books { IsBooked (control_own place.new) booked.new }
    ensures steps { ReassignSteps place.old.me.0.steps (latest_first fresh.now []) place.new.me.0.steps }
{
    for next in 0..fresh.len() {
        let (index, number) = fresh[next];
        reassign(top, place, booked, index, number);
    }
}

/// Adds what the word of this index counts to the number that it carries.
fn tally<Q, T: Lawful<Q> + Drop, const K: u64, const LIVE: u32>(
    top: &Top<Q, T, K, LIVE>,
    place: &mut Place<Q, T>,
    counts: &mut [u64],
    index: usize,
)
    requires table { (place.old.table_id ≡ top.now.table_id) × IsSized K LIVE place.old.table_id }
    requires role { place.old.me.0.role ≡ Control (control_own place.old) }
    requires ended { (control_own place.old).readers ≤ length (control_own place.old).ended }
    requires index { (index ≤ last_index K LIVE) × (index < 65536) }
    requires tallied { map (λ c. c.0) (control_own place.old).tallied ≡ from_greatest index }
    requires counts { IsCounted (control_own place.old) counts.old }
    ensures seat { (place.new.table_id ≡ place.old.table_id) × (place.new.me.1 ≡ place.old.me.1) × (place.new.me.0.key ≡ place.old.me.0.key) × (place.new.me.0.steps ≡ place.old.me.0.steps) }
    ensures role { place.new.me.0.role ≡ Control (control_own place.new) }
    ensures own { control_own place.new ≡ record (control_own place.old) { tallied = (control_own place.new).tallied } }
    ensures tallied { map (λ c. c.0) (control_own place.new).tallied ≡ from_greatest (index + 1) }
    ensures counts { IsCounted (control_own place.new) counts.new }
{
    let found = top.load::<Tally>(place, FIRST_INDEX_WORD + index);
    let number = (found / NUMBER) as usize;
    counts[number] += found % NUMBER;
}

/// Adds what the words of all indexes count to the numbers that they carry.
pub(crate) fn tally_all<Q, T: Lawful<Q> + Drop, const K: u64, const LIVE: u32>(
    top: &Top<Q, T, K, LIVE>,
    place: &mut Place<Q, T>,
    counts: &mut [u64],
    words: usize,
)
    requires table { (place.old.table_id ≡ top.now.table_id) × IsSized K LIVE place.old.table_id }
    requires role { place.old.me.0.role ≡ Control (control_own place.old) }
    requires ended { (control_own place.old).readers ≤ length (control_own place.old).ended }
    requires words { (words ≡ last_index K LIVE + 1) × (words ≤ 65536) }
    requires untallied { (control_own place.old).tallied ≡ [] }
    requires books { IsBooked (control_own place.old) counts.old }
    ensures seat { (place.new.table_id ≡ place.old.table_id) × (place.new.me.1 ≡ place.old.me.1) × (place.new.me.0.key ≡ place.old.me.0.key) × (place.new.me.0.steps ≡ place.old.me.0.steps) }
    ensures role { place.new.me.0.role ≡ Control (control_own place.new) }
    ensures own { control_own place.new ≡ record (control_own place.old) { tallied = (control_own place.new).tallied } }
    ensures tallied { map (λ c. c.0) (control_own place.new).tallied ≡ from_greatest (last_index K LIVE + 1) }
    ensures counts { IsCounted (control_own place.new) counts.new }
{
    for index in 0..words {
        tally(top, place, counts, index);
    }
}

/// Each number that has hits, with how many, by rising number. The list has room for all.
pub(crate) fn gather(counts: &[u64], mut list: Vec<(u32, u64)>) -> Vec<(u32, u64)>
    requires empty { list.items ≡ [] }
    requires room { (length counts.now ≤ vec_capacity list) × (length counts.now ≤ 4294967296) }
    ensures { result.items ≡ rising_counts (λ p. slice_index_or counts.now p 0) (length counts.now) }
{
    for number in 0..counts.len() {
        let count = counts[number];
        if count > 0 {
            list.push((number as u32, count)).unwrap();
        }
    }
    list
}
