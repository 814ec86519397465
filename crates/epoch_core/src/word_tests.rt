//! Counts by index, with the sums by hand.
ghost use Rattle.std.specs.Prelude.{◌≡◌, ◌+◌, ◌<◌, ◌≤◌, length};
ghost use Rattle.prefix_width.specs.Limits.{AreBanks, AreTargets, last_index};

use crate::test_turns::{TurnControl, TurnReader, index_of, started, try_turn};
use std::alloc::Global;
use std::process::Abort;
use std::test::Fail;

/// Enters, makes so many hits at the index of the version in hand, if it names one, and leaves.
/// Answers the version. Meanwhile the next one is placed.
fn hit_beside<R: Abort, const K: u64, const LIVE: u32>(
    rt: &R,
    alloc: Global,
    control: &mut TurnControl<K, 2, LIVE>,
    seat: TurnReader<K, 2, LIVE>,
    hits: u64,
) -> (TurnReader<K, 2, LIVE>, u64)
    requires banks { AreBanks K }
    requires next { control.old.own.version < 1000000 }
    requires room { length seat.own.hits + hits ≤ 16777216 }
    ensures seat { result.0.table ≡ seat.entry.table }
    ensures hits { length result.0.own.hits ≤ length seat.entry.own.hits + hits }
    ensures control { (control.new.table ≡ control.old.table) × (control.new.own.readers ≡ control.old.own.readers) }
    ensures version { control.new.own.version ≡ control.old.own.version + 1 }
{
    let mut standing = seat.enter();
    let version = standing.version();
    if !try_turn(rt, alloc, control) {
        panic!(rt; "held");
    }
    if let Some(index) = index_of::<K, 2>(version) {
        for _made in 0..hits {
            let _number = standing.hit(index);
        }
    }
    (standing.leave(), version)
}

/// Makes one hit at version 1, two at version 2 and so on to version 9, and answers the counts at
/// close.
fn count_turns<R: Abort, const K: u64, const LIVE: u32>(rt: &R, alloc: Global) -> Vec<(u32, u64)>
    requires banks { AreBanks K }
    requires targets { AreTargets LIVE }
    requires wide { 2 ≤ last_index K LIVE }
{
    let (mut control, mut seats) = started::<R, K, 2, LIVE>(rt, alloc, 1);
    let mut seat = seats.pop().expect(rt, "a seat");
    for hits in 0..10u64 {
        let (left, version) = hit_beside(rt, alloc, &mut control, seat, hits);
        assert_eq!(rt; version, hits);
        seat = left;
    }
    seats.push(seat).expect(rt, "memory");
    let Ok(closed) = control.close(alloc, seats) else {
        panic!(rt; "not closed");
    };
    assert_eq!(rt; closed.version, 10);
    closed.counts
}

#[test]
fn counts_are_exact_while_two_indexes_are_given_again(rt: HostRuntime) -> Result<(), Fail> {
    let alloc: Global = rt.alloc();
    // A version names an index where it is 0 or 1 mod K, and the v hits at version v are at number
    // 1 + v mod 3. So 2 banks have hits at each version, 4 at 1, 4, 5, 8 and 9, 8 at 1, 8 and 9.
    let rows = [
        (
            count_turns::<_, 2, 1>(&rt, alloc),
            [(1, 3 + 6 + 9), (2, 1 + 4 + 7), (3, 2 + 5 + 8u64)],
        ),
        (
            count_turns::<_, 4, 2047>(&rt, alloc),
            [(1, 9), (2, 1 + 4), (3, 5 + 8)],
        ),
        (
            count_turns::<_, 8, 4095>(&rt, alloc),
            [(1, 9), (2, 1), (3, 8)],
        ),
    ];
    for (counts, by_hand) in rows {
        assert_eq!(rt; counts.as_slice(), by_hand.as_slice());
    }
    Ok(())
}
