//! Tables whose versions give few indexes to three numbers, again and again.
ghost use Rattle.std.specs.Prelude.{◌≡◌, ◌+◌, ◌<◌, ◌≤◌, false, length, true, All, IfOk, IfSome};
ghost use Rattle.prefix_width.specs.Limits.{AreBanks, AreTargets, last_index};
ghost use Rattle.epoch_core.specs.Step.{has_index};
ghost use Rattle.epoch_core.specs.Turns.{is_turn, turns};

use crate::{ControlSeat, Lawful, OutOfMemory, ReaderSeat, start};
use std::alloc::Global;
use std::process::Abort;
use std::sync::Arc;

/// A number that is lawful for the version that it is. Of each `K` versions `N` name an index each,
/// one of 1 to `N` in turn, for a number of 1 to 3, in turn.
#[derive(Drop)]
pub(crate) struct Turn<const K: u64, const N: u64>(pub(crate) u64);

impl<const K: u64, const N: u64> Lawful<()> for Turn<K, N> {
    ghost is_lawful = { λ _ v x. v ≡ x.0 };

    ghost names = { λ _ v. turns K N v };
}

/// The control's seat at such a table.
pub(crate) type TurnControl<const K: u64, const N: u64, const LIVE: u32> = ControlSeat<
    (),
    Turn<K, N>,
    K,
    LIVE,
>;

/// A reader's seat.
pub(crate) type TurnReader<const K: u64, const N: u64, const LIVE: u32> = ReaderSeat<
    (),
    Turn<K, N>,
    K,
    LIVE,
>;

/// Whether the version names an index.
fn has_turn<const K: u64, const N: u64>(version: u64) -> bool
    requires { AreBanks K }
    ensures { result ≡ is_turn K N version }
{
    version > 0 && version % K < N
}

/// The index that the version names.
#[tactic(auto, using(crate::proofs::TurnLemmas::turn_named))]
pub(crate) fn index_of<const K: u64, const N: u64>(version: u64) -> Option<u16>
    requires { AreBanks K }
    ensures { IfSome result (λ index. has_index index (turns K N version) ≡ true) }
{
    if has_turn::<K, N>(version) {
        Some((1 + version % K) as u16)
    } else {
        None
    }
}

/// The index that the version names, with its number.
#[tactic(auto, using(crate::proofs::TurnLemmas::in_turn, crate::proofs::TurnLemmas::out_of_turn))]
fn names_of<const K: u64, const N: u64>(
    alloc: Global,
    version: u64,
) -> Result<Vec<(u16, u32)>, OutOfMemory>
    requires { AreBanks K }
    ensures { IfOk result (λ names. names.items ≡ turns K N version) }
{
    let mut names = Vec::new(alloc);
    if has_turn::<K, N>(version) {
        names.push(((1 + version % K) as u16, (1 + version % 3) as u32))?;
    }
    Ok(names)
}

/// A table of so many readers.
#[tactic(auto, using(crate::proofs::TurnLemmas::turn_fits))]
pub(crate) fn started<R: Abort, const K: u64, const N: u64, const LIVE: u32>(
    rt: &R,
    alloc: Global,
    readers: u8,
) -> (TurnControl<K, N, LIVE>, Vec<TurnReader<K, N, LIVE>>)
    requires banks { AreBanks K }
    requires targets { AreTargets LIVE }
    requires wide { N ≤ last_index K LIVE }
    ensures control { (result.0.own.readers ≡ readers) × (result.0.own.version ≡ 0) }
    ensures count { length result.1.items ≡ readers }
    ensures table { All (λ s. s.table ≡ result.0.table) result.1.items }
    ensures new { All (λ s. length s.own.hits ≡ 0) result.1.items }
{
    let first = Arc::new(alloc, Turn::<K, N>(0)).expect(rt, "memory");
    let Ok(seats) = start::<(), Turn<K, N>, K, LIVE>(alloc, (), readers, 3, &first) else {
        panic!(rt; "no table");
    };
    seats
}

/// Places the next version, and answers whether no reader held it up.
#[tactic(auto, using(crate::proofs::TurnLemmas::turn_fresh))]
pub(crate) fn try_turn<R: Abort, const K: u64, const N: u64, const LIVE: u32>(
    rt: &R,
    alloc: Global,
    control: &mut TurnControl<K, N, LIVE>,
) -> bool
    requires banks { AreBanks K }
    requires room { control.old.own.version < 1000000 }
    ensures placed { result ≡ true → control.new.own.version ≡ control.old.own.version + 1 }
    ensures held { result ≡ false → control.new.own.version ≡ control.old.own.version }
    ensures seat { (control.new.table ≡ control.old.table) × (control.new.own.readers ≡ control.old.own.readers) }
{
    let next = control.version() + 1;
    let image = Arc::new(alloc, Turn::<K, N>(next)).expect(rt, "memory");
    let fresh = names_of::<K, N>(alloc, next).expect(rt, "memory");
    let copies = control.prepare(alloc, &image, &fresh).expect(rt, "memory");
    control.try_place(copies).is_ok()
}
