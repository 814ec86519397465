//! What each step on the table tells.
ghost use Rattle.std.specs.Prelude.{None, []};
ghost use Rattle.std.specs.Arc.{arc_value};
ghost use Rattle.epoch_core.specs.declared.view.Role.TheVariants.{Spent};
ghost use Rattle.epoch_core.specs.Rule.{at_key, names_at_key};
ghost use Rattle.epoch_core.specs.Plays.{looks, hits, reassigns, tallies, announces, enters, leaves, scans, publishes, seating, seated, telling_view, noted, learnt_view, ending_view, closes, in_role, as_new};
ghost use Rattle.prefix_width.specs.Limits.{last_index};

use crate::board::Lawful;
use crate::view::View;
use atomic_table::{Join, Play, Split};
use std::alloc::Global;
use std::marker::PhantomData;
use std::sync::Arc;

/// A reader loads the published version.
pub(crate) struct Look;

impl<Q, C> Play<Option<C>, View<Q>> for Look {
    ghost then = { λ _. looks };
}

/// A reader announces the version that it looked at last.
pub(crate) struct Announce;

impl<Q, C> Play<Option<C>, View<Q>> for Announce {
    ghost then = { λ _ m _ m'. announces m m' };
}

/// A reader loads the published version and takes its place there.
pub(crate) struct Enter<T, const K: u64, const LIVE: u32> {
    value: PhantomData<T>,
}

impl<Q, T: Lawful<Q>, const K: u64, const LIVE: u32> Play<Option<Arc<T, Global>>, View<Option<Q>>>
    for Enter<T, K, LIVE> {
    ghost then = { λ _. enters (at_key (λ q v c. T.is_lawful q v (arc_value c))) (names_at_key T.names) K (last_index K LIVE) };
}

/// A reader gives its place back and announces nothing any more.
pub(crate) struct Leave;

impl<Q, C> Play<Option<C>, View<Q>> for Leave {
    ghost then = { λ _ m _ m'. leaves m m' };
}

/// A reader counts one packet on an index word.
pub(crate) struct Hit<T> {
    value: PhantomData<T>,
}

impl<Q, T: Lawful<Q>> Play<Option<Arc<T, Global>>, View<Option<Q>>> for Hit<T> {
    ghost then = { λ t. hits (names_at_key T.names) t.word };
}

/// The control gives an index word to a number.
pub(crate) struct Reassign;

impl<Q, C> Play<Option<C>, View<Q>> for Reassign {
    ghost then = { λ t. reassigns t.word t.first };
}

/// The control loads a reader's announcement, and takes the reader's place if it may.
pub(crate) struct Scan<T, const K: u64> {
    value: PhantomData<T>,
}

impl<Q, T: Lawful<Q>, const K: u64> Play<Option<Arc<T, Global>>, View<Option<Q>>> for Scan<T, K> {
    ghost then = { λ _. scans (at_key (λ q v c. T.is_lawful q v (arc_value c))) K };
}

/// The control gives the places back and publishes.
pub(crate) struct Publish<T> {
    value: PhantomData<T>,
}

impl<Q, T: Lawful<Q>> Play<Option<Arc<T, Global>>, View<Option<Q>>> for Publish<T> {
    ghost then = { λ _ m _ m'. publishes (names_at_key T.names) m m' };
}

/// The control tallies an index word.
pub(crate) struct Tally;

impl<Q, C> Play<Option<C>, View<Q>> for Tally {
    ghost then = { λ t. tallies t.word };
}

/// The control makes a note.
pub(crate) struct Tell;

impl<Q> Split<View<Q>> for Tell {
    ghost left = { telling_view };

    ghost right = { as_new noted };
}

/// A reader takes a note in.
pub(crate) struct Learn;

impl<Q> Join<View<Option<Q>>> for Learn {
    ghost both = { learnt_view };

    ghost spent = { record { key = None; role = Spent; steps = [] } };
}

/// The control makes a reader's seat.
pub(crate) struct Open;

impl<Q> Split<View<Q>> for Open {
    ghost left = { in_role seating };

    ghost right = { as_new seated };
}

/// The control takes a reader's seat in.
pub(crate) struct End;

impl<Q> Join<View<Option<Q>>> for End {
    ghost both = { ending_view };

    ghost spent = { record { key = None; role = Spent; steps = [] } };
}

/// The control, which has taken seats in, loads the published version.
pub(crate) struct Close<const K: u64, const LIVE: u32>;

impl<Q, C, const K: u64, const LIVE: u32> Play<Option<C>, View<Q>> for Close<K, LIVE> {
    ghost then = { λ _. closes K (last_index K LIVE) };
}
