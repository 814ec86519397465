//! The plan that a fib's images are of.
use engine_set::Image;
use epoch_core::{Lawful, ReaderSeat, Standing};
use rib_store::Plan;
use std::alloc::Global;
use std::marker::Model;
use std::sync::Arc;

/// What the table of a fib is for: its plan, which contracts see in its place. There are `K` banks,
/// and a table has room for `LIVE` live targets.
#[derive(Drop)]
pub struct FibKey<const W: u32, const K: u64, const LIVE: u32> {
    pub(crate) plan: Arc<Plan<W>, Global>,
}

impl<const W: u32, const K: u64, const LIVE: u32> Model for FibKey<W, K, LIVE> {
    ghost use Rattle.std.specs.Arc.{arc_value};
    ghost use Rattle.rib_store.specs.Plan.{Planned};

    ghost Value = { Planned W };

    ghost view = { λ key. arc_value key.plan };
}

impl<const W: u32, const K: u64, const LIVE: u32> Lawful<FibKey<W, K, LIVE>> for Image<W> {
    ghost use Rattle.fib_sync.specs.Lawful.{IsLawful};
    ghost use Rattle.fib_sync.specs.VersionNames.{names_at, pairs_at};

    ghost is_lawful = { λ plan v image. IsLawful LIVE plan (names_at K LIVE plan v) v image };

    ghost names = { λ plan v. pairs_at K LIVE plan v };
}

/// The seat of a pass outside.
pub(crate) type Outside<const W: u32, const K: u64, const LIVE: u32> = ReaderSeat<
    FibKey<W, K, LIVE>,
    Image<W>,
    K,
    LIVE,
>;

/// The seat of a pass inside.
pub(crate) type Within<const W: u32, const K: u64, const LIVE: u32> = Standing<
    FibKey<W, K, LIVE>,
    Image<W>,
    K,
    LIVE,
>;
