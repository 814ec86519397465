//! What the control prepares before it publishes.
ghost use Rattle.std.specs.Prelude.{List};

use std::alloc::Global;
use std::marker::Model;
use std::sync::Arc;

/// A handle of one value for each reader, and the pairs of an index and a number that the version
/// names anew. Contracts see the values of the handles, and the pairs.
#[derive(Drop)]
pub struct Copies<T: Drop, const K: u64, const LIVE: u32> {
    pub(crate) handles: Vec<Arc<T, Global>>,
    pub(crate) fresh: Vec<(u16, u32)>,
}

impl<T: Drop, const K: u64, const LIVE: u32> Model for Copies<T, K, LIVE> {
    ghost use Rattle.std.specs.Prelude.{map};
    ghost use Rattle.std.specs.Arc.{arc_value};
    ghost use Rattle.epoch_core.specs.Copied.{Copied};

    ghost Value = { Copied T };

    ghost view = { λ c. record { values = map (λ x. arc_value x) c.handles.items; fresh = c.fresh.items } };
}

/// A reader that stands at an old version holds the next one up.
#[derive(Drop)]
pub struct Held<T: Drop, const K: u64, const LIVE: u32> {
    /// The reader's number.
    pub reader: u8,
    /// Its announcement: the version that it announces, plus 1.
    pub stands: u64,
    /// The copies that were to be placed.
    pub copies: Copies<T, K, LIVE>,
}
