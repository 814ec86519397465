//! The indexes of one version.
use crate::OutOfMemory;
use crate::table::NameTable;
use nhgrp_slots::{Paths, Target};
use std::alloc::Global;
use std::marker::Model;
use std::sync::Arc;

/// The indexes of one version's live targets, from 1 to `K * (LIVE + 1) - 1`: one for each target,
/// and one target for each. Copies share them.
#[derive(Drop)]
pub struct Indexes<const W: u32, const K: u64, const LIVE: u32> {
    pub(crate) table: Arc<NameTable<W>>,
    pub(crate) fresh: Arc<Vec<u16>>,
}

impl<const W: u32, const K: u64, const LIVE: u32> Model for Indexes<W, K, LIVE> {
    ghost use Rattle.std.specs.Arc.{arc_value};
    ghost use Rattle.nhop_index.specs.Book.{Naming, AreIndexes};

    ghost Value = { Naming W };

    ghost view = { λ n. record { names = arc_value n.table; fresh = (arc_value n.fresh).items } };

    ghost invariant = { λ n. AreIndexes K LIVE (record { names = arc_value n.table; fresh = (arc_value n.fresh).items }) };
}

impl<const W: u32, const K: u64, const LIVE: u32> Indexes<W, K, LIVE> {
    ghost use Rattle.std.specs.Prelude.{◌≡◌, ◌<◌, IfOk, Some, length, slice_get, option_copied};
    ghost use Rattle.nhgrp_slots.specs.Target.{target_cmp, target_of};
    ghost use Rattle.nhop_index.specs.Indexes.{index_in, by_index, target_at};
    ghost use Rattle.nhop_index.specs.Book.{AreIndexes};

    /// The index of a target. `None` where the version hasn't it.
    pub fn index_of(&self, target: &Target<W>) -> Option<u16>
        ensures { result ≡ index_in target_cmp self.now.names target.now }
    {
        self.table.index_of(target)
    }

    /// The index of what a route with these paths leads to: of the nexthop of one path, of the list
    /// of several. No memory is taken.
    pub fn index_of_paths(&self, paths: &Paths<W>) -> Option<u16>
        ensures { result ≡ index_in target_cmp self.now.names (target_of paths.now) }
    {
        self.table.index_of_paths(paths)
    }

    /// The target of an index. `None` where the version hasn't it.
    pub fn target_of(&self, index: u16) -> Option<&Target<W>>
        ensures { option_copied result ≡ target_at self.now.names index }
    {
        self.table.target_of(index)
    }

    /// The indexes that the version before hadn't, ascending.
    pub fn fresh(&self) -> &[u16]
        ensures { result.now ≡ self.now.fresh }
    {
        &self.fresh
    }

    /// How many indexes are in use, and what every version knows of its indexes.
    pub fn len(&self) -> u16
        ensures count { result ≡ length (by_index self.now.names) }
        ensures indexes { AreIndexes K LIVE self.now }
    {
        self.table.len()
    }

    /// The index that `i` others are below, with its target. `i` is below their number.
    pub fn entry(&self, i: u16) -> (u16, &Target<W>)
        requires { i < length (by_index self.now.names) }
        ensures { slice_get (by_index self.now.names) i ≡ Some (result.0, result.1.now) }
    {
        self.table.entry(i)
    }

    /// Equal indexes, shared with these: nothing is copied.
    pub fn copy(&self, alloc: Global) -> Result<Indexes<W, K, LIVE>, OutOfMemory>
        ensures { IfOk result (λ n. n ≡ self.now) }
    {
        let _ = alloc;
        let table = Arc::try_clone(&self.table)?;
        let fresh = Arc::try_clone(&self.fresh)?;
        Ok(Indexes { table, fresh })
    }
}
