//! The route table of a family.
ghost use Rattle.std.specs.Prelude.{◌≡◌, ◌<◌, ◌≤◌, All, IfOk, IsOk, IsTrue, OnOk, OnErr, [], length, slice_get, Some, option_copied};
ghost use Rattle.std.specs.List.Sorted.{IsStrictlySortedBy};
ghost use Rattle.std.specs.Map.{keys_of, values_of};
ghost use Rattle.prefix_width.specs.Limits.{AreTargets};
ghost use Rattle.prefix_width.specs.Order.{block_cmp};
ghost use Rattle.nhgrp_slots.specs.Spread.{IsSpread};
ghost use Rattle.nhgrp_slots.specs.Target.{IsTarget, target_cmp};
ghost use Rattle.rib_store.specs.Limits.{routes_max};
ghost use Rattle.rib_store.specs.Memory.{wants_none};
ghost use Rattle.rib_store.specs.Profile.{IsProfile};
ghost use Rattle.rib_store.specs.Table.{apply, paths_at};
ghost use Rattle.rib_store.specs.Targets.{AreClosed, LeadToLive, live};

use crate::OutOfMemory;
use crate::command::{Command, Reply};
use crate::routes::Routes;
use nhgrp_slots::{Paths, Target};
use prefix_width::Prefix;
use std::alloc::Global;
use std::collections::btree_map::Iter;
use std::marker::Model;

/// The profile in which a group keeps its layout when a path leaves.
const RESILIENT: u8 = 2;

/// The routes of a family in the order of their prefixes, and the profile by which commands change
/// them. At most `LIVE` targets are live, distinct nexthops and groups, and `LIVE` is 1 to 4,095.
#[derive(Drop)]
pub struct Rib<const W: u32, const LIVE: u32> {
    profile: u8,
    routes: Routes<W, LIVE>,
}

impl<const W: u32, const LIVE: u32> Model for Rib<W, LIVE> {
    ghost use Rattle.rib_store.specs.Profile.{IsProfile};
    ghost use Rattle.rib_store.specs.Table.{Profiled};

    ghost Value = { Profiled };

    ghost view = { λ r. record { profile = r.profile; rows = r.routes } };

    ghost invariant = { λ r. IsProfile r.profile };
}

impl<const W: u32, const LIVE: u32> Rib<W, LIVE> {
    /// The empty table of profile 1, with room for 1 to 4,095 live targets.
    pub fn new(alloc: Global) -> Rib<W, LIVE>
        requires { AreTargets LIVE }
        ensures { result ≡ record { profile = 1; rows = [] } }
    {
        Rib::with_profile(alloc, 1)
    }

    /// The empty table of a profile, with room for 1 to 4,095 live targets. In profile 1 the paths
    /// that are left of a group get the layout that their weights give. In profile 2 they keep
    /// their slots, as a resilient group does (`ip-nexthop(8)`).
    pub fn with_profile(alloc: Global, profile: u8) -> Rib<W, LIVE>
        requires targets { AreTargets LIVE }
        requires profile { IsProfile profile }
        ensures { result ≡ record { profile = profile; rows = [] } }
    {
        Rib {
            profile,
            routes: Routes::new(alloc),
        }
    }

    /// The profile, 1 or 2.
    pub fn profile(&self) -> u8
        ensures value { result ≡ self.now.profile }
        ensures range { IsProfile result }
    {
        self.profile
    }

    /// Does what a command asks. A refusal and want of memory leave the table as it was. Memory is
    /// never wanting where no paths are put in: for a delete without gateway, a flush, and what the
    /// table has no part in.
    pub fn apply(&mut self, alloc: Global, command: &Command<W>) -> Result<Reply, OutOfMemory>
        ensures profile { self.new.profile ≡ self.old.profile }
        ensures table { OnOk result (self.new.rows ≡ (apply self.old.profile LIVE self.old.rows command.now).table) }
        ensures reply { IfOk result (λ reply. reply ≡ (apply self.old.profile LIVE self.old.rows command.now).reply) }
        ensures err { OnErr result (self.new ≡ self.old) }
        ensures memory { IsTrue (wants_none command.now) → IsOk result }
    {
        let keeps = self.profile == RESILIENT;
        self.routes.apply(alloc, keeps, command)
    }

    /// How many routes there are, at most [`ROUTES_MAX`](crate::ROUTES_MAX), and what every table
    /// knows of its rows: their prefixes ascend strictly, and each has the paths of a route.
    pub fn len(&self) -> u32
        ensures count { result ≡ length self.now.rows }
        ensures most { result ≤ routes_max }
        ensures ascending { IsStrictlySortedBy block_cmp (keys_of self.now.rows) }
        ensures paths { All IsSpread (values_of self.now.rows) }
    {
        self.routes.len()
    }

    /// The paths of a prefix's route. None where the prefix has no route.
    pub fn get(&self, prefix: &Prefix<W>) -> Option<&Paths<W>>
        ensures { option_copied result ≡ paths_at self.now.rows prefix.now }
    {
        self.routes.get(prefix)
    }

    /// The route of a number, counted from 0 in prefix order. The number is below theirs.
    pub fn row(&self, n: u32) -> (&Prefix<W>, &Paths<W>)
        requires { n < length self.now.rows }
        ensures { slice_get self.now.rows n ≡ Some (result.0.now, result.1.now) }
    {
        self.routes.row(n)
    }

    /// The routes in prefix order.
    pub fn iter(&self) -> Iter<'_, Prefix<W>, Paths<W>>
        ensures { result ≡ self.now.rows }
    {
        self.routes.iter()
    }

    /// The live targets in their order: the distinct nexthops of all paths, then the distinct
    /// groups. There are at most `LIVE`, each nexthop of a group is one of them, and so is what each
    /// route leads to.
    pub fn targets(&self, alloc: Global) -> Result<Vec<Target<W>>, OutOfMemory>
        ensures live { IfOk result (λ v. v.items ≡ live self.now.rows) }
        ensures ascending { IfOk result (λ v. IsStrictlySortedBy target_cmp v.items) }
        ensures most { IfOk result (λ v. length v.items ≤ LIVE) }
        ensures targets { IfOk result (λ v. All IsTarget v.items) }
        ensures closed { IfOk result (λ v. AreClosed v.items) }
        ensures rows { IfOk result (λ v. LeadToLive v.items self.now.rows) }
    {
        self.routes.targets(alloc)
    }
}
