//! How often nexthops and groups are used by routes.
ghost use Rattle.std.specs.Prelude.{◌≡◌, ℕ, ◌+◌, ◌-◌, ◌<◌, ◌≤◌, ◌^◌, [], length, OnOk, OnErr, ◌++◌};
ghost use Rattle.rib_store.specs.Targets.{ones, manies};
ghost use Rattle.prefix_width.specs.Nexthop.{Hop};
ghost use Rattle.prefix_width.specs.Order.{hop_cmp};
ghost use Rattle.nhgrp_slots.specs.PathList.{hops};
ghost use Rattle.counted_map.specs.Counts.{count_of, linked_all, unlinked_all, times};
ghost use Rattle.rib_store.specs.Table.{left_by_flush};
ghost use Rattle.rib_store.specs.Uses.{IsRib};

use crate::OutOfMemory;
use nhgrp_slots::{GroupTable, Paths, Target};
use nhop_table::NhopTable;
use prefix_width::{Nexthop, Path, Prefix};
use std::alloc::Global;
use std::collections::BTreeMap;
use std::marker::Model;

/// How often each nexthop and each group is used.
#[derive(Drop)]
pub struct Links<const W: u32> {
    nhops: NhopTable<W>,
    groups: GroupTable<W>,
}

impl<const W: u32> Model for Links<W> {
    ghost use Rattle.rib_store.specs.Uses.{Uses};

    ghost Value = { Uses };

    ghost view = { λ l. record { nhops = l.nhops; groups = l.groups } };
}

impl<const W: u32> Links<W> {
    ghost use Rattle.std.specs.Prelude.{◌≡◌, ℕ, ◌+◌, ◌-◌, ◌<◌, ◌≤◌, ◌^◌, [], length, OnOk, OnErr, ◌&&◌, ◌==◌, not, option_copied, IfOk};
    ghost use Rattle.std.specs.Bool.{OnTrue, OnFalse};
    ghost use Rattle.std.specs.Map.{keys_of};
    ghost use Rattle.rib_store.specs.Targets.{targets_of};
    ghost use Rattle.counted_map.specs.Counts.{count_of, linked_all, unlinked_all};
    ghost use Rattle.prefix_width.specs.Order.{hop_cmp};
    ghost use Rattle.nhgrp_slots.specs.Order.{spread_cmp};
    ghost use Rattle.rib_store.specs.Uses.{Uses, AreCounts, HasPaths, HasRoom, with_paths, without_paths, without_old, HasOld, live_in, grown, shrunk};
    ghost use Rattle.nhgrp_slots.specs.Spread.{is_group};

    /// No route is counted.
    pub fn new(alloc: Global) -> Links<W>
        ensures { result ≡ record { nhops = []; groups = [] } }
    {
        Links {
            nhops: NhopTable::new(alloc),
            groups: GroupTable::new(alloc),
        }
    }

    /// How many targets are live, and what every such value knows of its counts.
    pub fn live(&self) -> u32
        requires { live_in self.now < 2 ^ 32 }
        ensures size { result ≡ live_in self.now }
        ensures counts { AreCounts self.now }
    {
        self.nhops.live() + self.groups.live()
    }

    /// Whether the nexthops gain a use with a route of these paths.
    fn gains(&self, paths: &Paths<W>) -> bool
        ensures { result ≡ not (is_group paths.now && not (count_of spread_cmp self.now.groups paths.now == 0)) }
    {
        paths.len() < 2 || self.groups.count(paths) == 0
    }

    /// The nexthop's count with a route of these paths, by whether nexthops gain a use with it.
    fn count_with(&self, nexthop: &Nexthop<W>, paths: &Paths<W>, gains: bool) -> u32
        requires count { count_of hop_cmp self.now.nhops nexthop.now < 1000000 }
        requires gains { gains ≡ not (is_group paths.now && not (count_of spread_cmp self.now.groups paths.now == 0)) }
        ensures { result ≡ count_of hop_cmp (with_paths self.now paths.now).nhops nexthop.now }
    {
        let count = self.nhops.count(nexthop);
        let _list = paths.as_slice();
        if !gains {
            return count;
        }
        if paths.has_nexthop(nexthop) {
            count + 1
        } else {
            count
        }
    }

    /// The group's count with a route of these paths.
    fn group_count_with(&self, group: &Paths<W>, paths: &Paths<W>) -> u32
        requires { count_of spread_cmp self.now.groups group.now < 1000000 }
        ensures { result ≡ count_of spread_cmp (with_paths self.now paths.now).groups group.now }
    {
        let count = self.groups.count(group);
        if paths.len() < 2 {
            return count;
        }
        if group == paths { count + 1 } else { count }
    }

    /// How many targets come to life with a route of these paths.
    fn grown(&self, paths: &Paths<W>) -> u32
        ensures grown { result ≡ grown self.now paths.now }
        ensures bound { result ≤ 65 }
    {
        if !self.gains(paths) {
            return 0;
        }
        let mut fresh = 0;
        for path in paths.as_slice() {
            if self.nhops.count(path.nexthop()) == 0 {
                fresh += 1;
            }
        }
        if paths.len() < 2 { fresh } else { fresh + 1 }
    }

    /// How many targets end with a route of the old paths, once there is one of the new.
    fn shrunk_after(&self, new: &Paths<W>, old: &Paths<W>) -> u32
        requires { HasRoom self.now }
        ensures shrunk { result ≡ shrunk (with_paths self.now new.now) old.now }
    {
        if old.len() >= 2 && self.group_count_with(old, new) != 1 {
            return 0;
        }
        let gains = self.gains(new);
        let mut gone = 0;
        for path in old.as_slice() {
            if self.count_with(path.nexthop(), new, gains) == 1 {
                gone += 1;
            }
        }
        if old.len() < 2 { gone } else { gone + 1 }
    }

    /// How many targets are live once a route has the new paths in place of the old.
    fn live_after(&self, old: Option<&Paths<W>>, new: &Paths<W>) -> u32
        requires room { HasRoom self.now }
        requires old { HasOld (with_paths self.now new.now) (option_copied old) }
        ensures { result ≡ live_in (without_old (with_paths self.now new.now) (option_copied old.entry)) }
    {
        let _list = new.as_slice();
        let all = self.live() + self.grown(new);
        match old {
            None => all,
            Some(old) => {
                let _list = old.as_slice();
                all - self.shrunk_after(new, old)
            }
        }
    }

    /// Whether more targets than the limit are live once a route has the new paths in place of the
    /// old. They are counted only where the limit is near.
    pub fn passes(&self, old: Option<&Paths<W>>, new: &Paths<W>, limit: u32) -> bool
        requires room { HasRoom self.now }
        requires old { HasOld (with_paths self.now new.now) (option_copied old) }
        ensures over { OnTrue result (limit < live_in (without_old (with_paths self.now new.now) (option_copied old.entry))) }
        ensures within { OnFalse result (live_in (without_old (with_paths self.now new.now) (option_copied old.entry)) ≤ limit) }
    {
        if self.live() + u32::from(new.len()) < limit {
            return false;
        }
        self.live_after(old, new) > limit
    }

    /// The live targets, in order.
    pub fn targets(&self, alloc: Global) -> Result<Vec<Target<W>>, OutOfMemory>
        ensures { IfOk result (λ v. v.items ≡ targets_of (keys_of self.now.nhops) (keys_of self.now.groups)) }
    {
        let nhops = self.nhops.list(alloc)?;
        let groups = self.groups.list(alloc)?;
        let mut targets = Vec::new(alloc);
        push_nexthops(&mut targets, &nhops)?;
        push_groups(&mut targets, groups)?;
        Ok(targets)
    }

    /// One more route has the paths.
    pub fn link(&mut self, alloc: Global, paths: &Paths<W>) -> Result<(), OutOfMemory>
        requires { HasRoom self.old }
        ensures ok { OnOk result (self.new ≡ with_paths self.old paths.now) }
        ensures err { OnErr result (self.new ≡ self.old) }
    {
        if paths.len() < 2 {
            return link_all(&mut self.nhops, paths.as_slice());
        }
        if self.groups.increase(paths) {
            return Ok(());
        }
        let _live = self.nhops.live();
        link_all(&mut self.nhops, paths.as_slice())?;
        match self.groups.insert(alloc, paths) {
            Ok(()) => Ok(()),
            Err(error) => {
                unlink_all(&mut self.nhops, paths.as_slice());
                Err(error)
            }
        }
    }

    /// One route less has the paths.
    pub fn unlink(&mut self, paths: &Paths<W>)
        requires { HasPaths self.old paths.now }
        ensures { self.new ≡ without_paths self.old paths.now }
    {
        if paths.len() < 2 {
            unlink_all(&mut self.nhops, paths.as_slice());
            return;
        }
        if self.groups.release(paths) {
            unlink_all(&mut self.nhops, paths.as_slice());
        }
    }
}

/// One more use of the nexthop of each path.
fn link_all<const W: u32>(nhops: &mut NhopTable<W>, paths: &[Path<W>]) -> Result<(), OutOfMemory>
    requires count { (h : Hop) → count_of hop_cmp nhops.old h + length paths.now < 2 ^ 32 - 1 }
    requires size { length nhops.old + length paths.now < 2 ^ 32 - 1 }
    ensures ok { OnOk result (nhops.new ≡ linked_all hop_cmp nhops.old (hops paths.now)) }
    ensures err { OnErr result (nhops.new ≡ nhops.old) }
{
    let _live = nhops.live();
    for i in 0..paths.len() {
        if let Err(error) = nhops.link(paths[i].nexthop()) {
            unlink_all(nhops, &paths[..i]);
            return Err(error);
        }
    }
    Ok(())
}

/// One use less of the nexthop of each path.
fn unlink_all<const W: u32>(nhops: &mut NhopTable<W>, paths: &[Path<W>])
    requires { (h : Hop) → times hop_cmp h (hops paths.now) ≤ count_of hop_cmp nhops.old h }
    ensures { nhops.new ≡ unlinked_all hop_cmp nhops.old (hops paths.now) }
{
    let _live = nhops.live();
    for path in paths {
        nhops.unlink(path.nexthop());
    }
}

/// Pushes nexthops as targets.
fn push_nexthops<const W: u32>(
    targets: &mut Vec<Target<W>>,
    nhops: &[Nexthop<W>],
) -> Result<(), OutOfMemory>
    ensures { OnOk result (targets.new.items ≡ targets.old.items ++ ones nhops.now) }
{
    for nexthop in nhops {
        targets.push(Target::One(*nexthop))?;
    }
    Ok(())
}

/// Pushes groups as targets.
fn push_groups<const W: u32>(
    targets: &mut Vec<Target<W>>,
    groups: Vec<Paths<W>>,
) -> Result<(), OutOfMemory>
    ensures { OnOk result (targets.new.items ≡ targets.old.items ++ manies groups.entry.items) }
{
    for group in groups {
        targets.push(Target::Many(group))?;
    }
    Ok(())
}

/// Undoes the links of the routes that a flush takes out.
pub fn unlink_flushed<const W: u32, const LIVE: u32>(
    links: &mut Links<W>,
    routes: &BTreeMap<Prefix<W>, Paths<W>>,
)
    requires { IsRib LIVE routes.now.entries links.old }
    ensures { IsRib LIVE (left_by_flush routes.now.entries) links.new }
{
    let _live = links.live();
    for (prefix, paths) in routes.iter() {
        let _prefix = prefix;
        if paths.has_via() {
            links.unlink(paths);
        }
    }
}
