//! The routes of a table, with the counts of what they lead to.
ghost use Rattle.std.specs.Prelude.{Bool, ◌≡◌, ◌<◌, ◌≤◌, All, IfOk, IsOk, IsTrue, OnOk, OnErr, [], length, slice_get, Some, None, not, option_copied};
ghost use Rattle.std.specs.List.Sorted.{IsStrictlySortedBy};
ghost use Rattle.std.specs.Map.{keys_of, values_of};
ghost use Rattle.prefix_width.specs.Limits.{AreTargets};
ghost use Rattle.prefix_width.specs.Order.{block_cmp};
ghost use Rattle.nhgrp_slots.specs.Spread.{IsSpread, has_via};
ghost use Rattle.nhgrp_slots.specs.Target.{IsTarget, target_cmp};
ghost use Rattle.rib_store.specs.declared.command.Reply.TheVariants.{Added};
ghost use Rattle.rib_store.specs.Limits.{routes_max};
ghost use Rattle.rib_store.specs.Memory.{wants_none};
ghost use Rattle.rib_store.specs.Table.{Table, apply_by, settled, added, changed, replaced, deleted, flushed, paths_at};
ghost use Rattle.rib_store.specs.Targets.{AreClosed, LeadToLive, live};
ghost use Rattle.rib_store.specs.Uses.{IsRib};

use crate::OutOfMemory;
use crate::command::{Command, Refusal, Reply};
use crate::links::{Links, unlink_flushed};
use nhgrp_slots::{Paths, Target};
use prefix_width::{Addr, Path, Prefix};
use std::alloc::Global;
use std::collections::BTreeMap;
use std::collections::btree_map::Iter;
use std::marker::Model;
use std::mem;

/// How many routes a table may have.
pub const ROUTES_MAX: u32 = 262_144;

/// Routes in the order of their prefixes, with the counts of what they lead to. At most `LIVE`
/// targets are live, distinct nexthops and groups.
#[derive(Drop)]
pub struct Routes<const W: u32, const LIVE: u32> {
    routes: BTreeMap<Prefix<W>, Paths<W>>,
    links: Links<W>,
}

impl<const W: u32, const LIVE: u32> Model for Routes<W, LIVE> {
    ghost use Rattle.rib_store.specs.Table.{Table};
    ghost use Rattle.rib_store.specs.Uses.{IsRib};

    ghost Value = { Table };

    ghost view = { λ r. r.routes.entries };

    ghost invariant = { λ r. IsRib LIVE r.routes.entries r.links };
}

impl<const W: u32, const LIVE: u32> Routes<W, LIVE> {
    /// No routes, with room for 1 to 4,095 live targets.
    pub fn new(alloc: Global) -> Routes<W, LIVE>
        requires { AreTargets LIVE }
        ensures { result ≡ [] }
    {
        Routes {
            routes: BTreeMap::new(alloc),
            links: Links::new(alloc),
        }
    }

    /// Does what a command asks, where layouts of groups are kept or not.
    pub fn apply(
        &mut self,
        alloc: Global,
        keeps: bool,
        command: &Command<W>,
    ) -> Result<Reply, OutOfMemory>
        ensures table { OnOk result (self.new ≡ (apply_by keeps (settled LIVE) self.old command.now).table) }
        ensures reply { IfOk result (λ reply. reply ≡ (apply_by keeps (settled LIVE) self.old command.now).reply) }
        ensures err { OnErr result (self.new ≡ self.old) }
        ensures memory { IsTrue (wants_none command.now) → IsOk result }
    {
        match *command {
            Command::Add { prefix, path } => self.add(alloc, prefix, path),
            Command::Change { prefix, path } => self.change(alloc, prefix, path),
            Command::Delete { prefix, gateway } => self.delete(alloc, prefix, gateway, keeps),
            Command::Flush => Ok(self.flush()),
            Command::Tick { ms: _ } => Ok(Reply::Nothing),
            Command::Sync => Ok(Reply::Nothing),
            Command::Algo { setting: _ } => Ok(Reply::Nothing),
        }
    }

    /// How many routes there are, at most [`ROUTES_MAX`], and what is known of the rows: their
    /// prefixes ascend strictly, and each has the paths of a route.
    pub fn len(&self) -> u32
        ensures count { result ≡ length self.now }
        ensures most { result ≤ routes_max }
        ensures ascending { IsStrictlySortedBy block_cmp (keys_of self.now) }
        ensures paths { All IsSpread (values_of self.now) }
    {
        self.routes.len() as u32
    }

    /// The paths of a prefix's route. None where the prefix has no route.
    pub fn get(&self, prefix: &Prefix<W>) -> Option<&Paths<W>>
        ensures { option_copied result ≡ paths_at self.now prefix.now }
    {
        self.routes.get(prefix)
    }

    /// The route of a number, counted from 0 in prefix order. The number is below theirs.
    pub fn row(&self, n: u32) -> (&Prefix<W>, &Paths<W>)
        requires { n < length self.now }
        ensures { slice_get self.now n ≡ Some (result.0.now, result.1.now) }
    {
        match self.routes.iter().nth(n as usize) {
            Some((prefix, paths)) => (prefix, paths),
            None => unreachable!(),
        }
    }

    /// The routes in prefix order.
    pub fn iter(&self) -> Iter<'_, Prefix<W>, Paths<W>>
        ensures { result ≡ self.now }
    {
        self.routes.iter()
    }

    /// The live targets in their order: the distinct nexthops of all paths, then the distinct
    /// groups. There are at most `LIVE`, each nexthop of a group is one of them, and so is what each
    /// route leads to.
    pub fn targets(&self, alloc: Global) -> Result<Vec<Target<W>>, OutOfMemory>
        ensures live { IfOk result (λ v. v.items ≡ live self.now) }
        ensures ascending { IfOk result (λ v. IsStrictlySortedBy target_cmp v.items) }
        ensures most { IfOk result (λ v. length v.items ≤ LIVE) }
        ensures targets { IfOk result (λ v. All IsTarget v.items) }
        ensures closed { IfOk result (λ v. AreClosed v.items) }
        ensures rows { IfOk result (λ v. LeadToLive v.items self.now) }
    {
        let _live = self.links.live();
        self.links.targets(alloc)
    }

    /// Puts the paths in as the route of a prefix that has none, unless a limit forbids it. The links
    /// of the paths are made first and the row is put in last.
    fn put_new(
        &mut self,
        alloc: Global,
        prefix: Prefix<W>,
        paths: Paths<W>,
    ) -> Result<Reply, OutOfMemory>
        requires { paths_at self.old prefix ≡ None }
        ensures table { OnOk result (self.new ≡ (settled LIVE self.old prefix.entry paths.entry Added).table) }
        ensures reply { IfOk result (λ r. r ≡ (settled LIVE self.old prefix.entry paths.entry Added).reply) }
        ensures err { OnErr result (self.new ≡ self.old) }
    {
        let _list = paths.as_slice();
        let _live = self.links.live();
        if self.routes.len() >= ROUTES_MAX as usize {
            return Ok(Reply::Refused(Refusal::TableFull));
        }
        if self.links.passes(None, &paths, LIVE) {
            return Ok(Reply::Refused(Refusal::TargetsFull));
        }
        self.links.link(alloc, &paths)?;
        match self.routes.insert(prefix, paths) {
            Ok(None) => Ok(Reply::Added),
            Ok(Some(_)) => unreachable!(),
            Err(failed) => {
                let (_prefix, paths) = failed.value;
                self.links.unlink(&paths);
                Err(OutOfMemory)
            }
        }
    }

    /// Adds a path to the prefix's route, or the route where there is none.
    fn add(&mut self, alloc: Global, prefix: Prefix<W>, path: Path<W>) -> Result<Reply, OutOfMemory>
        ensures table { OnOk result (self.new ≡ (added (settled LIVE) self.old prefix.entry path.entry (paths_at self.old prefix.entry)).table) }
        ensures reply { IfOk result (λ r. r ≡ (added (settled LIVE) self.old prefix.entry path.entry (paths_at self.old prefix.entry)).reply) }
        ensures err { OnErr result (self.new ≡ self.old) }
    {
        match self.routes.get(&prefix) {
            None => {
                let paths = Paths::one(alloc, path)?;
                self.put_new(alloc, prefix, paths)
            }
            Some(present) => {
                if present.clashes(&path) {
                    return Ok(Reply::Refused(Refusal::Exists));
                }
                if present.len() >= 64 {
                    return Ok(Reply::Refused(Refusal::PathsFull));
                }
                let paths = present.with(alloc, path)?;
                replace::<W, LIVE>(
                    &mut self.routes,
                    &mut self.links,
                    alloc,
                    &prefix,
                    paths,
                    Reply::Joined,
                )
            }
        }
    }

    /// Puts one path in place of all paths of the prefix's route.
    fn change(
        &mut self,
        alloc: Global,
        prefix: Prefix<W>,
        path: Path<W>,
    ) -> Result<Reply, OutOfMemory>
        ensures table { OnOk result (self.new ≡ (changed (settled LIVE) self.old prefix.entry path.entry (paths_at self.old prefix.entry)).table) }
        ensures reply { IfOk result (λ r. r ≡ (changed (settled LIVE) self.old prefix.entry path.entry (paths_at self.old prefix.entry)).reply) }
        ensures err { OnErr result (self.new ≡ self.old) }
    {
        let paths = Paths::one(alloc, path)?;
        replace::<W, LIVE>(
            &mut self.routes,
            &mut self.links,
            alloc,
            &prefix,
            paths,
            Reply::Changed,
        )
    }

    /// Takes the prefix's route out, and its links, where there is one.
    fn drop_route(&mut self, prefix: &Prefix<W>) -> Reply
        ensures table { (keep : Bool) → self.new ≡ (deleted keep (settled LIVE) self.old prefix.now None (paths_at self.old prefix.now)).table }
        ensures reply { (keep : Bool) → result ≡ (deleted keep (settled LIVE) self.old prefix.now None (paths_at self.old prefix.now)).reply }
    {
        let _live = self.links.live();
        match self.routes.remove(prefix) {
            None => Reply::Refused(Refusal::NotFound),
            Some(gone) => {
                self.links.unlink(&gone);
                Reply::Deleted
            }
        }
    }

    /// Deletes the prefix's route or, where a gateway is given, its paths by that gateway.
    fn delete(
        &mut self,
        alloc: Global,
        prefix: Prefix<W>,
        gateway: Option<Addr<W>>,
        keeps: bool,
    ) -> Result<Reply, OutOfMemory>
        ensures table { OnOk result (self.new ≡ (deleted keeps (settled LIVE) self.old prefix.entry gateway.entry (paths_at self.old prefix.entry)).table) }
        ensures reply { IfOk result (λ r. r ≡ (deleted keeps (settled LIVE) self.old prefix.entry gateway.entry (paths_at self.old prefix.entry)).reply) }
        ensures err { OnErr result (self.new ≡ self.old) }
        ensures memory { gateway.entry ≡ None → IsOk result }
    {
        let Some(gateway) = gateway else {
            return Ok(self.drop_route(&prefix));
        };
        let Some(present) = self.routes.get(&prefix) else {
            return Ok(Reply::Refused(Refusal::NotFound));
        };
        if !present.goes_by(&gateway) {
            return Ok(Reply::Refused(Refusal::NotFound));
        }
        match present.without(alloc, &gateway, keeps)? {
            None => Ok(self.drop_route(&prefix)),
            Some(paths) => replace::<W, LIVE>(
                &mut self.routes,
                &mut self.links,
                alloc,
                &prefix,
                paths,
                Reply::Deleted,
            ),
        }
    }

    /// Takes out every route that has a path by a gateway. No memory is taken.
    fn flush(&mut self) -> Reply
        ensures table { self.new ≡ (flushed self.old).table }
        ensures reply { result ≡ (flushed self.old).reply }
    {
        let before = self.routes.len();
        unlink_flushed::<W, LIVE>(&mut self.links, &self.routes);
        self.routes.retain(
            |_prefix: &Prefix<W>, paths: &mut Paths<W>| -> bool
                ensures kept { result ≡ not (has_via paths.old) }
                ensures same { paths.new ≡ paths.old }
            { !paths.has_via() },
        );
        Reply::Flushed((before - self.routes.len()) as u32)
    }
}

/// Puts the paths in place of those of the prefix's route, unless there is no such route or there
/// would be too many live targets. The links of the new paths are made first.
fn replace<const W: u32, const LIVE: u32>(
    routes: &mut BTreeMap<Prefix<W>, Paths<W>>,
    links: &mut Links<W>,
    alloc: Global,
    prefix: &Prefix<W>,
    paths: Paths<W>,
    reply: Reply,
) -> Result<Reply, OutOfMemory>
    requires { IsRib LIVE routes.old.entries links.old }
    ensures rib { IsRib LIVE routes.new.entries links.new }
    ensures table { OnOk result (routes.new.entries ≡ (replaced (settled LIVE) routes.old.entries prefix.now paths.entry reply (paths_at routes.old.entries prefix.now)).table) }
    ensures reply { IfOk result (λ r. r ≡ (replaced (settled LIVE) routes.old.entries prefix.now paths.entry reply (paths_at routes.old.entries prefix.now)).reply) }
    ensures err { OnErr result (routes.new.entries ≡ routes.old.entries) }
{
    let _list = paths.as_slice();
    let _live = links.live();
    let Some(present) = routes.get_mut(prefix) else {
        return Ok(Reply::Refused(Refusal::NotFound));
    };
    if links.passes(Some(&*present), &paths, LIVE) {
        return Ok(Reply::Refused(Refusal::TargetsFull));
    }
    links.link(alloc, &paths)?;
    let old = mem::replace(present, paths);
    links.unlink(&old);
    Ok(reply)
}
