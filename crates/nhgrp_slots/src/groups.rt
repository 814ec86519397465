//! How often each group is used.
use crate::OutOfMemory;
use crate::paths::Paths;
use counted_map::CountedMap;
use std::alloc::Global;
use std::marker::Model;

/// How often each group is used, seen as the groups in their order, each with its count. A group
/// is two paths or more with their layout.
#[derive(Drop)]
pub struct GroupTable<const W: u32> {
    counts: CountedMap<Paths<W>>,
}

impl<const W: u32> Model for GroupTable<W> {
    ghost use Rattle.std.specs.Prelude.{All};
    ghost use Rattle.std.specs.Map.{keys_of};
    ghost use Rattle.counted_map.specs.Counts.{Counts};
    ghost use Rattle.nhgrp_slots.specs.Spread.{IsGroup, Spread};

    ghost Value = { Counts Spread };

    ghost view = { λ t. t.counts };

    ghost invariant = { λ t. All IsGroup (keys_of t.counts) };
}

impl<const W: u32> GroupTable<W> {
    ghost use Rattle.std.specs.Prelude.{◌≡◌, ◌-◌, ◌<◌, ◌≤◌, ◌^◌, ◌==◌, ◌↔◌, [], length, All, IsTrue, OnOk, OnErr, IfOk, IsOk};
    ghost use Rattle.std.specs.Bool.{OnTrue, OnFalse};
    ghost use Rattle.std.specs.Map.{keys_of};
    ghost use Rattle.counted_map.specs.Counts.{count_of, linked, unlinked, IsCounts};
    ghost use Rattle.nhgrp_slots.specs.Order.{spread_cmp};
    ghost use Rattle.nhgrp_slots.specs.Spread.{IsGroup};

    /// No group is used.
    pub fn new(alloc: Global) -> Self
        ensures { result ≡ [] }
    {
        GroupTable {
            counts: CountedMap::new(alloc),
        }
    }

    /// Counts one more use of the group. A copy is kept at its first use, and no other use takes
    /// memory. An error leaves the table as it was. The group has two paths or more and fewer than
    /// 2^32 - 1 uses, and the table fewer than 2^32 - 1 groups.
    pub fn link(&mut self, alloc: Global, group: &Paths<W>) -> Result<(), OutOfMemory>
        requires several { 2 ≤ length group.now.paths }
        requires count { count_of spread_cmp self.old group.now < 2 ^ 32 - 1 }
        requires room { length self.old < 2 ^ 32 - 1 }
        ensures ok { OnOk result (self.new ≡ linked spread_cmp self.old group.now) }
        ensures again { 1 ≤ count_of spread_cmp self.old group.now → IsOk result }
        ensures err { OnErr result (self.new ≡ self.old) }
    {
        if self.increase(group) {
            return Ok(());
        }
        self.insert(alloc, group)
    }

    /// Counts one more use of a group that is in use, and says whether it is. No memory is taken.
    pub fn increase(&mut self, group: &Paths<W>) -> bool
        requires several { 2 ≤ length group.now.paths }
        requires count { count_of spread_cmp self.old group.now < 2 ^ 32 - 1 }
        ensures found { IsTrue result ↔ (1 ≤ count_of spread_cmp self.old group.now) }
        ensures more { OnTrue result (self.new ≡ linked spread_cmp self.old group.now) }
        ensures same { OnFalse result (self.new ≡ self.old) }
    {
        self.counts.increase(group)
    }

    /// Counts the first use of a group, of which a copy is kept. An error leaves the table as it
    /// was.
    pub fn insert(&mut self, alloc: Global, group: &Paths<W>) -> Result<(), OutOfMemory>
        requires several { 2 ≤ length group.now.paths }
        requires unused { count_of spread_cmp self.old group.now ≡ 0 }
        requires room { length self.old < 2 ^ 32 - 1 }
        ensures ok { OnOk result (self.new ≡ linked spread_cmp self.old group.now) }
        ensures err { OnErr result (self.new ≡ self.old) }
    {
        let key = group.copy(alloc)?;
        self.counts.insert(key)?;
        Ok(())
    }

    /// Counts one use of the group less, and drops it with the last. No memory is taken. The group
    /// is in use.
    pub fn unlink(&mut self, group: &Paths<W>)
        requires { 1 ≤ count_of spread_cmp self.old group.now }
        ensures { self.new ≡ unlinked spread_cmp self.old group.now }
    {
        self.release(group);
    }

    /// Counts one use of the group less, drops it with the last, and says whether that was the
    /// last. No memory is taken.
    pub fn release(&mut self, group: &Paths<W>) -> bool
        requires { 1 ≤ count_of spread_cmp self.old group.now }
        ensures last { result ≡ (count_of spread_cmp self.old group.now == 1) }
        ensures less { self.new ≡ unlinked spread_cmp self.old group.now }
    {
        self.counts.release(group)
    }

    /// How often the group is used.
    pub fn count(&self, group: &Paths<W>) -> u32
        ensures { result ≡ count_of spread_cmp self.now group.now }
    {
        self.counts.count(group)
    }

    /// How many groups are in use, and what every such table knows of its entries.
    pub fn live(&self) -> u32
        ensures size { result ≡ length self.now }
        ensures counts { IsCounts spread_cmp self.now }
        ensures groups { All IsGroup (keys_of self.now) }
    {
        self.counts.live()
    }

    /// The groups in use, in their order.
    pub fn list(&self, alloc: Global) -> Result<Vec<Paths<W>>, OutOfMemory>
        ensures { IfOk result (λ v. v.items ≡ keys_of self.now) }
    {
        let mut groups = Vec::new(alloc);
        for (group, _count) in self.counts.iter() {
            groups.push(group.copy(alloc)?)?;
        }
        Ok(groups)
    }
}
