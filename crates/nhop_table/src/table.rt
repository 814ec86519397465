//! How often each nexthop is used.
use crate::OutOfMemory;
use counted_map::CountedMap;
use prefix_width::Nexthop;
use std::alloc::Global;
use std::marker::Model;

/// How often each nexthop is used, seen as the nexthops in their order, each with its count.
#[derive(Drop)]
pub struct NhopTable<const W: u32> {
    counts: CountedMap<Nexthop<W>>,
}

impl<const W: u32> Model for NhopTable<W> {
    ghost use Rattle.prefix_width.specs.Nexthop.{Hop};
    ghost use Rattle.counted_map.specs.Counts.{Counts};

    ghost Value = { Counts Hop };

    ghost view = { λ t. t.counts };
}

impl<const W: u32> NhopTable<W> {
    ghost use Rattle.std.specs.Prelude.{◌≡◌, ◌-◌, ◌<◌, ◌≤◌, ◌^◌, [], length, OnOk, OnErr, IfOk, IsOk};
    ghost use Rattle.std.specs.Map.{keys_of};
    ghost use Rattle.prefix_width.specs.Order.{hop_cmp};
    ghost use Rattle.counted_map.specs.Counts.{count_of, linked, unlinked, IsCounts};

    /// No nexthop is used.
    pub fn new(alloc: Global) -> Self
        ensures { result ≡ [] }
    {
        NhopTable {
            counts: CountedMap::new(alloc),
        }
    }

    /// Counts one more use of the nexthop. An error leaves the table as it was, and comes only at
    /// the first use. It has fewer than 2^32 - 1 uses, and the table fewer than 2^32 - 1 nexthops.
    pub fn link(&mut self, nexthop: &Nexthop<W>) -> Result<(), OutOfMemory>
        requires count { count_of hop_cmp self.old nexthop.now < 2 ^ 32 - 1 }
        requires room { length self.old < 2 ^ 32 - 1 }
        ensures ok { OnOk result (self.new ≡ linked hop_cmp self.old nexthop.now) }
        ensures again { 1 ≤ count_of hop_cmp self.old nexthop.now → IsOk result }
        ensures err { OnErr result (self.new ≡ self.old) }
    {
        if self.counts.increase(nexthop) {
            return Ok(());
        }
        self.counts.insert(*nexthop)
    }

    /// Counts one use of the nexthop less, and forgets it with the last. No memory is taken. The
    /// nexthop is in use.
    pub fn unlink(&mut self, nexthop: &Nexthop<W>)
        requires { 1 ≤ count_of hop_cmp self.old nexthop.now }
        ensures { self.new ≡ unlinked hop_cmp self.old nexthop.now }
    {
        self.counts.decrease(nexthop);
    }

    /// How often the nexthop is used.
    pub fn count(&self, nexthop: &Nexthop<W>) -> u32
        ensures { result ≡ count_of hop_cmp self.now nexthop.now }
    {
        self.counts.count(nexthop)
    }

    /// How many nexthops are in use, and what every such table knows of its entries.
    pub fn live(&self) -> u32
        ensures size { result ≡ length self.now }
        ensures counts { IsCounts hop_cmp self.now }
    {
        self.counts.live()
    }

    /// The nexthops in use, in their order.
    pub fn list(&self, alloc: Global) -> Result<Vec<Nexthop<W>>, OutOfMemory>
        ensures { IfOk result (λ v. v.items ≡ keys_of self.now) }
    {
        let mut nexthops = Vec::new(alloc);
        for (nexthop, _count) in self.counts.iter() {
            nexthops.push(*nexthop)?;
        }
        Ok(nexthops)
    }
}
