//! One version of a table, ready for lookups.
ghost use Rattle.std.specs.Prelude.{◌≡◌, ℕ, ◌+◌, ◌≤◌, List, Some, is_some, IfOk};
ghost use Rattle.prefix_width.specs.Prefix.{Block};
ghost use Rattle.prefix_width.specs.Longest.{longest};
ghost use Rattle.module_trait.specs.Rows.{index_of};
ghost use Rattle.engine_set.specs.Engine.{IsBound, Stands, kind_of};
ghost use Rattle.engine_set.specs.Entry.{entry_at, resolved};
ghost use Rattle.engine_set.specs.Image.{IsPicture};
ghost use Rattle.engine_set.specs.declared.entry.Entry.TheVariants.{Nexthop};

use crate::OutOfMemory;
use crate::engine::Engine;
use crate::entries::Entries;
use module_trait::Steps;
use prefix_width::{Addr, Kind};
use std::alloc::Global;
use std::marker::Model;
use std::sync::ArcSlice;
use std::sync::ledger::Ledger;

/// One version of the table, ready for lookups: an engine, and what each index of its rows stands
/// for. It has no list of routes beside its engine. Nothing in it hands an allocator out, so that a
/// lookup has none to take memory from.
#[derive(Drop)]
pub struct Image<const W: u32> {
    version: u64,
    count: u32,
    routes: u32,
    engine: Engine<W>,
    entries: Entries,
    fresh: ArcSlice<(u16, u32)>,
}

impl<const W: u32> Model for Image<W> {
    ghost use Rattle.std.specs.Arc.{arc_slice_items};
    ghost use Rattle.engine_set.specs.Image.{Picture, IsPicture};

    ghost Value = { Picture W };

    ghost view = { λ i. record { version = i.version; count = i.count; routes = i.routes; engine = i.engine; entries = i.entries; fresh = arc_slice_items i.fresh } };

    ghost invariant = { λ i. IsPicture i.engine i.routes i.entries };
}

impl<const W: u32> Image<W> {
    /// The image of a version, made of an engine that stands for so many rows, an entry for each of
    /// their indexes, and the pairs of [`Image::fresh`]. Where memory is wanting they are given up.
    pub fn make(
        alloc: Global,
        version: u64,
        count: u32,
        routes: u32,
        engine: Engine<W>,
        entries: Entries,
        fresh: Vec<(u16, u32)>,
    ) -> Result<Image<W>, OutOfMemory>
        requires { IsPicture engine routes entries }
        ensures { IfOk result (λ image. image ≡ record { version = version; count = count; routes = routes; engine = engine.entry; entries = entries; fresh = fresh.items }) }
    {
        let fresh = ArcSlice::from_slice(alloc, fresh.as_slice())?;
        Ok(Image {
            version,
            count,
            routes,
            engine,
            entries,
            fresh,
        })
    }

    /// The version.
    pub fn version(&self) -> u64
        ensures { result ≡ self.now.version }
    {
        self.version
    }

    /// How many commands were run when it was made.
    pub fn count(&self) -> u32
        ensures { result ≡ self.now.count }
    {
        self.count
    }

    /// How many routes the version has.
    pub fn routes(&self) -> u32
        ensures { result ≡ self.now.routes }
    {
        self.routes
    }

    /// The module of its engine.
    pub fn kind(&self) -> Kind
        ensures { result ≡ kind_of self.now.engine }
    {
        self.engine.kind()
    }

    /// What its indexes stand for, for an image after it to share.
    pub fn entries(&self) -> &Entries
        ensures { result.now ≡ self.now.entries }
    {
        &self.entries
    }

    /// The indexes of nexthops that the version before had not, each with its nexthop's number.
    pub fn fresh(&self) -> &[(u16, u32)]
        ensures { result.now ≡ self.now.fresh }
    {
        self.fresh.as_slice()
    }

    /// The index of the nexthop for an address and a flow: that of the longest row that contains
    /// the address, through the flow's slot where it is a group's. `None` where no row does. It
    /// takes no memory.
    pub fn resolve<L: Ledger>(&self, addr: Addr<W>, flow: u32, steps: &mut Steps<L>) -> Option<u16>
        ensures answer { (rows : List (Block × ℕ)) → Stands self.now.engine rows → result ≡ resolved self.now.entries flow (index_of (longest W rows addr.entry)) }
        ensures some { (rows : List (Block × ℕ)) → Stands self.now.engine rows → is_some result ≡ is_some (index_of (longest W rows addr.entry)) }
        ensures cost { (rows : List (Block × ℕ)) (n : ℕ) → Stands self.now.engine rows → IsBound W (kind_of self.now.engine) rows n → steps.new ≤ steps.old + n }
        ensures nexthop { (i : ℕ) → result ≡ Some i → entry_at self.now.entries i ≡ Some (Nexthop i) }
    {
        let index = self.engine.find(&addr, steps)?;
        Some(self.entries.pick(index, flow))
    }
}
