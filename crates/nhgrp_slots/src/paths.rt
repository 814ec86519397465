//! The paths of a route.
use crate::layouts::{keep, layout_of};
use crate::{OutOfMemory, path_facts};
use prefix_width::{Addr, Nexthop, Path};
use std::alloc::Global;
use std::cmp::Ordering;
use std::marker::Model;
use std::sync::Arc;

/// Two paths or more, and their layout.
#[derive(Debug, Drop)]
struct Group<const W: u32> {
    paths: Vec<Path<W>>,
    layout: Vec<u8>,
}

/// Where paths and their layout are kept: one path in place, several behind a handle that copies
/// share.
#[derive(Debug, Drop)]
enum PathStore<const W: u32> {
    Single([Path<W>; 1], [u8; 1]),
    Shared(Arc<Group<W>>),
}

/// The paths of a route, 1 to 64 of them with strictly ascending nexthops, where one that drops
/// packets stands alone; and their layout, 1 to 64 slots, each of which holds the position of a
/// path, counted from 0. Paths are compared one by one, then by their layouts. Copies share both.
#[derive(Debug, Drop)]
pub struct Paths<const W: u32> {
    store: PathStore<W>,
}

impl<const W: u32> Model for Paths<W> {
    ghost use Rattle.nhgrp_slots.specs.PathStore.{stored};
    ghost use Rattle.nhgrp_slots.specs.Spread.{IsSpread, Spread};

    ghost Value = { Spread };

    ghost view = { λ p. stored p.store };

    ghost invariant = { λ p. IsSpread (stored p.store) };
}

impl<const W: u32> Paths<W> {
    ghost use Rattle.std.specs.Prelude.{◌≡◌, ◌<◌, ◌≤◌, IfOk, [], ◌∷◌, length, slice_get, Some};
    ghost use Rattle.std.specs.Ordering.{is_eq, is_lt};
    ghost use Rattle.std.specs.List.{list_any, position, position_or_len};
    ghost use Rattle.prefix_width.specs.Order.{hop_cmp};
    ghost use Rattle.nhgrp_slots.specs.PathList.{IsPathList, put_path, clashes, clashes_with, goes_by, is_via, left_by};
    ghost use Rattle.nhgrp_slots.specs.Slots.{HaveWeights};
    ghost use Rattle.nhgrp_slots.specs.Spread.{IsSpread, has_via, left_layout, names, spread, without};

    /// One path, which all flows take.
    pub fn one(alloc: Global, path: Path<W>) -> Result<Paths<W>, OutOfMemory>
        ensures { IfOk result (λ p. p ≡ spread (path.entry ∷ [])) }
    {
        let _ = alloc;
        // the weight of the path is in its range
        let _weight = path.weight();
        Ok(Paths {
            store: PathStore::Single([path], [0]),
        })
    }

    /// One path more, before the first whose nexthop is greater, with the layout that the weights
    /// give. The path may join these, and they are fewer than 64.
    pub fn with(&self, alloc: Global, path: Path<W>) -> Result<Paths<W>, OutOfMemory>
        requires { IsPathList (put_path self.now.paths path) }
        ensures { IfOk result (λ p. p ≡ spread (put_path self.now.paths path.entry)) }
    {
        let place = self.place_of(&path);
        let present = self.as_slice();
        let mut paths = Vec::with_capacity(alloc, present.len() + 1)?;
        paths.extend_from_slice(present)?;
        paths.insert(place, path)?;
        let layout = layout_of(alloc, &paths)?;
        Paths::made(alloc, paths, layout)
    }

    /// The paths that do not go by the gateway, where there are any. Where layouts are kept and two
    /// paths or more are left, theirs is what [`keep`](crate::keep) gives; else it is what the
    /// weights give.
    pub fn without(
        &self,
        alloc: Global,
        gateway: &Addr<W>,
        keeps: bool,
    ) -> Result<Option<Paths<W>>, OutOfMemory>
        ensures { IfOk result (λ p. p ≡ without keeps gateway.now self.now) }
    {
        let paths = self.left_by(alloc, gateway)?;
        if paths.is_empty() {
            return Ok(None);
        }
        let layout = self.left_layout(alloc, &paths, keeps)?;
        let left = Paths::made(alloc, paths, layout)?;
        Ok(Some(left))
    }

    /// Equal paths, which are shared with these: no path is copied but a lone one.
    pub fn copy(&self, alloc: Global) -> Result<Paths<W>, OutOfMemory>
        ensures { IfOk result (λ p. p ≡ self.now) }
    {
        let _ = alloc;
        let store = match &self.store {
            PathStore::Single(paths, layout) => PathStore::Single(*paths, *layout),
            PathStore::Shared(group) => PathStore::Shared(Arc::try_clone(group)?),
        };
        Ok(Paths { store })
    }

    /// How many paths, 1 to 64, and what is known of all such paths.
    pub fn len(&self) -> u8
        ensures count { result ≡ length self.now.paths }
        ensures spread { IsSpread self.now }
    {
        self.as_slice().len() as u8
    }

    /// The path at a place, counted from 0. The place is below their number.
    pub fn path(&self, i: u8) -> &Path<W>
        requires { i < length self.now.paths }
        ensures { slice_get self.now.paths i ≡ Some result.now }
    {
        &self.as_slice()[usize::from(i)]
    }

    /// The paths.
    pub fn as_slice(&self) -> &[Path<W>]
        ensures items { result.now ≡ self.now.paths }
        ensures spread { IsSpread self.now }
    {
        match &self.store {
            PathStore::Single(paths, _) => paths,
            PathStore::Shared(group) => &group.paths,
        }
    }

    /// The layout: for each slot the position of its path, counted from 0.
    pub fn layout(&self) -> &[u8]
        ensures items { result.now ≡ self.now.layout }
        ensures spread { IsSpread self.now }
    {
        match &self.store {
            PathStore::Single(_, layout) => layout,
            PathStore::Shared(group) => &group.layout,
        }
    }

    /// Whether the path may not join these: its nexthop is there, or one of them drops packets.
    pub fn clashes(&self, path: &Path<W>) -> bool
        ensures { result ≡ clashes self.now.paths path.now }
    {
        self.clashes_within(path) || path_facts::drops(path.nexthop().kind())
    }

    /// Whether one of the paths has the nexthop.
    pub fn has_nexthop(&self, nexthop: &Nexthop<W>) -> bool
        ensures { result ≡ names nexthop.now self.now }
    {
        self.as_slice().iter().any(
            |path: &Path<W>| -> bool
                ensures { result ≡ is_eq (hop_cmp nexthop.entry.now path.now.nexthop) }
            { nexthop == path.nexthop() },
        )
    }

    /// Whether one of the paths goes by this gateway.
    pub fn goes_by(&self, gateway: &Addr<W>) -> bool
        ensures { result ≡ list_any (goes_by gateway.now) self.now.paths }
    {
        self.as_slice().iter().any(
            |path: &Path<W>| -> bool
                ensures { result ≡ goes_by gateway.entry.now path.now }
            { path_facts::goes_by(path, gateway) },
        )
    }

    /// Whether one of the paths goes by a gateway.
    pub fn has_via(&self) -> bool
        ensures { result ≡ has_via self.now }
    {
        self.as_slice().iter().any(
            |path: &Path<W>| -> bool
                ensures { result ≡ is_via path.now.nexthop.kind }
            { path_facts::is_via(path.nexthop().kind()) },
        )
    }

    /// The paths that do not go by the gateway.
    fn left_by(&self, alloc: Global, gateway: &Addr<W>) -> Result<Vec<Path<W>>, OutOfMemory>
        ensures left { IfOk result (λ v. v.items ≡ left_by gateway.now self.now.paths) }
        ensures spread { IsSpread self.now }
    {
        let mut paths = Vec::with_capacity(alloc, self.as_slice().len())?;
        for path in self.as_slice() {
            if !path_facts::goes_by(path, gateway) {
                paths.push(*path)?;
            }
        }
        Ok(paths)
    }

    /// The layout of the paths that are left of these.
    fn left_layout(
        &self,
        alloc: Global,
        left: &[Path<W>],
        keeps: bool,
    ) -> Result<Vec<u8>, OutOfMemory>
        requires { IsPathList left.now }
        ensures layout { IfOk result (λ v. v.items ≡ left_layout keeps self.now left.now) }
        ensures weights { HaveWeights left.now }
    {
        if keeps && left.len() >= 2 {
            return keep(alloc, self.as_slice(), self.layout(), left);
        }
        layout_of(alloc, left)
    }

    /// These paths with this layout.
    fn made(alloc: Global, paths: Vec<Path<W>>, layout: Vec<u8>) -> Result<Paths<W>, OutOfMemory>
        requires { IsSpread (record { paths = paths.items; layout = layout.items }) }
        ensures { IfOk result (λ p. p ≡ record { paths = paths.entry.items; layout = layout.items }) }
    {
        let store = if paths.len() == 1 {
            PathStore::Single([paths[0]], [0])
        } else {
            PathStore::Shared(Arc::new(alloc, Group { paths, layout })?)
        };
        Ok(Paths { store })
    }

    /// Whether the path may not stand beside one of these.
    fn clashes_within(&self, path: &Path<W>) -> bool
        ensures { result ≡ list_any (clashes_with path.now) self.now.paths }
    {
        self.as_slice().iter().any(
            |other: &Path<W>| -> bool
                ensures { result ≡ clashes_with path.entry.now other.now }
            { path_facts::clashes_with(path, other) },
        )
    }

    /// The place of the first path that comes after this one.
    fn first_after(&self, path: &Path<W>) -> Option<usize>
        ensures { result ≡ position (λ q. is_lt (hop_cmp path.now.nexthop q.nexthop)) self.now.paths }
    {
        self.as_slice().iter().position(
            |other: &Path<W>| -> bool
                ensures { result ≡ is_lt (hop_cmp path.entry.now.nexthop other.now.nexthop) }
            { path_facts::is_before(path, other) },
        )
    }

    /// Where the path goes among these.
    #[tactic(auto, using(crate::proofs::PathLemmas::place_from_position))]
    fn place_of(&self, path: &Path<W>) -> usize
        ensures place { result ≡ position_or_len (λ q. is_lt (hop_cmp path.now.nexthop q.nexthop)) self.now.paths }
        ensures bound { result ≤ length self.now.paths }
    {
        self.first_after(path).unwrap_or(self.as_slice().len())
    }
}

impl<const W: u32> PartialEq for Paths<W> {
    ghost use Rattle.std.specs.Ordering.{eq_by_cmp};
    ghost use Rattle.std.specs.Cmp.{eq_by_cmp_equiv, partial_equiv_from_equiv};
    ghost use Rattle.nhgrp_slots.specs.Order.{spread_cmp, spread_total};

    ghost eq = { λ p q. eq_by_cmp spread_cmp p q };

    ghost laws = { partial_equiv_from_equiv (eq_by_cmp_equiv spread_total) };

    fn eq(&self, other: &Paths<W>) -> bool {
        self.cmp(other) == Ordering::Equal
    }
}

impl<const W: u32> Eq for Paths<W> {
    ghost use Rattle.std.specs.Cmp.{eq_by_cmp_equiv};
    ghost use Rattle.nhgrp_slots.specs.Order.{spread_total};

    ghost laws = { eq_by_cmp_equiv spread_total };
}

impl<const W: u32> PartialOrd for Paths<W> {
    ghost use Rattle.std.specs.Ordering.{as_partial_cmp};
    ghost use Rattle.std.specs.Cmp.{partial_order_from_total};
    ghost use Rattle.nhgrp_slots.specs.Order.{spread_cmp, spread_total};

    ghost partial_cmp = { as_partial_cmp spread_cmp };

    ghost laws = { partial_order_from_total spread_total };

    fn partial_cmp(&self, other: &Paths<W>) -> Option<Ordering> {
        Some(self.cmp(other))
    }
}

impl<const W: u32> Ord for Paths<W> {
    ghost use Rattle.std.specs.Prelude.{refl};
    ghost use Rattle.nhgrp_slots.specs.Order.{spread_cmp, spread_total};

    ghost cmp = { spread_cmp };

    ghost total = { spread_total };

    ghost matches_partial_cmp = { λ x y. refl };

    ghost matches_eq = { λ x y. refl };

    fn cmp(&self, other: &Paths<W>) -> Ordering {
        self.as_slice()
            .cmp(other.as_slice())
            .then(self.layout().cmp(other.layout()))
    }
}
