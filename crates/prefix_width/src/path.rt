//! Paths: a nexthop with its weight.
use crate::nexthop::{Nexthop, NhKind};
use std::marker::Model;

/// The greatest weight of a path.
pub const WEIGHT_MAX: u32 = 16_777_215;

/// A nexthop and its weight among the paths of a route, ordered by these in turn.
#[derive(Clone, Copy, Debug, PartialEq, Eq, PartialOrd, Ord)]
pub struct Path<const W: u32> {
    nexthop: Nexthop<W>,
    weight: u32,
}

impl<const W: u32> Model for Path<W> {
    ghost use Rattle.prefix_width.specs.Nexthop.{IsHop};
    ghost use Rattle.prefix_width.specs.Path.{IsWeight, WeightedHop};

    ghost Value = { WeightedHop };

    ghost view = { λ p. record { nexthop = p.nexthop; weight = p.weight } };

    ghost invariant = { λ p. IsHop W p.nexthop × IsWeight p.nexthop.kind p.weight };

    ghost inverse = { λ p. record { nexthop = p.nexthop; weight = p.weight } };
}

impl<const W: u32> Path<W> {
    ghost use Rattle.std.specs.Prelude.{◌≡◌};
    ghost use Rattle.std.specs.Option.{SomeIff};
    ghost use Rattle.prefix_width.specs.Path.{IsWeight};

    /// A path of a weight from 1 to [`WEIGHT_MAX`]. `None` outside that range, and where the
    /// nexthop drops packets and the weight is not 1.
    pub fn new(nexthop: Nexthop<W>, weight: u32) -> Option<Path<W>>
        ensures { SomeIff result (IsWeight nexthop.entry.kind weight) (record { nexthop = nexthop.entry; weight = weight }) }
    {
        if weight == 0 || weight > WEIGHT_MAX {
            return None;
        }
        match nexthop.kind() {
            NhKind::Via | NhKind::Direct => {}
            NhKind::Blackhole | NhKind::Reject => {
                if weight != 1 {
                    return None;
                }
            }
        }
        Some(Path { nexthop, weight })
    }

    /// The nexthop.
    pub fn nexthop(&self) -> &Nexthop<W>
        ensures { result.now ≡ self.now.nexthop }
    {
        &self.nexthop
    }

    /// The weight, 1 to [`WEIGHT_MAX`].
    pub fn weight(&self) -> u32
        ensures value { result ≡ self.now.weight }
        ensures allowed { IsWeight self.now.nexthop.kind self.now.weight }
    {
        self.weight
    }
}
