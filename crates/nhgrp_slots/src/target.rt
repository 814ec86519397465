use crate::OutOfMemory;
use crate::paths::Paths;
use prefix_width::Nexthop;
use std::alloc::Global;
use std::cmp::Ordering;

/// What a route leads to. A nexthop comes before groups in the order.
#[derive(Debug, Drop, PartialEq, Eq, PartialOrd, Ord)]
pub enum Target<const W: u32> {
    /// One nexthop.
    One(Nexthop<W>),
    /// Two paths or more, with their layout.
    Many(Paths<W>),
}

impl<const W: u32> Target<W> {
    ghost use Rattle.std.specs.Prelude.{◌≡◌, IfOk};
    ghost use Rattle.nhgrp_slots.specs.Target.{target_cmp};

    /// An equal target.
    pub fn copy(&self, alloc: Global) -> Result<Target<W>, OutOfMemory>
        ensures { IfOk result (λ t. t ≡ self.now) }
    {
        match self {
            Target::One(nexthop) => Ok(Target::One(*nexthop)),
            Target::Many(paths) => Ok(Target::Many(paths.copy(alloc)?)),
        }
    }

    /// What `cmp` answers: nexthops come first in their order, then groups in theirs.
    pub fn order(&self, other: &Target<W>) -> Ordering
        ensures { result ≡ target_cmp self.now other.now }
    {
        self.cmp(other)
    }
}
