//! What paths have in common.
ghost use Rattle.std.specs.Prelude.{◌≡◌};
ghost use Rattle.std.specs.Ordering.{is_lt};
ghost use Rattle.prefix_width.specs.Order.{hop_cmp};
ghost use Rattle.nhgrp_slots.specs.PathList.{clashes_with, drops, goes_by, is_via};

use prefix_width::{Addr, NhKind, Path};

/// Whether a nexthop of the kind drops the packet.
pub fn drops(kind: NhKind) -> bool
    ensures { result ≡ drops kind }
{
    match kind {
        NhKind::Via | NhKind::Direct => false,
        NhKind::Blackhole | NhKind::Reject => true,
    }
}

/// Whether a nexthop of the kind goes by a gateway.
pub fn is_via(kind: NhKind) -> bool
    ensures { result ≡ is_via kind }
{
    match kind {
        NhKind::Via => true,
        NhKind::Direct | NhKind::Blackhole | NhKind::Reject => false,
    }
}

/// Whether a path may not stand beside another that is there.
pub fn clashes_with<const W: u32>(path: &Path<W>, other: &Path<W>) -> bool
    ensures { result ≡ clashes_with path.now other.now }
{
    other.nexthop() == path.nexthop() || drops(other.nexthop().kind())
}

/// Whether a path's nexthop comes before another's.
pub fn is_before<const W: u32>(path: &Path<W>, other: &Path<W>) -> bool
    ensures { result ≡ is_lt (hop_cmp path.now.nexthop other.now.nexthop) }
{
    path.nexthop() < other.nexthop()
}

/// Whether a path goes by this gateway.
pub fn goes_by<const W: u32>(path: &Path<W>, gateway: &Addr<W>) -> bool
    ensures { result ≡ goes_by gateway.now path.now }
{
    is_via(path.nexthop().kind()) && path.nexthop().gateway() == *gateway
}
