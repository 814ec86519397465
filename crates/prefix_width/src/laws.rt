//! The laws of prefixes and of orders.
ghost use Rattle.std.specs.Prelude.{◌≡◌};
ghost use Rattle.std.specs.Ordering.{nat_cmp};
ghost use Rattle.prefix_width.specs.Laws.{ContainsItsRange, CoversIsInclusion, FindsLongest, OrderedByLength, PrefixesNest};
ghost use Rattle.prefix_width.specs.Order.{block_cmp, hop_cmp, path_cmp};

use crate::addr::Addr;
use crate::nexthop::Nexthop;
use crate::path::Path;
use crate::prefix::Prefix;
use std::cmp::Ordering;

/// Law: two prefixes nest or share no address.
pub fn law_nested()
    ensures { PrefixesNest }
{}

/// Law: prefixes that contain one address are ordered by length.
pub fn law_ordered_by_length()
    ensures { OrderedByLength }
{}

/// Law: a prefix contains the addresses from its first to its last, and no other.
pub fn law_range()
    ensures { ContainsItsRange }
{}

/// Law: a prefix covers another exactly where it contains every address of the other.
pub fn law_covers()
    ensures { CoversIsInclusion }
{}

/// Law: what the longest match finds among rows of any kind contains the address, and no row that
/// does is longer.
pub fn law_longest_match<T>()
    ensures { FindsLongest T }
{}

/// Law: addresses are ordered as their numbers.
pub fn law_order_of_addresses<const W: u32>(a: &Addr<W>, b: &Addr<W>) -> Ordering
    ensures { result ≡ nat_cmp a.now b.now }
{
    a.cmp(b)
}

/// Law: prefixes are ordered by address, then length.
pub fn law_order_of_prefixes<const W: u32>(a: &Prefix<W>, b: &Prefix<W>) -> Ordering
    ensures { result ≡ block_cmp a.now b.now }
{
    a.cmp(b)
}

/// Law: nexthops are ordered by kind, gateway, interface and MTU in turn.
pub fn law_order_of_nexthops<const W: u32>(a: &Nexthop<W>, b: &Nexthop<W>) -> Ordering
    ensures { result ≡ hop_cmp a.now b.now }
{
    a.cmp(b)
}

/// Law: paths are ordered by nexthop, then weight.
pub fn law_order_of_paths<const W: u32>(a: &Path<W>, b: &Path<W>) -> Ordering
    ensures { result ≡ path_cmp a.now b.now }
{
    a.cmp(b)
}
