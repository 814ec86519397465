//! Addresses, prefixes and nexthops of `W` bits, as numbers.
//!
//! `W` is the width of an address family: 32 for IPv4 and 128 for IPv6. Every type with the
//! parameter wants `1 <= W <= 128`. Nothing here takes memory.
#![tactic(auto)]

mod addr;
mod laws;
mod limits;
mod longest;
mod module;
mod nexthop;
mod path;
mod prefix;

pub use addr::Addr;
pub use laws::{
    law_covers, law_longest_match, law_nested, law_order_of_addresses, law_order_of_nexthops,
    law_order_of_paths, law_order_of_prefixes, law_ordered_by_length, law_range,
};
pub use limits::last_index;
pub use longest::longest_match;
pub use module::{Kind, Setting};
pub use nexthop::{Nexthop, NhKind};
pub use path::{Path, WEIGHT_MAX};
pub use prefix::Prefix;

#[cfg(test)]
mod tests;
