//! Nexthops kept once each, with a count of their uses: after FreeBSD's `sys/net/route/nhop.c`
//! and `nhop_ctl.c`, which deduplicate and reference-count the nexthops of a routing table.
#![tactic(auto)]

mod table;

pub use std::alloc::AllocError as OutOfMemory;
pub use table::NhopTable;

#[cfg(test)]
mod tests;
