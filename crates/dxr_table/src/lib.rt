//! Direct cells and fragments: an index for each value of the 16 leading bits of an IPv4 address,
//! or a run of fragments, among which the other 16 bits are found by bisection. After Zec, Rizzo
//! and Mikuc, "DXR: Towards a Billion Routing Lookups Per Second in Software" (2012), and FreeBSD's
//! `sys/netinet/in_fib_dxr.c`.
#![tactic(auto)]

mod making;
mod table;

pub use std::alloc::AllocError as OutOfMemory;
pub use table::DxrTable;

#[cfg(test)]
mod tests;
