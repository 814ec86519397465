//! Sorted ranges: one cell for each address at which the longest row may change, found by
//! bisection. After FreeBSD's `sys/netinet/in_fib_algo.c` (bsearch4).
#![tactic(auto)]

mod bisect;
mod compare;
mod has_start;
mod start;
mod start_cells;
mod table;

pub use std::alloc::AllocError as OutOfMemory;
pub use table::RangeTable;

#[cfg(test)]
mod tests;
