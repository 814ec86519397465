//! Indexes of live targets: small numbers that stand for nexthops and groups in the answers of
//! lookup modules, after FreeBSD's `sys/net/route/nhop_ctl.c` and `nhgrp_ctl.c`, where an index is
//! freed only once no reader can hold it any more.
#![tactic(auto)]

mod ages;
mod book;
mod indexes;
mod laws;
mod naming;
mod places;
mod table;

pub use book::IndexBook;
pub use indexes::Indexes;
pub use laws::{law_indexes_apart, law_indexes_fit, law_least_is_unused, law_nexthops_are_named};
pub use std::alloc::AllocError as OutOfMemory;

#[cfg(test)]
mod tests;
