//! When a version of the table is cut.
//!
//! Changes are collected in buckets of 50 milliseconds: the first 25 of a bucket are published one
//! by one, those after them together. After the buckets of FreeBSD's `sys/net/route/fib_algo.c`,
//! which delay the rebuild of a lookup module while many changes come.
//!
//! The versions of a plan are said on its positions, counted from 1, of which a [`Cutter`] keeps
//! four running numbers.
#![tactic(auto)]

mod cutter;
mod laws;
mod reply;

pub use cutter::{Cut, Cutter};
pub use laws::{law_last_listed, law_modules, law_numbers, law_versions_listed};
pub use reply::accepted;

#[cfg(test)]
mod tests;
