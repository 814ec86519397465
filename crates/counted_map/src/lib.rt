//! Counts by key: how often each of some values is used, with an entry for those in use alone.
#![tactic(auto)]

mod laws;
mod map;

pub use laws::{law_counts_decide, law_link_raises, law_unlink_lowers};
pub use map::CountedMap;
pub use std::alloc::AllocError as OutOfMemory;

#[cfg(test)]
mod tests;
