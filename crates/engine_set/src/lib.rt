//! The lookup modules as one: which of them is chosen, one value that is any of them, and the image
//! of a version, which resolves an address and a flow to the index of a nexthop.
//!
//! Each module has a preference that depends on the number of routes, and the framework changes to
//! another one where that is better by a margin. After `fib_check_best_algo`, `struct fib_data` and
//! `rebuild_fd` of FreeBSD's `sys/net/route/fib_algo.c`.
#![tactic(auto)]

mod choice;
mod engine;
mod entries;
mod entry;
mod image;
mod inet;

pub use choice::choose;
pub use engine::Engine;
pub use entries::Entries;
pub use entry::Entry;
pub use image::Image;
pub use inet::InetDxr;
pub use std::alloc::AllocError as OutOfMemory;

#[cfg(test)]
mod tests;
