//! The outer edge of the program: where bytes come from and where they go, with faults counted.
//!
//! Over a [`Source`] and a [`Sink`] stand the two loops of the program, [`read_all`] and
//! [`write_all`]. [`StdSource`] and [`StdSink`] adapt a real stream and tell nothing of its
//! content: they are the trusted edge. [`MemSource`] and [`MemSink`] tell all of theirs.
#![tactic(auto)]

mod memory;
mod reading;
mod sink;
mod source;
mod standard;
mod writing;

pub use memory::{MemSink, MemSource};
pub use reading::{ReadError, read_all};
pub use sink::{Put, Sink};
pub use source::{Source, Taken};
pub use standard::{StdSink, StdSource};
pub use std::alloc::AllocError as OutOfMemory;
pub use writing::{WriteFailed, write_all};

#[cfg(test)]
mod tests;
