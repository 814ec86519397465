//! The control of one address family: from the commands of a plan to the image of each version,
//! after `handle_rtable_change_cb` and `apply_rtable_changes` of FreeBSD's
//! `sys/net/route/fib_algo.c`.
//!
//! `specs/Lawful.antt` says what an image of a version has to hold to be lawful; a lawful image
//! answers as the scan of that version's whole table does. A [`Control`] gives the lawful image of
//! each version of its plan in turn.
#![tactic(auto)]

mod control;
mod entries;
mod fresh;
mod index_pair;
mod indexes;
mod laws;
mod making;
mod next_version;
mod numbering;
mod read;
mod runner;
mod running;
mod state;
mod updater;
mod working;

pub use control::{Advance, Control};
pub use entries::entries_of;
pub use indexes::VersionIndexes;
pub use laws::{law_compiled_slots_are_lawful, law_lawful_images_answer};
pub use making::make_lawful;
pub use read::lookup;
pub use std::alloc::AllocError as OutOfMemory;

#[cfg(test)]
mod tests;
