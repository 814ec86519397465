//! Replays of a script: its output, and the texts that check it and show it.
//!
//! [`serial`] runs a script on one thread: the control of each family makes an image of every
//! version, and a get is a lookup in the image of the last one before it.
#![tactic(auto)]

/// How many live targets a family's table may have: distinct nexthops and groups.
pub const TARGETS_MAX: u32 = 4_095;

/// In how many banks the versions of a family stand: an index is given again only so many versions
/// later.
pub const BANKS: u64 = 8;

mod family;
mod family_replay;
mod gate;
mod laws;
mod output;
mod replies;
mod serial_replay;
mod survey;
mod text;

pub use gate::{Gate, OpenGate};
pub use laws::law_packets;
pub use output::{write_fib, write_get, write_packets, write_reply};
pub use replies::{one_reply, write_one_reply};
pub use serial_replay::serial;
pub use std::alloc::AllocError as OutOfMemory;
pub use survey::gen_text;
pub use text::{check_text, show_text};

#[cfg(test)]
mod tests;
