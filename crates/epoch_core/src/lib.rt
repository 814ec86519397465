//! Epochs, after epoch(9): readers that take a shared version without a lock, and one control
//! that publishes versions.
//!
//! Version `v` stands in bank `v mod K`; there are `K` banks, 2 to 8, and at most `LIVE` live
//! targets, 1 to 4,095. A reader announces a version before it takes one out of its place in a
//! bank, and the control gives a bank to a new version only when it has passed every reader. The
//! definitions stand in `specs/`: the world, its steps, and when a world is sound. The laws say
//! that every list of steps keeps it sound.
//!
//! [`start`] makes a table that threads share, at which each reader and the control has a seat.
//! Between any two steps at the table it shows a sound world. Readers never wait and take no
//! memory, and neither does [`ControlSeat::try_place`].
//!
//! Readers count hits on index words. The control gives a word to another number once no version
//! that a reader may have in hand names its index, and books what the word counted, so
//! [`ControlSeat::close`] answers each number's hits exactly.
#![tactic(auto)]

mod board;
mod closing;
mod control;
mod copies;
mod event;
mod laws;
mod note;
mod pairs;
mod plain;
mod plain_reader;
mod plays;
mod reader;
mod running;
mod starting;
mod view;
mod words;

pub use board::Lawful;
pub use closing::{CloseError, Closed};
pub use control::ControlSeat;
pub use copies::{Copies, Held};
pub use event::Event;
pub use laws::{law_count, law_in_hand, law_number, law_step, law_world};
pub use note::Note;
pub use pairs::Pairs;
pub use plain::PlainWorld;
pub use plain_reader::{PlainReader, PlainSpot};
pub use reader::{ReaderSeat, Standing};
pub use running::law_running;
pub use starting::{StartError, start};
pub use std::alloc::AllocError as OutOfMemory;
pub use view::{ControlOwn, Made, Own, Phase};

#[cfg(test)]
mod plain_tests;
#[cfg(test)]
mod test_turns;
#[cfg(test)]
mod tests;
#[cfg(test)]
mod thread_tests;
#[cfg(test)]
mod word_tests;
