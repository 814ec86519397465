//! What the programs that measure share: their words, clock, draws, prints and faults.
#![tactic(auto)]

mod clock;
mod draws;
mod fault;
mod printing;
mod words;

pub use clock::cpu_time;
pub use draws::Draws;
pub use fault::Fault;
pub use printing::{end, per_second, printed, tenths};
pub use std::alloc::AllocError as OutOfMemory;
pub use words::{number_in, words_of};

#[cfg(test)]
mod tests;
