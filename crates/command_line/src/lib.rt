//! The command line of the program: which words it takes, and what they ask.
//!
//! `fibrun MODE [--workers N] [--seed N] [--count N]`, as clap reads it. The definition is the
//! command written out in `specs/Words.antt`, with clap's own account of the words that a command
//! takes and of what it finds in them.
#![tactic(auto)]

mod command;
mod request;
mod words;

pub use request::{Mode, Request};
pub use words::{WordsError, read_words};

#[cfg(test)]
mod tests;
