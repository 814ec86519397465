//! The passes and the publisher of one address family: what a router embeds.
#![tactic(auto)]

mod answer;
mod closing;
mod counting;
mod inside;
mod key;
mod laws;
mod pass;
mod publisher;
mod starting;
mod totals;

pub use answer::{Answer, LOOKUPS_MAX, Spent};
pub use closing::FibCloseError;
pub use epoch_core::StartError;
pub use inside::Inside;
pub use key::FibKey;
pub use laws::{
    law_answers_have_numbers, law_fresh_pairs_are_free, law_names_are_fit, law_pairs_are_numbers,
};
pub use pass::Pass;
pub use publisher::{Again, FibNote, Publisher, Ready};
pub use starting::fib_start;
pub use std::alloc::AllocError as OutOfMemory;
pub use totals::{FibTotals, Packets, PassEnd, Totals};

#[cfg(test)]
mod test_fibs;
#[cfg(test)]
mod tests;
#[cfg(test)]
mod thread_tests;
