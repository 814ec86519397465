//! Replays of a script by many workers beside one control.
//!
//! [`threaded`] gives the output of a script and what the passes of both families did.
//!
//! [`fibs`] gives each address family a control, a publisher, and a pass for each worker.
//! [`answer_gets`] runs them: the control runs the commands of both families and publishes each
//! version that they make, while 1 to 64 workers, each in a thread of its own where one can be made,
//! make the gets of the script through their passes. Get `j`, counted from 0 in script order, is made
//! by worker `j` modulo their number.
//!
//! A worker waits only ahead of a get that comes behind a sync line of which it was not told yet: the
//! control publishes what was made up to that line, and hands each worker that needs it a note of the
//! version. So a get is answered at a version no older than the last one that was made up to the
//! last sync line before it. At which versions exactly the gets of a script may be answered is in
//! `specs/Legal.antt`, and what the passes have done then in `specs/Fibs.antt`.
#![tactic(auto)]

mod ask;
mod beside;
mod ending;
mod fib;
mod follow;
mod gets;
mod got;
mod jobs;
mod merging;
mod naming;
mod post;
mod print;
mod producer;
mod starting;
mod steer;
mod threaded_run;
mod worker;
mod workers;

pub use ask::{Address, Ask, asks_of};
pub use fib::{Fib, Fibs};
pub use gets::{Ran, answer_gets};
pub use got::Got;
pub use starting::fibs;
pub use std::alloc::AllocError as OutOfMemory;
pub use threaded_run::threaded;

#[cfg(test)]
mod tests;
#[cfg(test)]
mod threaded_tests;
