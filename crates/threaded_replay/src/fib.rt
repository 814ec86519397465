//! What a script is replayed with.

use fib_pass::{Pass, Publisher};
use fib_sync::Control;
use replay_run::{BANKS, TARGETS_MAX};

/// What a family of `W` bits is replayed with.
#[derive(Drop)]
pub struct Fib<const W: u32> {
    /// What runs the commands of the family's plan and makes its versions.
    pub control: Control<W, BANKS, TARGETS_MAX>,
    /// What publishes the versions.
    pub publisher: Publisher<W, BANKS, TARGETS_MAX>,
    /// The passes, one for each worker, in the order of their numbers.
    pub passes: Vec<Pass<W, BANKS, TARGETS_MAX>>,
}

/// What both families are replayed with.
#[derive(Drop)]
pub struct Fibs {
    /// IPv4.
    pub inet: Fib<32>,
    /// IPv6.
    pub inet6: Fib<128>,
}
