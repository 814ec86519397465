//! `pass_bench`: passes of a fib, beside a publisher that publishes without pause and beside none.
//!
//! With no words it runs 1, 2 and 3 passes beside a publisher and prints what doesn't depend on the
//! schedule. With `time N` it prints what a lookup takes at N routes, and with `resolve N` what an
//! image adds to the lookup of its engine.
#![tactic(auto)]

mod beside;
mod draws;
mod fib;
mod job;
mod plain;
mod reader;
mod report;
mod resolve;
mod routes;
mod sources;
mod writer;

use bench_kit::{Fault, end, words_of};
use job::{Job, job_of};
use report::work;
pub use std::alloc::AllocError as OutOfMemory;
use std::process::ExitCode;
use std::rt::Env;
use std::sync::Wait;
use std::thread::Threads;
use std::time::CpuClock;

fn main(rt: HostRuntime) -> ExitCode {
    end(&rt, "pass_bench", "[time N | resolve N]", run(&rt))
}

/// Does the job of the words behind the program's name.
fn run<R: Env + Print + AllocGlobal + CpuClock + Threads + Wait + Sync>(
    rt: &R,
) -> Result<(), Fault> {
    let job = read_job(rt)?;
    work(rt, job)
}

/// The job of the words behind the program's name.
fn read_job<R: Env + AllocGlobal>(rt: &R) -> Result<Job, Fault> {
    let words = words_of(rt)?;
    match job_of(words.as_slice()) {
        Some(job) => Ok(job),
        None => Err(Fault::Usage),
    }
}
