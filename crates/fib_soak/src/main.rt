//! `fib_soak`: passes whose answers are compared with scans, beside a publisher that publishes without pause.
//!
//! With no words a few passes look up for a moment, and what doesn't depend on the schedule is printed. With `soak
//! SECONDS PASSES` so many passes look up for so many seconds. With `hold SECONDS PASSES` one of the passes holds its
//! version for so many seconds while the others go on. An answer that isn't the scan's ends the run with a fault.
#![tactic(auto)]

mod clock;
mod course;
mod fib;
mod hold;
mod job;
mod reader;
mod report;
mod rows;
mod scan;
mod soak;
mod writer;

use bench_kit::{Fault, end, words_of};
use job::{Job, job_of};
use report::work;
pub use std::alloc::AllocError as OutOfMemory;
use std::process::ExitCode;
use std::rt::{Clock, Env};
use std::sync::Wait;
use std::thread::Threads;

fn main(rt: HostRuntime) -> ExitCode {
    end(
        &rt,
        "fib_soak",
        "[soak SECONDS PASSES | hold SECONDS PASSES]",
        run(&rt),
    )
}

/// Does the job of the words behind the program's name.
fn run<R: Env + Print + AllocGlobal + Clock + Threads + Wait + Sync>(rt: &R) -> Result<(), Fault> {
    let job = read_job(rt)?;
    work(rt, job)
}

/// The job of the words behind the program's name.
fn read_job<R: Env + AllocGlobal>(rt: &R) -> Result<Job, Fault> {
    let words = words_of(rt)?;
    match job_of(words.as_slice()) {
        Some(job) => Ok(job),
        None => Err(Fault::Usage),
    }
}
