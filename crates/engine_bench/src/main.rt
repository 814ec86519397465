//! `engine_bench`: the lookup modules over drawn routes and addresses.
//!
//! With no words it prints the check sums of the answers at 1,000 routes. With `time N` it prints
//! what a lookup, a build, a route and an edit take at N routes, and with `dxr N` that of dxr alone.
#![tactic(auto)]

mod addresses;
mod batch;
mod chunk_report;
mod chunks;
mod edits;
mod family;
mod job;
mod measure;
mod report;
mod routes;

use bench_kit::{Fault, end, words_of};
use job::{Job, job_of};
use report::work;
pub use std::alloc::AllocError as OutOfMemory;
use std::marker::Brand;
use std::process::ExitCode;
use std::rt::Env;
use std::sync::ledger::Blank;
use std::time::CpuClock;

#[cfg(test)]
mod tests;

fn main(rt: HostRuntime) -> ExitCode {
    end(&rt, "engine_bench", "[time N | dxr N]", run(&rt))
}

/// Does the job of the words behind the program's name.
fn run<R: Env + Print + AllocGlobal + CpuClock>(rt: &R) -> Result<(), Fault> {
    let job = read_job(rt)?;
    work::<R, Brand>(rt, job, Blank::new(1))
}

/// The job of the words behind the program's name.
fn read_job<R: Env + AllocGlobal>(rt: &R) -> Result<Job, Fault> {
    let words = words_of(rt)?;
    match job_of(words.as_slice()) {
        Some(job) => Ok(job),
        None => Err(Fault::Usage),
    }
}
