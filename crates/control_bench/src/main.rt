//! `control_bench`: what the versions of a control cost, and whether their images answer as the scan
//! of their tables does.
//!
//! With no words it runs 24 drawn plans of each family, and with `drawn N` N of them, and compares
//! each image with the scan at 200 addresses. With `refuse` it prints what the images of a drawn
//! plan of 60 commands answer, and calls the control again where memory is refused. With `time N` it
//! prints what versions take at N routes.
#![tactic(auto)]

mod clock;
mod course;
mod fib;
mod images;
mod job;
mod measure;
mod plans;
mod report;
mod routes;
mod runs;

use bench_kit::{Fault, end, words_of};
use job::{Job, job_of};
use report::work;
pub use std::alloc::AllocError as OutOfMemory;
use std::marker::Brand;
use std::process::ExitCode;
use std::rt::{Clock, Env};
use std::sync::ledger::Blank;
use std::thread::Threads;
use std::time::CpuClock;

fn main(rt: HostRuntime) -> ExitCode {
    end(
        &rt,
        "control_bench",
        "[drawn N | refuse | time N]",
        run(&rt),
    )
}

/// Does the job of the words behind the program's name.
fn run<R: Env + Print + Eprint + AllocGlobal + Clock + CpuClock + Threads + Sync>(
    rt: &R,
) -> Result<(), Fault> {
    let job = read_job(rt)?;
    work::<R, Brand>(rt, job, Blank::new(1))
}

/// The job of the words behind the program's name.
fn read_job<R: Env + AllocGlobal>(rt: &R) -> Result<Job, Fault> {
    let words = words_of(rt)?;
    match job_of(words.as_slice()) {
        Some(job) => Ok(job),
        None => Err(Fault::Usage),
    }
}
