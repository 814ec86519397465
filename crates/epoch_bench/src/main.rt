//! `epoch_bench`: readers of the epoch scheme beside the control that publishes.
//!
//! With no words it runs 1, 2 and 3 readers beside a control that places 1,000 versions, then 1,000
//! versions with 64 idle readers, and prints what doesn't depend on the schedule. With `time N` it
//! prints what N rounds take, and what hits and the counts of index words take.
#![tactic(auto)]

ghost use Rattle.std.specs.Prelude.{IfOk, IfErr};
ghost use Rattle.bench_kit.specs.Fault.{IsWordFault};
ghost use Rattle.epoch_bench.specs.Words.{HasRounds};

mod beside;
mod hits;
mod idle;
mod job;
mod reader;
mod report;
mod stamp;
mod table;
mod turn;
mod writer;

use bench_kit::{Fault, end, words_of};
use job::{Job, job_of};
use report::work;
pub use std::alloc::AllocError as OutOfMemory;
use std::process::ExitCode;
use std::rt::Env;
use std::sync::Wait;
use std::thread::Threads;
use std::time::CpuClock;

fn main(rt: HostRuntime) -> ExitCode {
    end(&rt, "epoch_bench", "[time N]", run(&rt))
}

/// Does the job of the words behind the program's name.
fn run<R: Env + Print + AllocGlobal + CpuClock + Threads + Wait + Sync>(
    rt: &R,
) -> Result<(), Fault> {
    let job = read_job(rt)?;
    work(rt, job)
}

/// The job of the words behind the program's name.
fn read_job<R: Env + AllocGlobal>(rt: &R) -> Result<Job, Fault>
    ensures rounds { IfOk result (λ job. HasRounds job) }
    ensures fault { IfErr result IsWordFault }
{
    let words = words_of(rt)?;
    match job_of(words.as_slice()) {
        Some(job) => Ok(job),
        None => Err(Fault::Usage),
    }
}
