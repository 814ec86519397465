//! `table_bench`: what a command costs by the route table, beside the same on a bare ordered map,
//! and what the live targets and their indexes cost at a new version.
//!
//! With no words it prints how many of 1,000 adds, changes and deletes do what they ask, how many
//! elements lists and versions of 1,000 live targets have, and how many flows of 100 groups of each
//! size move. With `time N` it prints what each command takes at N routes, with `indexes N` what
//! lists and versions take at N live targets, with `flows N` how many flows of N groups move when a
//! path leaves.
#![tactic(auto)]

ghost use Rattle.std.specs.Prelude.{IfOk};
ghost use Rattle.table_bench.specs.Words.{IsJob};

mod flow_report;
mod flows;
mod index_report;
mod job;
mod lists;
mod live;
mod map;
mod measure;
mod report;
mod routes;
mod table;
mod versions;

use bench_kit::{Fault, end, words_of};
use job::{Job, job_of};
use report::work;
pub use std::alloc::AllocError as OutOfMemory;
use std::process::ExitCode;
use std::rt::Env;
use std::time::CpuClock;

fn main(rt: HostRuntime) -> ExitCode {
    end(
        &rt,
        "table_bench",
        "[time N | indexes N | flows N]",
        run(&rt),
    )
}

/// Does the job of the words behind the program's name.
fn run<R: Env + Print + AllocGlobal + CpuClock>(rt: &R) -> Result<(), Fault> {
    let job = read_job(rt)?;
    work(rt, job)
}

/// The job of the words behind the program's name.
fn read_job<R: Env + AllocGlobal>(rt: &R) -> Result<Job, Fault>
    ensures { IfOk result IsJob }
{
    let words = words_of(rt)?;
    match job_of(words.as_slice()) {
        Some(job) => Ok(job),
        None => Err(Fault::Usage),
    }
}
