//! `fibrun`: replays scripts of route(8) commands.
//!
//! The program is the one call [`run`](top::run) over standard input and standard output.
#![tactic(auto)]

mod job;
mod status;
mod top;

pub use job::{Job, Task};
use outside_io::{StdSink, StdSource};
use replay_run::OpenGate;
pub use status::{Status, fault_text};
pub use std::alloc::AllocError as OutOfMemory;
use std::process::ExitCode;
use std::rt::Env;
use std::sync::Wait;
use std::thread::Threads;
use std::{env, io};
pub use top::{plain, run};

#[cfg(test)]
mod row_tests;
#[cfg(test)]
mod tests;
#[cfg(test)]
mod version_tests;

fn main(rt: HostRuntime) -> ExitCode {
    let status = run_on_standard_streams(&rt);
    if let Ok(text) = fault_text(rt.alloc(), &status) {
        let _ = rt.eprint(text.as_str());
    }
    ExitCode::from(status.code())
}

/// The words behind the program's name and the standard streams, handed to the top call.
fn run_on_standard_streams(
    rt: &(impl Env + Print + Input + AllocGlobal + Threads + Wait + Sync),
) -> Status {
    let args = match env::args(rt) {
        Ok(args) => args,
        Err(error) if error.kind() == io::ErrorKind::OutOfMemory => return Status::OutOfMemory,
        Err(_) => return Status::Usage,
    };
    let words: Vec<String> = match args.skip(1).collect(rt.alloc()) {
        Ok(words) => words,
        Err(_) => return Status::OutOfMemory,
    };
    let mut source = StdSource::new(rt.reader());
    let mut sink = StdSink::new(io::writer(rt));
    let (status, _totals) = run(rt, words.as_slice(), &mut source, &mut sink, &OpenGate);
    status
}
