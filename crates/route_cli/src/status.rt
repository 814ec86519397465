//! How a run ends, and its text.
ghost use Rattle.std.specs.Prelude.{◌≡◌, IfOk, string_bytes};
ghost use Rattle.route_cli.specs.Status.{code_of, fault_line};

use crate::OutOfMemory;
use route_lang::Reason;
use std::alloc::Global;

/// How a run ended.
#[derive(Clone, Copy, Debug, PartialEq, Eq)]
pub enum Status {
    /// The whole result was written.
    Ok,
    /// The script is refused at this line, counted from 1. Line 0 speaks of the script as a whole.
    ScriptRefused { line: u32, reason: Reason },
    /// The words are not taken.
    Usage,
    /// A read failed.
    ReadFault,
    /// A write failed.
    WriteFault,
    /// Memory is wanting.
    OutOfMemory,
}

impl Status {
    /// The exit status of the process.
    pub fn code(&self) -> u8
        ensures { result ≡ code_of self.now }
    {
        match self {
            Status::Ok => 0,
            Status::ScriptRefused { line: _, reason: _ } => 1,
            Status::Usage => 2,
            Status::ReadFault => 3,
            Status::WriteFault => 4,
            Status::OutOfMemory => 5,
        }
    }
}

/// The line that tells of a fault, ended by a line feed. It is empty for [`Status::Ok`].
pub fn fault_text(alloc: Global, status: &Status) -> Result<String, OutOfMemory>
    ensures { IfOk result (λ text. string_bytes text ≡ fault_line status.now) }
{
    match status {
        Status::Ok => String::from_str(alloc, ""),
        Status::ScriptRefused { line, reason } => {
            let why = reason.text();
            format!(in alloc; "fibrun: line {line}: {why}\n")
        }
        Status::Usage => String::from_str(
            alloc,
            "usage: fibrun replay|check|show|gen [--workers N] [--seed N] [--count N]\n",
        ),
        Status::ReadFault => String::from_str(alloc, "fibrun: read fault\n"),
        Status::WriteFault => String::from_str(alloc, "fibrun: write fault\n"),
        Status::OutOfMemory => String::from_str(alloc, "fibrun: out of memory\n"),
    }
}
