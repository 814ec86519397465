//! Prints, and the end of a program.
ghost use Rattle.std.specs.Prelude.{◌≡◌, ◌+◌, ◌*◌, ◌-◌, ◌/◌, ◌^◌, ◌≤◌, IfErr, min, max};
ghost use Rattle.std.specs.Process.{exit_status};
ghost use Rattle.bench_kit.specs.Fault.{IsPrintFault, status_of};

use crate::fault::Fault;
use std::io;
use std::process::ExitCode;

/// The fault of a failed print, which also takes memory.
pub fn printed(outcome: io::Result<()>) -> Result<(), Fault>
    ensures { IfErr result IsPrintFault }
{
    match outcome {
        Ok(()) => Ok(()),
        Err(error) if error.kind() == io::ErrorKind::OutOfMemory => Err(Fault::OutOfMemory),
        Err(_) => Err(Fault::Write),
    }
}

/// Ends a program: a fault is told on standard error, and gives the exit status. The words are
/// those that the program takes, as its usage shows them.
pub fn end<R: Eprint>(rt: &R, program: &str, words: &str, outcome: Result<(), Fault>) -> ExitCode
    ensures { exit_status result ≡ status_of outcome }
{
    let fault = match outcome {
        Ok(()) => return ExitCode::from(0),
        Err(fault) => fault,
    };
    let _ = match fault {
        Fault::Usage => eprintln!(rt; "usage: {program} {words}"),
        _ => eprintln!(rt; "{program}: {fault}"),
    };
    ExitCode::from(fault.code())
}

/// A quotient, cut off behind its first decimal: the whole part and the tenths. By 0 it divides as
/// by 1.
pub fn tenths(dividend: u128, divisor: u128) -> (u128, u128)
    ensures whole { result.0 * 10 + result.1 ≡ min (dividend * 10) (2 ^ 128 - 1) / max divisor 1 }
    ensures tenths { result.1 ≤ 9 }
{
    let all = dividend.saturating_mul(10) / divisor.max(1);
    (all / 10, all % 10)
}

/// How many there are in a second, where so many take so many nanoseconds. None take as long as one.
pub fn per_second(count: u64, nanos: u128) -> u128
    ensures { result ≡ count * 1_000_000_000 / max nanos 1 }
{
    u128::from(count) * 1_000_000_000 / nanos.max(1)
}
