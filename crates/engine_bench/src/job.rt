//! What a run does.
ghost use Rattle.std.specs.Option.{SomeIff};
ghost use Rattle.bench_kit.specs.Words.{IsNumberTo, number_of};
ghost use Rattle.engine_bench.specs.declared.job.TheConstants.{ROUTES_MAX};

use bench_kit::number_in;

/// How many routes are measured at most.
const ROUTES_MAX: u64 = 1_000_000;

/// What a run does.
#[derive(Clone, Copy)]
pub(crate) enum Job {
    /// Prints the check sums at 1,000 routes.
    Sums,
    /// Measures at so many routes.
    Time(usize),
    /// The same of dxr alone.
    Dxr(usize),
}

/// The job of the words behind the program's name: none, or `time` or `dxr` and a number of
/// routes from 1 to [`ROUTES_MAX`].
pub(crate) fn job_of(words: &[String]) -> Option<Job> {
    match words {
        [] => Some(Job::Sums),
        [word, number] if word.as_str() == "time" => Some(Job::Time(routes_of(number.as_str())?)),
        [word, number] if word.as_str() == "dxr" => Some(Job::Dxr(routes_of(number.as_str())?)),
        _ => None,
    }
}

/// A number of routes that may be measured.
fn routes_of(text: &str) -> Option<usize>
    ensures { SomeIff result (IsNumberTo ROUTES_MAX text.now) (number_of text.now) }
{
    let routes = number_in(text, ROUTES_MAX)?;
    Some(routes as usize)
}
