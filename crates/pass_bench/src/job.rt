//! What a run does.
ghost use Rattle.std.specs.Prelude.{map};
ghost use Rattle.std.specs.Option.{SomeIff};
ghost use Rattle.std.specs.String.{string_bytes};
ghost use Rattle.bench_kit.specs.Words.{IsNumberTo, number_of};
ghost use Rattle.pass_bench.specs.Words.{Asks, AsksTimes};

use bench_kit::number_in;

/// How many routes are measured at most.
const ROUTES_MAX: u64 = 262_144;

/// What a run does.
#[derive(Clone, Copy)]
pub(crate) enum Job {
    /// Shows what passes get beside a publisher.
    Show,
    /// Measures passes at so many routes.
    Time(u32),
    /// Measures what an image adds to the lookup of its engine, at so many routes.
    Resolve(u32),
}

/// The job of the words behind the program's name: none, or `time` or `resolve` and a number of
/// routes from 1 to [`ROUTES_MAX`].
pub(crate) fn job_of(words: &[String]) -> Option<Job>
    ensures { Asks (map string_bytes words.now) result }
{
    match words {
        [] => Some(Job::Show),
        [word, number] => times_of(word.as_str(), number.as_str()),
        _ => None,
    }
}

/// The job of two words: what is measured, and at how many routes.
fn times_of(word: &str, number: &str) -> Option<Job>
    ensures { AsksTimes word.now number.now result }
{
    match word {
        "time" => Some(Job::Time(routes_of(number)?)),
        "resolve" => Some(Job::Resolve(routes_of(number)?)),
        _ => None,
    }
}

/// A number of routes that may be measured.
fn routes_of(text: &str) -> Option<u32>
    ensures { SomeIff result (IsNumberTo 262144 text.now) (number_of text.now) }
{
    let routes = number_in(text, ROUTES_MAX)?;
    Some(routes as u32)
}
