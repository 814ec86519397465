//! What a run does.
ghost use Rattle.std.specs.Prelude.{map};
ghost use Rattle.std.specs.Option.{SomeIff};
ghost use Rattle.std.specs.String.{string_bytes};
ghost use Rattle.bench_kit.specs.Words.{IsNumberTo, number_of};
ghost use Rattle.fib_soak.specs.Words.{Asks, AsksRun, IsPasses};

use bench_kit::number_in;

/// How many seconds a soak takes at most: a day.
const SOAK_MAX: u32 = 86_400;

/// For how many seconds a version is held at most: an hour.
const HOLD_MAX: u32 = 3_600;

/// How many passes a fib has at most.
const PASSES_MAX: u64 = 64;

/// What a run does.
#[derive(Clone, Copy)]
pub(crate) enum Job {
    /// Shows a few passes.
    Show,
    /// Lets passes look up for so many seconds.
    Soak {
        /// How long it goes on, 1 to [`SOAK_MAX`].
        seconds: u32,
        /// How many passes, 1 to [`PASSES_MAX`].
        passes: u8,
    },
    /// Lets one of the passes hold its version for so many seconds.
    Hold {
        /// How long it is held, 1 to [`HOLD_MAX`].
        seconds: u32,
        /// How many passes with that one, 2 to [`PASSES_MAX`].
        passes: u8,
    },
}

/// The job of the words behind the program's name: none, or `soak` or `hold` with a number of
/// seconds and a number of passes.
pub(crate) fn job_of(words: &[String]) -> Option<Job>
    ensures { Asks (map string_bytes words.now) result }
{
    match words {
        [] => Some(Job::Show),
        [word, seconds, passes] => run_of(word.as_str(), seconds.as_str(), passes.as_str()),
        _ => None,
    }
}

/// The job of three words.
fn run_of(word: &str, seconds: &str, passes: &str) -> Option<Job>
    ensures { AsksRun word.now seconds.now passes.now result }
{
    match word {
        "soak" => Some(Job::Soak {
            seconds: seconds_of(seconds, SOAK_MAX)?,
            passes: passes_of(passes, 1)?,
        }),
        "hold" => Some(Job::Hold {
            seconds: seconds_of(seconds, HOLD_MAX)?,
            passes: passes_of(passes, 2)?,
        }),
        _ => None,
    }
}

/// A number of seconds, 1 to `most`.
fn seconds_of(text: &str, most: u32) -> Option<u32>
    ensures { SomeIff result (IsNumberTo most text.now) (number_of text.now) }
{
    let seconds = number_in(text, u64::from(most))?;
    Some(seconds as u32)
}

/// A number of passes, `least` to [`PASSES_MAX`].
fn passes_of(text: &str, least: u8) -> Option<u8>
    ensures { SomeIff result (IsPasses least text.now) (number_of text.now) }
{
    match number_in(text, PASSES_MAX) {
        Some(passes) if u64::from(least) <= passes => Some(passes as u8),
        _ => None,
    }
}
