//! What a run does.
ghost use Rattle.std.specs.Prelude.{map};
ghost use Rattle.std.specs.Option.{SomeIff};
ghost use Rattle.std.specs.String.{string_bytes};
ghost use Rattle.bench_kit.specs.Words.{IsNumberTo, number_of};
ghost use Rattle.control_bench.specs.Words.{Asks, AsksFor, asked_by};

use bench_kit::number_in;

/// How many plans are drawn where no number is given.
const PLANS: u32 = 24;

/// How many plans are drawn at most, and how many routes are measured.
const COUNT_MAX: u64 = 262_144;

/// What a run does.
#[derive(Clone, Copy, Debug, PartialEq, Eq)]
pub(crate) enum Job {
    /// Compares the images of so many plans with scans.
    Drawn(u32),
    /// Tells the images of one plan, however often memory is refused.
    Refuse,
    /// Measures at so many routes.
    Time(u32),
}

/// The job of the words behind the program's name: none, `refuse`, or `drawn` or `time` with a
/// number from 1 to [`COUNT_MAX`].
pub(crate) fn job_of(words: &[String]) -> Option<Job>
    ensures { Asks (map string_bytes words.now) result }
{
    match words {
        [] => Some(Job::Drawn(PLANS)),
        [word] if word.as_str() == "refuse" => Some(Job::Refuse),
        [word, number] => counted(word.as_str(), number.as_str()),
        _ => None,
    }
}

/// The job of a word and a number.
fn counted(word: &str, number: &str) -> Option<Job>
    ensures { AsksFor (asked_by word.now) number.now result }
{
    match word {
        "drawn" => Some(Job::Drawn(count_of(number)?)),
        "time" => Some(Job::Time(count_of(number)?)),
        _ => None,
    }
}

/// A number of plans or of routes.
fn count_of(text: &str) -> Option<u32>
    ensures { SomeIff result (IsNumberTo 262144 text.now) (number_of text.now) }
{
    let count = number_in(text, COUNT_MAX)?;
    Some(count as u32)
}
