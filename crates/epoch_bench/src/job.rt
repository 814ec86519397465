//! What a run does.
ghost use Rattle.std.specs.Prelude.{IfSome, IfNone, map, string_bytes, ℕ, ◌∷◌, []};
ghost use Rattle.epoch_bench.specs.Words.{Asks, AsksRounds, HasRounds};

use bench_kit::number_in;

/// How many rounds are measured at most.
const ROUNDS_MAX: u64 = 1_000_000_000;

/// What a run does.
#[derive(Clone, Copy, Debug, PartialEq, Eq)]
pub(crate) enum Job {
    /// Shows what readers get beside a control.
    Show,
    /// Measures over so many rounds.
    Time(u64),
}

/// The job of the words behind the program's name: none, or `time` and a number of rounds from 1
/// to [`ROUNDS_MAX`].
pub(crate) fn job_of(words: &[String]) -> Option<Job>
    ensures taken { IfSome result (λ job. Asks (map string_bytes words.now) job) }
    ensures refused { IfNone result ((job : Job) → ¬ Asks (map string_bytes words.now) job) }
    ensures rounds { IfSome result (λ job. HasRounds job) }
{
    match words {
        [] => Some(Job::Show),
        [word, number] => job_of_both(word.as_str(), number.as_str()),
        _ => None,
    }
}

/// The job of two words.
fn job_of_both(word: &str, number: &str) -> Option<Job>
    ensures taken { IfSome result (λ job. Asks (word.now ∷ number.now ∷ []) job) }
    ensures refused { IfNone result ((job : Job) → ¬ Asks (word.now ∷ number.now ∷ []) job) }
    ensures rounds { IfSome result (λ job. HasRounds job) }
{
    if word == "time" {
        Some(Job::Time(rounds_of(number)?))
    } else {
        None
    }
}

/// A number of rounds that may be measured.
fn rounds_of(text: &str) -> Option<u64>
    ensures taken { IfSome result (λ rounds. AsksRounds text.now rounds) }
    ensures refused { IfNone result ((rounds : ℕ) → ¬ AsksRounds text.now rounds) }
{
    number_in(text, ROUNDS_MAX)
}
