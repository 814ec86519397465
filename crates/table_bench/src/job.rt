//! What a run does.
ghost use Rattle.std.specs.Prelude.{◌≤◌, map, IfSome};
ghost use Rattle.std.specs.Option.{SomeIff};
ghost use Rattle.std.specs.String.{string_bytes};
ghost use Rattle.bench_kit.specs.Words.{number_of};
ghost use Rattle.table_bench.specs.Words.{Asks, AsksTimes, IsCount, IsJob};

use crate::live::TARGETS_MAX;
use bench_kit::number_in;
use rib_store::ROUTES_MAX;

/// The least number of live targets that may be measured: three routes change, and those of the
/// groups do not.
const TARGETS_LEAST: u32 = 8;

/// The greatest number of groups of each size.
const GROUPS_MAX: u32 = 100_000;

/// What a run does.
#[derive(Clone, Copy)]
pub(crate) enum Job {
    /// Prints the counts at 1,000 routes, at 1,000 live targets and of 100 groups of each size.
    Counts,
    /// Measures the table at so many routes.
    Time(u32),
    /// Measures lists and versions at so many live targets.
    Indexes(u32),
    /// Counts the flows that move in so many groups of each size.
    Flows(u32),
}

/// The job of the words behind the program's name: none, `time` and a number of routes from 1 to
/// [`ROUTES_MAX`], `indexes` and a number of live targets from 8 to [`TARGETS_MAX`], or `flows` and a
/// number of groups from 1 to 100,000.
pub(crate) fn job_of(words: &[String]) -> Option<Job>
    ensures words { Asks (map string_bytes words.now) result }
    ensures bounds { IfSome result IsJob }
{
    match words {
        [] => Some(Job::Counts),
        [word, number] => times_of(word.as_str(), number.as_str()),
        _ => None,
    }
}

/// The job of two words: what is measured, and at how many.
fn times_of(word: &str, number: &str) -> Option<Job>
    ensures words { AsksTimes word.now number.now result }
    ensures bounds { IfSome result IsJob }
{
    match word {
        "time" => Some(Job::Time(count_of(number, 1, ROUTES_MAX)?)),
        "indexes" => Some(Job::Indexes(count_of(number, TARGETS_LEAST, TARGETS_MAX)?)),
        "flows" => Some(Job::Flows(count_of(number, 1, GROUPS_MAX)?)),
        _ => None,
    }
}

/// A number from 1 on between these, both included.
fn count_of(text: &str, least: u32, most: u32) -> Option<u32>
    ensures number { SomeIff result (IsCount least most text.now) (number_of text.now) }
    ensures bounds { IfSome result (λ count. (least ≤ count) × (count ≤ most)) }
{
    match number_in(text, u64::from(most)) {
        Some(count) if u64::from(least) <= count => Some(count as u32),
        _ => None,
    }
}
