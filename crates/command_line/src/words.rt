//! What the words of a command line ask for.
ghost use Rattle.std.specs.Prelude.{◌≡◌, IfOk, IfSome, option_map, map, codes, string_bytes, ◌∷◌};
ghost use Rattle.clap.specs.Words.{found_of, rows_of, first_of, one_of};
ghost use Rattle.command_line.specs.Words.{line_of, mode_of, number_at, IsNumberIn, HasNumbers, IsBetween, asked, request_in, request_of, Gives};

use crate::command::find_in;
use crate::request::{Mode, Request};
use clap::ArgMatches;
use std::alloc::{AllocError, AllocFailed, Global};
use thiserror::Error;

/// Why words gave no request.
#[derive(Clone, Copy, Debug, PartialEq, Eq, Error)]
pub enum WordsError {
    /// The words are not those of a command line of the program.
    #[error("usage")]
    Usage,
    /// Memory is wanting.
    #[error("out of memory")]
    OutOfMemory,
}

impl From<AllocError> for WordsError {
    ghost use Rattle.std.specs.Prelude.{◌≡◌};
    ghost use Rattle.command_line.specs.declared.words.WordsError.TheVariants.{OutOfMemory};

    ghost from_gives = { λ _ e. e ≡ OutOfMemory };

    fn from(_: AllocError) -> Self {
        WordsError::OutOfMemory
    }
}

impl<T: Drop> From<AllocFailed<T>> for WordsError {
    ghost use Rattle.std.specs.Prelude.{◌≡◌};
    ghost use Rattle.command_line.specs.declared.words.WordsError.TheVariants.{OutOfMemory};

    ghost from_gives = { λ _ e. e ≡ OutOfMemory };

    fn from(_: AllocFailed<T>) -> Self {
        WordsError::OutOfMemory
    }
}

/// What the words behind the program's name ask. `Usage` comes exactly where the definition takes
/// no such words.
pub fn read_words(alloc: Global, words: &[String]) -> Result<Request, WordsError>
    ensures asked { Gives result (request_of (map string_bytes words.now)) }
    ensures workers { IfOk result (λ request. IfSome request.workers (IsBetween 1 64)) }
    ensures count { IfOk result (λ request. IsBetween 1 1048576 request.count) }
{
    let line = line_with(alloc, words)?;
    let found = find_in(alloc, line.as_slice())?;
    request_from(&found).ok_or(WordsError::Usage)
}

/// The program's name and the words behind it.
fn line_with<'a>(alloc: Global, words: &'a [String]) -> Result<Vec<&'a str>, AllocError>
    ensures { IfOk result (λ line. map (λ word. word.now) line.items ≡ line_of (map string_bytes words.entry.now)) }
{
    let mut line = Vec::new(alloc);
    line.push("fibrun")?;
    for word in words {
        line.push(word.as_str())?;
    }
    Ok(line)
}

/// The request of what clap found, where the mode is one of the program's.
fn request_from(found: &ArgMatches<'_>) -> Option<Request>
    requires { HasNumbers (rows_of (found_of found.now)) }
    ensures { result ≡ request_in (rows_of (found_of found.now)) }
{
    let Some(text) = mode_text(found) else {
        return None;
    };
    let Some(mode) = mode_named(text) else {
        return None;
    };
    Some(asked_in(found, mode))
}

fn mode_text<'a>(found: &ArgMatches<'a>) -> Option<&'a str>
    ensures { option_map (λ text. text.now) result ≡ first_of (codes "mode") (rows_of (found_of found.now)) }
{
    found.get_str("mode")
}

fn asked_in(found: &ArgMatches<'_>, mode: Mode) -> Request
    requires { HasNumbers (rows_of (found_of found.now)) }
    ensures { result ≡ asked (rows_of (found_of found.now)) mode }
{
    Request {
        mode,
        workers: number_in(found, "workers"),
        seed: number_in(found, "seed").unwrap_or(1),
        count: number_in(found, "count").unwrap_or(10_000),
    }
}

fn mode_named(text: &str) -> Option<Mode>
    ensures { result ≡ mode_of text.now }
{
    match text {
        "replay" => Some(Mode::Replay),
        "check" => Some(Mode::Check),
        "show" => Some(Mode::Show),
        "gen" => Some(Mode::Gen),
        _ => None,
    }
}

/// The number of an option, where it is given.
fn number_in(found: &ArgMatches<'_>, id: &str) -> Option<u32>
    requires { IsNumberIn 0 4294967295 (one_of id.now (rows_of (found_of found.now))) }
    ensures { result ≡ number_at id.now (rows_of (found_of found.now)) }
{
    found.get_one::<u32>(id)
}
