//! The command as clap is given it, and what clap finds in a line.
ghost use Rattle.std.specs.Prelude.{◌≡◌, IfOk, false, map, codes};
ghost use Rattle.clap.specs.Words.{app_of, rule_of, found_of, rows_of};
ghost use Rattle.command_line.specs.Words.{fibrun, no_flags, mode_rule, number_rule, FindsBy, HasNumbers};

use crate::words::WordsError;
use clap::error::ErrorKind;
use clap::{Arg, ArgMatches, Command, value_parser};
use std::alloc::{AllocError, Global};

/// What clap finds in a line, which is the program's name followed by the words.
pub(crate) fn find_in<'a>(alloc: Global, line: &'a [&'a str]) -> Result<ArgMatches<'a>, WordsError>
    ensures found { FindsBy (λ found. rows_of (found_of found)) result (map (λ word. word.now) line.entry.now) }
    ensures numbers { IfOk result (λ found. HasNumbers (rows_of (found_of found))) }
{
    match command(alloc)?.try_get_matches_from(line) {
        Ok(found) => Ok(found),
        Err(error) if error.kind() == ErrorKind::OutOfMemory => Err(WordsError::OutOfMemory),
        Err(_) => Err(WordsError::Usage),
    }
}

fn command<'a>(alloc: Global) -> Result<Command<'a>, AllocError>
    ensures { IfOk result (λ command. app_of command ≡ fibrun) }
{
    let command = bare_command(alloc).arg(mode(alloc))?.arg(workers(alloc))?;
    command.arg(seed(alloc))?.arg(count(alloc))
}

fn bare_command<'a>(alloc: Global) -> Command<'a>
    ensures { app_of result ≡ no_flags }
{
    Command::new(alloc, "fibrun").disable_help_flag(true)
}

// The text of a mode is matched by hand.
fn mode<'a>(alloc: Global) -> Arg<'a>
    ensures rule { rule_of result ≡ mode_rule }
    ensures local { result.global ≡ false }
{
    Arg::new(alloc, "mode").required(true)
}

fn workers<'a>(alloc: Global) -> Arg<'a>
    ensures rule { rule_of result ≡ number_rule (codes "workers") 1 64 }
    ensures local { result.global ≡ false }
{
    Arg::new(alloc, "workers")
        .long("workers")
        .value_parser(value_parser!(u32).range(1..=64))
}

fn seed<'a>(alloc: Global) -> Arg<'a>
    ensures rule { rule_of result ≡ number_rule (codes "seed") 0 4294967295 }
    ensures local { result.global ≡ false }
{
    Arg::new(alloc, "seed")
        .long("seed")
        .value_parser(value_parser!(u32).range(0..=4_294_967_295))
}

fn count<'a>(alloc: Global) -> Arg<'a>
    ensures rule { rule_of result ≡ number_rule (codes "count") 1 1048576 }
    ensures local { result.global ≡ false }
{
    Arg::new(alloc, "count")
        .long("count")
        .value_parser(value_parser!(u32).range(1..=1_048_576))
}
