//! One line is read.
ghost use Rattle.std.specs.Prelude.{◌≡◌, ◌∷◌, [], ◌≤◌, IfOk, OnOk, MatchOption};
ghost use Rattle.std.specs.List.{list_all};
ghost use Rattle.route_lang.specs.Reader.Asked.{asked_of, by_words, in_time, IsOfForm};
ghost use Rattle.route_lang.specs.Grammar.{from_command, behind_ignored, is_comment, is_ignored, is_taken};
ghost use Rattle.route_lang.specs.Limits.{lines_limit};
ghost use Rattle.route_lang.specs.Text.{words_of};

use crate::asked::{Asked, asked_by};
use crate::fault::Reason;
use crate::script::{LINE_MAX, LINES_MAX};
use crate::text::{is_blank, next_word};
use crate::verb::Verb;
use crate::walk::walk_over;

/// What the line of a number asks for, or the first reason against it. `begun` is whether an
/// earlier line asked for something.
pub(crate) fn read_line(number: u32, line: &[u8], begun: bool) -> Result<Asked, Reason>
    ensures value { result ≡ in_time begun (asked_of number line.now) }
    ensures form { IfOk result IsOfForm }
    ensures within { OnOk result (number ≤ lines_limit) }
{
    if number > LINES_MAX {
        return Err(Reason::TooManyLines);
    }
    if line.len() > LINE_MAX {
        return Err(Reason::LineTooLong);
    }
    let asked = request_of(line)?;
    if asked.is_profile() && begun {
        return Err(Reason::NotFirst);
    }
    Ok(asked)
}

/// What the words of a line ask for.
fn request_of(line: &[u8]) -> Result<Asked, Reason>
    ensures value { result ≡ by_words line.now (words_of line.now) }
    ensures form { IfOk result IsOfForm }
{
    let Some((first, words)) = next_word(line) else {
        return Ok(Asked::Nothing);
    };
    if is_comment(first) {
        return Ok(Asked::Nothing);
    }
    if !are_taken(line) {
        return Err(Reason::BadByte);
    }
    let Some((word, words)) = from_command(first, words) else {
        return Err(Reason::MissingWord);
    };
    let Some(verb) = Verb::of(word) else {
        return Err(Reason::UnknownCommand);
    };
    let met = walk_over(verb, words)?;
    asked_by(verb, &met)
}

/// Whether a line with this first word is a comment.
pub(crate) fn is_comment(word: &[u8]) -> bool
    ensures { result ≡ is_comment word.now }
{
    !word.is_empty() && word[0] == b'#'
}

/// Whether each byte is a blank or a printable one of ASCII.
fn are_taken(line: &[u8]) -> bool
    ensures { result ≡ list_all is_taken line.now }
{
    let mut taken = true;
    // Without an early end several bytes are tested at once.
    'bytes: for byte in line {
        taken &= is_taken(*byte);
    }
    taken
}

fn is_taken(byte: u8) -> bool
    ensures { result ≡ is_taken byte }
{
    is_blank(byte) || (0x21 <= byte && byte <= 0x7e)
}

/// The command word of a line that begins with this word, and what comes behind it.
fn from_command<'a>(first: &'a [u8], words: &'a [u8]) -> Option<(&'a [u8], &'a [u8])>
    ensures { MatchOption result (from_command (first.entry.now ∷ words_of words.entry.now) ≡ []) (λ next. from_command (first.entry.now ∷ words_of words.entry.now) ≡ next.0.now ∷ words_of next.1.now) }
{
    if first == b"route".as_slice() {
        return behind_ignored(words);
    }
    Some((first, words))
}

/// The first word that is not ignored, and what comes behind it.
fn behind_ignored(words: &[u8]) -> Option<(&[u8], &[u8])>
    ensures { MatchOption result (behind_ignored (words_of words.now) ≡ []) (λ next. behind_ignored (words_of words.now) ≡ next.0.now ∷ words_of next.1.now) }
{
    let (word, rest) = next_word(words)?;
    if is_ignored(word) {
        return behind_ignored(rest);
    }
    Some((word, rest))
}

/// `-n` and `-q`, which route(8) takes before its command.
fn is_ignored(word: &[u8]) -> bool
    ensures { result ≡ is_ignored word.now }
{
    word == b"-n".as_slice() || word == b"-q".as_slice()
}
