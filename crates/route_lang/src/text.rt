//! Lines and words of a text.
ghost use Rattle.std.specs.Prelude.{◌≡◌, ◌∷◌, [], ◌<◌, ◌≤◌, MatchOption, not, false, length, slice_index, IfSome};
ghost use Rattle.std.specs.List.{position_from};
ghost use Rattle.route_lang.specs.Text.{lines_of, words_of, is_blank, is_feed};

/// The first line of a text, and what comes behind its line feed.
pub(crate) fn next_line(text: &[u8]) -> Option<(&[u8], &[u8])>
    ensures { MatchOption result (lines_of text.now ≡ []) (λ next. lines_of text.now ≡ next.0.now ∷ lines_of next.1.now) }
{
    if text.is_empty() {
        return None;
    }
    match first_feed(text) {
        Some(end) => Some((&text[..end], &text[end + 1..])),
        None => Some((text, &text[text.len()..])),
    }
}

/// Where the first line feed of a text stands.
fn first_feed(text: &[u8]) -> Option<usize>
    ensures place { result ≡ position_from is_feed 0 text.now }
    ensures inside { IfSome result (λ place. place < length text.now) }
{
    text.iter().position(|byte| *byte == b'\n')
}

/// The first word of a line, and what comes behind it.
pub(crate) fn next_word(line: &[u8]) -> Option<(&[u8], &[u8])>
    ensures { MatchOption result (words_of line.now ≡ []) (λ next. words_of line.now ≡ next.0.now ∷ words_of next.1.now) }
{
    let start = first_solid(line)?;
    Some(word_at(&line[start..]))
}

/// The word that bytes begin with, and what comes behind the blank at its end.
fn word_at(solid: &[u8]) -> (&[u8], &[u8])
    requires some { 0 < length solid.now }
    requires no_blank { is_blank (slice_index solid.now 0) ≡ false }
    ensures { words_of solid.now ≡ result.0.now ∷ words_of result.1.now }
{
    match first_blank(solid) {
        Some(end) => (&solid[..end], &solid[end + 1..]),
        None => (solid, &solid[solid.len()..]),
    }
}

/// Where the first byte of a line stands that is no blank.
fn first_solid(line: &[u8]) -> Option<usize>
    ensures place { result ≡ position_from (λ byte. not (is_blank byte)) 0 line.now }
    ensures inside { IfSome result (λ place. place < length line.now) }
{
    line.iter().position(|byte| !is_blank(*byte))
}

/// Where the first blank of a line stands.
fn first_blank(line: &[u8]) -> Option<usize>
    ensures place { result ≡ position_from is_blank 0 line.now }
    ensures inside { IfSome result (λ place. place < length line.now) }
{
    line.iter().position(|byte| is_blank(*byte))
}

pub(crate) fn is_blank(byte: u8) -> bool
    ensures { result ≡ is_blank byte }
{
    byte == b' ' || byte == b'\t' || byte == b'\r'
}

/// How many lines a text has.
pub fn line_count(text: &[u8]) -> usize
    ensures count { result ≡ length (lines_of text.now) }
    ensures most { result ≤ length text.now }
{
    let mut count = 0;
    let mut rest = text;
    'lines: while let Some((_line, after)) = next_line(rest) {
        count += 1;
        rest = after;
    }
    count
}
