//! Command lines that are taken, and such as are refused.
use crate::{Mode, Request, WordsError, read_words};
use std::alloc::Global;
use std::test::Fail;

fn words_of(alloc: Global, line: &str) -> Result<Vec<String>, Fail> {
    let mut words = Vec::new(alloc);
    for word in line.split_ascii_whitespace() {
        words.push(String::from_str(alloc, word)?)?;
    }
    Ok(words)
}

#[test]
fn words_are_taken_with_their_numbers(rt: HostRuntime) -> Result<(), Fail> {
    let alloc = rt.alloc();
    let taken = |mode: Mode, workers: Option<u32>, seed: u32, count: u32| Request {
        mode,
        workers,
        seed,
        count,
    };
    for (line, request) in [
        (
            "replay --workers 64",
            taken(Mode::Replay, Some(64), 1, 10_000),
        ),
        ("check", taken(Mode::Check, None, 1, 10_000)),
        ("show --seed 0", taken(Mode::Show, None, 0, 10_000)),
        ("gen --count 1", taken(Mode::Gen, None, 1, 1)),
        ("gen --count 1048576", taken(Mode::Gen, None, 1, 1_048_576)),
        (
            "gen --seed 4294967295",
            taken(Mode::Gen, None, 4_294_967_295, 10_000),
        ),
        ("--seed 007 gen", taken(Mode::Gen, None, 7, 10_000)),
        ("replay --seed +5", taken(Mode::Replay, None, 5, 10_000)),
        ("replay --seed=-0", taken(Mode::Replay, None, 0, 10_000)),
        (
            "--workers=3 replay",
            taken(Mode::Replay, Some(3), 1, 10_000),
        ),
        ("-- replay", taken(Mode::Replay, None, 1, 10_000)),
    ] {
        let words = words_of(alloc, line)?;
        assert_eq!(rt;
            read_words(alloc, words.as_slice()),
            Ok(request),
            "of {line}"
        );
    }
    Ok(())
}

#[test]
fn other_words_are_refused(rt: HostRuntime) -> Result<(), Fail> {
    let alloc = rt.alloc();
    for line in [
        "",
        "play",
        "Replay",
        "replay replay",
        "replay --workers 0",
        "replay --workers 65",
        "check --workers 65",
        "replay --seed 4294967296",
        "replay --seed -0",
        "replay --seed",
        "replay --see 1",
        "gen --count 0",
        "gen --count 1048577",
        "gen --seed 1 --seed 1",
        "--help",
        "-h",
        "replay --help",
        "--version",
    ] {
        let words = words_of(alloc, line)?;
        assert_eq!(rt;
            read_words(alloc, words.as_slice()),
            Err(WordsError::Usage),
            "of {line}"
        );
    }
    Ok(())
}

#[test]
fn faults_have_these_texts(rt: HostRuntime) -> Result<(), Fail> {
    let alloc = rt.alloc();
    for (error, text) in [
        (WordsError::Usage, "usage"),
        (WordsError::OutOfMemory, "out of memory"),
    ] {
        assert_eq!(rt; format!(in alloc; "{error}")?.as_str(), text);
    }
    Ok(())
}
