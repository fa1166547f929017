//! Words of the command line, and what they ask for.
use crate::{CommandLine, Mode, read_words};
use std::alloc::{AllocError, Global};
use std::test::Fail;

/// The words as a program gets them.
fn owned(alloc: Global, words: &[&str]) -> Result<Vec<String>, AllocError> {
    let mut owned = Vec::new(alloc);
    for word in words {
        owned.push(String::from_str(alloc, *word)?)?;
    }
    Ok(owned)
}

/// What the words ask for.
fn line_of(alloc: Global, words: &[&str]) -> Result<Option<CommandLine>, Fail> {
    let words = owned(alloc, words)?;
    Ok(read_words(alloc, words.as_slice())?)
}

/// Words that are taken, and what they ask for.
const TAKEN: &[(&[&str], Mode, u32, u32)] = &[
    (&["run"], Mode::Run, 1, 64),
    (&["check"], Mode::Check, 1, 64),
    (&["run", "--workers=4"], Mode::Run, 4, 64),
    (&["--spread", "1", "run"], Mode::Run, 1, 1),
    (
        &["run", "--workers", "64", "--spread", "1000000"],
        Mode::Run,
        64,
        1_000_000,
    ),
    (&["--spread=2", "check", "--workers=3"], Mode::Check, 3, 2),
    (&["run", "--workers", "+4"], Mode::Run, 4, 64),
    (&["run", "--workers", "004"], Mode::Run, 4, 64),
    (&["--", "check"], Mode::Check, 1, 64),
    (&["run", "--"], Mode::Run, 1, 64),
    (&["sample", "0"], Mode::Sample(0), 1, 64),
    (&["sample", "7"], Mode::Sample(7), 1, 64),
    (&["sample", "99"], Mode::Sample(99), 1, 64),
    (&["sample", "007"], Mode::Sample(7), 1, 64),
    (&["sample", "+4"], Mode::Sample(4), 1, 64),
    (&["sample", "--workers", "2", "7"], Mode::Sample(7), 2, 64),
    (
        &["--spread=3", "sample", "12", "--workers=2"],
        Mode::Sample(12),
        2,
        3,
    ),
    (&["--", "sample", "7"], Mode::Sample(7), 1, 64),
    (&["sample", "--", "7"], Mode::Sample(7), 1, 64),
];

#[test]
fn taken(rt: HostRuntime) -> Result<(), Fail> {
    for (words, mode, workers, spread) in TAKEN {
        let line = CommandLine {
            mode: *mode,
            workers: *workers,
            spread: *spread,
        };
        assert_eq!(rt; line_of(rt.alloc(), *words)?, Some(line));
    }
    Ok(())
}

/// Words that are not taken.
const NOT_TAKEN: &[&[&str]] = &[
    &[],
    &[""],
    &["run", "3"],
    &["run", ""],
    &["check", "0"],
    &["sample"],
    &["sample", ""],
    &["sample", "100"],
    &["sample", "-1"],
    &["sample", "--", "-1"],
    &["sample", "-0"],
    &["sample", "x"],
    &["sample", "7x"],
    &["sample", " 7"],
    &["sample", "1.0"],
    &["sample", "+"],
    &["sample", "++4"],
    &["sample", "18446744073709551623"],
    &["sample", "1", "2"],
    &["sample", "1", "1"],
    &["sample", "--number", "7"],
    &["sample", "--workers", "7"],
    &["sample", "--workers", "0", "7"],
    &["sample", "run"],
    &["SAMPLE", "7"],
    &["7"],
    &["7", "sample"],
    &["schedule", "1"],
    &["walk"],
    &["RUN"],
    &["run", "run"],
    &["run", "check"],
    &["run", "--workers", "0"],
    &["run", "--workers", "65"],
    &["run", "--workers", "-1"],
    &["run", "--workers", "18446744073709551617"],
    &["run", "--workers", "1.0"],
    &["run", "--workers=x"],
    &["run", "--workers="],
    &["run", "--workers"],
    &["run", "--workers", "--spread"],
    &["run", "--workers", "1", "--workers", "2"],
    &["run", "--workers", "1", "--workers", "1"],
    &["run", "--work", "2"],
    &["run", "-w", "2"],
    &["run", "--spread", "0"],
    &["run", "--spread", "1000001"],
    &["--workers", "2"],
    &["--help"],
    &["-h"],
    &["help"],
    &["run", "--help"],
    &["--version"],
    &["-V"],
    &["--", "--workers", "2"],
];

#[test]
fn not_taken(rt: HostRuntime) -> Result<(), Fail> {
    for words in NOT_TAKEN {
        assert_eq!(rt; line_of(rt.alloc(), *words)?, None);
    }
    Ok(())
}
