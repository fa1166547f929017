use crate::decks::{DeckTexts, FILLED, folder_of, owned};
use kmc_base::{FileId, MemorySink, OpenGate, OutId};
use kmc_run::{Fault, Status, run_program};
use std::alloc::Global;
use std::marker::Sync;
use std::process::Abort;
use std::test::Fail;
use std::thread::Threads;

/// The line of a run of four sites that are filled one after another, and what a check of it shows.
const RAN: &str = "done events 4 time 0.000000000000000001 stop still\n";

const CHECKED: &str = "sites 4\nprocesses 1\nclusters 0\n";

/// What the command line takes.
const USAGE: &str = "kmc: run, check, sample N or schedule N, with --workers W and --spread M\n";

/// Runs the program where it is given these words, these loads and this append fail, and this put of the screen. They are
/// counted from 1. It ends with a status and with a text on the screen.
fn shows<R: Threads + Sync + Abort>(
    rt: &R,
    alloc: Global,
    words: &[&str],
    deck: &DeckTexts,
    (loads, append, put): ([u64; 2], u64, u64),
    (status, text): (Status, &str),
) -> Result<(), Fail> {
    let mut folder = folder_of(alloc, deck, loads, append)?;
    let words = owned(alloc, words)?;
    let puts = Vec::from_array(alloc, [put])?;
    let mut screen = MemorySink::new(alloc, 200, puts).map_err(|(_, error)| error)?;
    let answer = run_program(rt, alloc, &words, &mut folder, &mut screen, &OpenGate);
    assert_eq!(rt; answer, status);
    assert_eq!(rt; screen.text().unwrap_or(b"not told"), text.as_bytes());
    Ok(())
}

#[test]
fn text_of_each_status(rt: HostRuntime) -> Result<(), Fail> {
    const CASES: &[(&[&str], [u64; 2], u64, Status, &str)] = &[
        (&["run"], [0, 0], 0, Status::Done, RAN),
        (&["run", "--workers=4"], [0, 0], 0, Status::Done, RAN),
        (&["--spread", "1", "run"], [0, 0], 0, Status::Done, RAN),
        (&["check"], [0, 0], 0, Status::Done, CHECKED),
        (&[], [0, 0], 0, Status::BadWords, USAGE),
        (&["run", "3"], [0, 0], 0, Status::BadWords, USAGE),
        (
            &["run", "--workers", "0"],
            [0, 0],
            0,
            Status::BadWords,
            USAGE,
        ),
        (&["walk"], [0, 0], 0, Status::BadWords, USAGE),
        (
            &["check"],
            [2, 0],
            0,
            Status::ReadFault(FileId::Lattice),
            "cannot read lattice_input.dat\n",
        ),
        (
            &["run"],
            [0, 0],
            1,
            Status::WriteFault(OutId::Specnum),
            "cannot write specnum_output.txt\n",
        ),
    ];
    for (words, loads, append, status, text) in CASES {
        let failing = (*loads, *append, 0);
        shows(&rt, rt.alloc(), *words, &FILLED, failing, (*status, *text))?;
    }
    Ok(())
}

/// A deck whose lattice joins its sites to themselves, and its fault.
const NARROW: DeckTexts = DeckTexts {
    lattice: "lattice default_choice\nrectangular_periodic 1.0 1 2\nend_lattice\n",
    ..FILLED
};

const FAULT: Status = Status::Refused(Fault {
    file: FileId::Lattice,
    line: 2,
    kind: 26,
});

#[test]
fn text_of_a_fault(rt: HostRuntime) -> Result<(), Fail> {
    // A run and a check tell the same. Where the screen fails, it has a front of the text.
    const CASES: &[(&str, u64, &str)] = &[
        ("run", 0, "fault lattice_input.dat line 2 kind 26\n"),
        ("check", 0, "fault lattice_input.dat line 2 kind 26\n"),
        ("check", 1, ""),
    ];
    for (word, put, text) in CASES {
        shows(
            &rt,
            rt.alloc(),
            &[*word],
            &NARROW,
            ([0, 0], 0, *put),
            (FAULT, *text),
        )?;
    }
    Ok(())
}

#[test]
fn screen_that_fails(rt: HostRuntime) -> Result<(), Fail> {
    // Only where all else was done is it the screen that is told of.
    const CASES: &[(&str, Status)] = &[
        ("run", Status::ScreenFault),
        ("check", Status::ScreenFault),
        ("walk", Status::BadWords),
    ];
    for (word, status) in CASES {
        shows(
            &rt,
            rt.alloc(),
            &[*word],
            &FILLED,
            ([0, 0], 0, 1),
            (*status, ""),
        )?;
    }
    Ok(())
}
