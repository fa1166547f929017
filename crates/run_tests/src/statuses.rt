use crate::decks::{DeckTexts, FILLED, folder_of, status_of};
use kmc_base::{FileId, OutId};
use kmc_run::{Fault, Status};
use std::alloc::Global;
use std::marker::Sync;
use std::process::Abort;
use std::test::Fail;
use std::thread::Threads;

/// Runs the program on four sites that are filled, where it is given these words, and these loads and this append fail.
/// It begins its output if and only if the append is the first.
fn answers<R: Threads + Sync + Abort>(
    rt: &R,
    alloc: Global,
    words: &[&str],
    loads: [u64; 2],
    append: u64,
    status: Status,
) -> Result<(), Fail> {
    let deck = FILLED;
    let mut folder = folder_of(alloc, &deck, loads, append)?;
    assert_eq!(rt; status_of(rt, alloc, words, &mut folder)?, status);
    assert_eq!(rt; folder.output(OutId::Specnum).is_some(), append == 1);
    Ok(())
}

#[test]
fn answers_with_its_cause(rt: HostRuntime) -> Result<(), Fail> {
    const CASES: &[(&[&str], [u64; 2], u64, Status)] = &[
        (&["run"], [4, 0], 0, Status::ReadFault(FileId::Mechanism)),
        (&["run"], [2, 0], 0, Status::ReadFault(FileId::Lattice)),
        (&["run"], [1, 2], 0, Status::ReadFault(FileId::Simulation)),
        (&["run"], [3, 2], 0, Status::ReadFault(FileId::Lattice)),
        (&["run"], [3, 4], 0, Status::ReadFault(FileId::Energetics)),
        (&["run"], [0, 0], 1, Status::WriteFault(OutId::Specnum)),
        (&["run", "run"], [0, 0], 0, Status::BadWords),
        (&["walk"], [0, 0], 0, Status::BadWords),
        (&[], [0, 0], 0, Status::BadWords),
    ];
    for (words, loads, append, status) in CASES {
        answers(&rt, rt.alloc(), *words, *loads, *append, *status)?;
    }
    Ok(())
}

// A file that cannot be read is reported before one that is not there.
#[test]
fn reading_fails_before_a_deck_is_refused(rt: HostRuntime) -> Result<(), Fail> {
    let deck = DeckTexts {
        simulation: ["", ""],
        ..FILLED
    };
    let mut folder = folder_of(rt.alloc(), &deck, [4, 0], 0)?;
    let status = status_of(&rt, rt.alloc(), &["run"], &mut folder)?;
    assert_eq!(rt; status, Status::ReadFault(FileId::Mechanism));
    assert!(rt; folder.output(OutId::Specnum).is_none());
    Ok(())
}

const FAULT: Fault = Fault {
    file: FileId::Lattice,
    line: 2,
    kind: 26,
};

const NUMBERS: &[(Status, u8)] = &[
    (Status::Done, 0),
    (Status::BadWords, 2),
    (Status::Refused(FAULT), 3),
    (Status::ReadFault(FileId::Lattice), 4),
    (Status::WriteFault(OutId::Specnum), 5),
    (Status::ScreenFault, 6),
    (Status::OutOfMemory, 7),
];

#[test]
fn numbers_of_statuses(rt: HostRuntime) {
    for (status, number) in NUMBERS {
        assert_eq!(rt; status.number(), *number);
    }
}
