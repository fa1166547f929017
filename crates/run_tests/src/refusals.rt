use crate::decks::{
    DeckTexts, ENERGETICS, FILLED, FILLS, LATTICE, SAMPLED, SPECIES, folder_of, status_of,
};
use deck_shape::kind;
use kmc_base::{FileId, MemoryFolder, OutId};
use kmc_run::{Fault, Status};
use std::alloc::{AllocError, Global};
use std::marker::Sync;
use std::process::Abort;
use std::test::Fail;
use std::thread::Threads;

/// A lattice file that ends before its closing word.
const OPEN: &str = "lattice explicit\n";

/// A lattice whose sites are their own neighbours.
const NARROW: &str = "lattice default_choice\nrectangular_periodic 1.0 1 2\nend_lattice\n";

/// A lattice with a site whose type is unknown.
const UNKNOWN: &str =
    "lattice explicit\nn_sites 2\nn_site_types 1\nsite_type_names top\nlattice_structure\n1 0.0 0.0 top 1 2\n2 1.0 0.0 2 1 1\nend_lattice_structure\nend_lattice\n";

/// Runs the program on a deck that is refused with a fault of this file, line and kind. It begins no output.
fn refuses<R: Threads + Sync + Abort>(
    rt: &R,
    alloc: Global,
    deck: &DeckTexts,
    (file, line, kind): (FileId, u32, u8),
) -> Result<(), Fail> {
    let mut folder = folder_of(alloc, deck, [0, 0], 0)?;
    let status = status_of(rt, alloc, &["run"], &mut folder)?;
    assert_eq!(rt; status, Status::Refused(Fault { file, line, kind }));
    assert!(rt; folder.output(OutId::Specnum).is_none());
    Ok(())
}

#[test]
fn refuses_simulation_files(rt: HostRuntime) -> Result<(), Fail> {
    // The last lines of the file, and the line and the kind of its fault.
    const CASES: &[(&str, u32, u8)] = &[
        (
            "pressure 1.0\nsurf_specs_dent 1\ntemperature 400.0\nfinish\n",
            11,
            kind::REPEATED_WORD,
        ),
        ("surf_specs_dent 1\nfinish\n", 10, kind::MISSING_WORD),
        (
            "pressure 1.0\nsurf_specs_dent 1 1\nfinish\n",
            10,
            kind::LIST_LENGTH,
        ),
    ];
    for (rest, line, kind) in CASES {
        let deck = DeckTexts {
            simulation: [SPECIES, *rest],
            ..FILLED
        };
        refuses(&rt, rt.alloc(), &deck, (FileId::Simulation, *line, *kind))?;
    }
    Ok(())
}

// Faults of form come before faults of values, those before faults of names, and of two faults of one of these passes that
// of the earlier file comes first. A name is faulty here where a site type is unknown, or where a step has one dentate of a
// species of two.
#[test]
fn refuses_lattice_files(rt: HostRuntime) -> Result<(), Fail> {
    const CASES: &[(&str, &str, FileId, u32, u8)] = &[
        (SAMPLED, NARROW, FileId::Lattice, 2, kind::SELF_NEIGHBOUR),
        (SAMPLED, UNKNOWN, FileId::Lattice, 7, kind::UNKNOWN_TYPE),
        (
            "pressure 1.0\nsurf_specs_dent 1 1\nfinish\n",
            OPEN,
            FileId::Lattice,
            2,
            kind::NOT_CLOSED,
        ),
        (
            "surf_specs_dent 1\nfinish\n",
            OPEN,
            FileId::Simulation,
            10,
            kind::MISSING_WORD,
        ),
        (
            "pressure 1.0\nsurf_specs_dent 1 1\nfinish\n",
            NARROW,
            FileId::Simulation,
            10,
            kind::LIST_LENGTH,
        ),
        (
            "pressure 1.0\nsurf_specs_dent 2\nfinish\n",
            UNKNOWN,
            FileId::Lattice,
            7,
            kind::UNKNOWN_TYPE,
        ),
        (
            "pressure 1.0\nsurf_specs_dent 2\nfinish\n",
            LATTICE,
            FileId::Mechanism,
            6,
            kind::MISSING_DENTATE,
        ),
    ];
    for (rest, lattice, file, line, kind) in CASES {
        let deck = DeckTexts {
            simulation: [SPECIES, *rest],
            lattice: *lattice,
            ..FILLED
        };
        refuses(&rt, rt.alloc(), &deck, (*file, *line, *kind))?;
    }
    Ok(())
}

/// A lattice file that ends in its cell, and a mechanism file with a word twice, above a row with an unknown species.
const OPEN_CELL: &str = "lattice periodic_cell\nrepeat_cell 3 3\n";

const TWICE: &str =
    "mechanism\nstep ads\nsites 1\nsites 1\ninitial\n1 Q* 1\nfinal\n1 A* 1\npre_expon 1\nactiv_eng 0\nend_step\nend_mechanism\n";

// Kind 1 is a file that is not there.
#[test]
fn refuses_with_the_first_fault(rt: HostRuntime) -> Result<(), Fail> {
    const CASES: &[(&str, &str, &str, &str, FileId, u32, u8)] = &[
        (SAMPLED, OPEN, "", FILLS, FileId::Energetics, 0, 1),
        ("finish\n", LATTICE, ENERGETICS, "", FileId::Mechanism, 0, 1),
        (
            SAMPLED,
            OPEN,
            "more\n",
            FILLS,
            FileId::Lattice,
            2,
            kind::NOT_CLOSED,
        ),
        (
            SAMPLED,
            LATTICE,
            "more\n",
            "more\n",
            FileId::Energetics,
            1,
            kind::UNKNOWN_WORD,
        ),
        (
            SAMPLED,
            LATTICE,
            ENERGETICS,
            "more\n",
            FileId::Mechanism,
            1,
            kind::UNKNOWN_WORD,
        ),
        (
            SAMPLED,
            OPEN_CELL,
            ENERGETICS,
            FILLS,
            FileId::Lattice,
            3,
            kind::NOT_CLOSED,
        ),
        (
            SAMPLED,
            LATTICE,
            ENERGETICS,
            TWICE,
            FileId::Mechanism,
            4,
            kind::REPEATED_WORD,
        ),
    ];
    for (rest, lattice, energetics, mechanism, file, line, kind) in CASES {
        let deck = DeckTexts {
            simulation: [SPECIES, *rest],
            lattice: *lattice,
            energetics: *energetics,
            mechanism: *mechanism,
        };
        refuses(&rt, rt.alloc(), &deck, (*file, *line, *kind))?;
    }
    Ok(())
}

/// A folder of three files, of which that of the lattice has one byte more than a file may have.
fn folder_with_a_long_file(alloc: Global) -> Result<MemoryFolder, AllocError> {
    let files = vec![in alloc;
        (FileId::Simulation, Vec::from_slice(alloc, b"finish\n")?),
        (FileId::Lattice, vec![in alloc; b' '; 16_777_217]?),
        (FileId::Energetics, Vec::from_slice(alloc, b"more\n")?),
    ]?;
    Ok(MemoryFolder::new(files, Vec::new(alloc), Vec::new(alloc), Vec::new(alloc)))
}

// Kind 2 is a file of more bytes than a file may have.
#[test]
fn refuses_a_file_that_is_too_long(rt: HostRuntime) -> Result<(), Fail> {
    let mut folder = folder_with_a_long_file(rt.alloc())?;
    let fault = Fault {
        file: FileId::Lattice,
        line: 0,
        kind: 2,
    };
    let status = status_of(&rt, rt.alloc(), &["run"], &mut folder)?;
    assert_eq!(rt; status, Status::Refused(fault));
    assert!(rt; folder.output(OutId::Specnum).is_none());
    Ok(())
}
