//! The shape of files: their blocks, and their faults of form.

use deck_shape::{Block, BlockForm, DeckFault, Keyword, read_shape};
use kmc_base::FileId;
use std::alloc::{AllocError, Global};
use std::process::Abort;
use std::test::Fail;

/// The number of word lines of the file's block and the line of its closing word, or the line and the kind of its
/// fault.
fn outline(alloc: Global, file: FileId, text: &[u8]) -> Result<(usize, u32), (u32, u8)> {
    if text.len() > 1000 {
        return Err((0, 0));
    }
    match read_shape(alloc, file, text) {
        Ok(shape) => Ok((shape.block.items.len(), shape.block.end_line)),
        Err(DeckFault::Fault(fault)) if fault.file == file => Err((fault.line, fault.kind)),
        Err(_) => Err((0, 0)),
    }
}

const SPECIES: &str =
    "n_gas_species 1\ngas_specs_names A\ngas_energies 0.0\ngas_molar_fracs 1.0\nn_surf_species 1\nsurf_specs_names A*\nsurf_specs_dent 1\n";

/// How a simulation file ends: its pressure and its last lines, and its outline or its fault.
type Ending = (&'static str, &'static str, Result<(usize, u32), (u32, u8)>);

const ENDINGS: &[Ending] = &[
    ("pressure 1.0\n", "finish\n", Ok((10, 11))),
    ("pressure 1.0\n", "finish\n1 2\nno_word\n", Ok((10, 11))),
    (
        "pressure 1.0\n",
        "temperature 400.0\nfinish\n",
        Err((11, 7)),
    ),
    ("", "finish\n", Err((10, 8))),
    ("pressure 1.0\n", "finish 1\n", Err((11, 6))),
    ("pressure 1.0\n", "no_restart", Err((12, 9))),
];

#[test]
fn simulation_files(rt: HostRuntime) -> Result<(), Fail> {
    for (pressure, end, want) in ENDINGS {
        let text = format!(in rt.alloc();
            "random_seed 1\ntemperature 500.0\n{pressure}{SPECIES}{end}"
        )?;
        let found = outline(rt.alloc(), FileId::Simulation, text.as_bytes());
        assert_eq!(rt; found, *want, "{pressure:?} {end:?}");
    }
    Ok(())
}

/// Looks at the fault of each of these files.
fn look_at_faults(rt: &impl Abort, alloc: Global, file: FileId, faults: &[(&str, u32, u8)]) {
    for (text, line, kind) in faults {
        let fault = outline(alloc, file, text.as_bytes());
        assert_eq!(rt; fault, Err((*line, *kind)), "{text:?}");
    }
}

const SIMULATION_FAULTS: &[(&str, u32, u8)] = &[
    ("", 1, 9),
    ("\n \n", 3, 9),
    ("pressure 1", 2, 9),
    ("\n# a row\n+1 2\n", 3, 3),
    ("pressure 1\n2\n", 2, 3),
    ("pressure 1\n-1\n", 2, 3),
    ("pressure 1\n.5\n", 2, 3),
    ("pressure 1\n& & &\n", 2, 3),
    ("pressur 1\n", 1, 4),
    ("override_array_bounds & 1\n", 1, 5),
    ("pressure\n", 1, 6),
    ("snapshots on event 5 6\n", 1, 6),
    ("pressure 1\npressure 1 2\n", 2, 6),
    ("pressure 1\npressure 2\nno_word\n", 2, 7),
    ("pressure 1\nno_word\npressure 2\n", 2, 4),
    ("finish\n", 1, 8),
];

const LATTICE_FAULTS: &[(&str, u32, u8)] = &[
    ("repeat_cell 3 3\n", 1, 4),
    ("lattice\n", 1, 6),
    ("lattice hexagonal\n", 1, 10),
    ("lattice explicit\nlattice explicit\n", 2, 4),
    ("lattice periodic_cell\nrepeat_cell 3 3\n", 3, 9),
    ("lattice periodic_cell\n1 0\n", 2, 3),
    ("lattice default_choice\ntriangular_periodic 1 3 3\n", 2, 5),
    (
        "lattice explicit\nlattice_structure\n1 0 0 A 0\nn_sites 1\n",
        4,
        4,
    ),
    (
        "lattice explicit\nlattice_structure\nend_lattice_structure\n1 0 0 A 0\n",
        4,
        3,
    ),
];

#[test]
fn faults_of_form(rt: HostRuntime) {
    look_at_faults(&rt, rt.alloc(), FileId::Simulation, SIMULATION_FAULTS);
    look_at_faults(&rt, rt.alloc(), FileId::Lattice, LATTICE_FAULTS);
}

/// Files whose last line has a closing word with an argument.
const CLOSED_WITH_ARGUMENT: &[(FileId, &str, u32)] = &[
    (
        FileId::Simulation,
        "temperature 1\npressure 1\nfinish now\n",
        3,
    ),
    (
        FileId::Lattice,
        "lattice default_choice\nrectangular_periodic 1 2 2\nend_lattice x\n",
        3,
    ),
    (FileId::Lattice, "lattice periodic_cell\nend_lattice 1\n", 2),
    (FileId::Lattice, "lattice explicit\nend_lattice 1\n", 2),
    (
        FileId::Lattice,
        "lattice periodic_cell\nneighboring_structure\nend_neighboring_structure 1\n",
        3,
    ),
    (
        FileId::Lattice,
        "lattice explicit\nlattice_structure\nend_lattice_structure 1\n",
        3,
    ),
];

#[test]
fn arguments_of_closing_words(rt: HostRuntime) {
    for (file, text, line) in CLOSED_WITH_ARGUMENT {
        let fault = outline(rt.alloc(), *file, text.as_bytes());
        assert_eq!(rt; fault, Err((*line, 6)), "{text:?}");
    }
}

const SIMULATION_ONCE: &[&str] = &[
    "random_seed 1\n",
    "temperature 1\n",
    "pressure 1\n",
    "n_gas_species 0\n",
    "gas_specs_names\n",
    "gas_energies\n",
    "gas_molec_weights\n",
    "gas_molar_fracs\n",
    "n_surf_species 0\n",
    "surf_specs_names\n",
    "surf_specs_dent\n",
    "snapshots off\n",
    "process_statistics off\n",
    "species_numbers off\n",
    "event_report off\n",
    "max_steps 0\n",
    "max_time 0\n",
    "wall_time 0\n",
    "no_restart\n",
];

const DEFAULT_ONCE: &[&str] = &["rectangular_periodic 1 2 2\n", "hexagonal_periodic 1 2 2\n"];

const CELL_ONCE: &[&str] = &[
    "cell_vectors\n",
    "repeat_cell 2 2\n",
    "n_cell_sites 1\n",
    "n_site_types 1\n",
    "site_type_names A\n",
    "site_types A\n",
    "site_coordinates\n",
];

const EXPLICIT_ONCE: &[&str] = &[
    "n_sites 1\n",
    "max_coord 1\n",
    "n_site_types 1\n",
    "site_type_names A\n",
];

/// Lattice files with a word twice, and the line and the kind of the fault.
const LATTICE_REPEATS: &[(&str, u32, u8)] = &[
    (
        "lattice default_choice\nrectangular_periodic 1 3 3\nhexagonal_periodic 1 3 3\n",
        3,
        7,
    ),
    (
        "lattice default_choice\nhexagonal_periodic 1 3 3\nrectangular_periodic 1 3 3\n",
        3,
        7,
    ),
    (
        "lattice periodic_cell\nneighboring_structure\nend_neighboring_structure\nneighboring_structure\n",
        4,
        7,
    ),
    (
        "lattice explicit\nlattice_structure\nend_lattice_structure\nlattice_structure\n",
        4,
        7,
    ),
];

/// Looks at files that begin with these lines and then have a word line twice, one file for each word. The second is at
/// this line.
fn look_at_repeats(
    rt: &impl Abort,
    alloc: Global,
    file: FileId,
    head: &str,
    words: &[&str],
    line: u32,
) -> Result<(), AllocError> {
    for word in words {
        let text = format!(in alloc; "{head}{word}{word}")?;
        let fault = outline(alloc, file, text.as_bytes());
        assert_eq!(rt; fault, Err((line, 7)), "{word:?}");
    }
    Ok(())
}

#[test]
fn repeated_words(rt: HostRuntime) -> Result<(), Fail> {
    let alloc = rt.alloc();
    look_at_repeats(&rt, alloc, FileId::Simulation, "", SIMULATION_ONCE, 2)?;
    look_at_repeats(
        &rt,
        alloc,
        FileId::Lattice,
        "lattice default_choice\n",
        DEFAULT_ONCE,
        3,
    )?;
    look_at_repeats(
        &rt,
        alloc,
        FileId::Lattice,
        "lattice periodic_cell\n",
        CELL_ONCE,
        3,
    )?;
    look_at_repeats(
        &rt,
        alloc,
        FileId::Lattice,
        "lattice explicit\n",
        EXPLICIT_ONCE,
        3,
    )?;
    look_at_faults(&rt, alloc, FileId::Lattice, LATTICE_REPEATS);
    Ok(())
}

/// A file, and its word lines, each with whether it is required.
type WholeFile = (FileId, &'static str, &'static [(&'static str, bool)]);

const WHOLE_FILES: &[WholeFile] = &[
    (
        FileId::Simulation,
        "random_seed 1\ntemperature 1\npressure 1\nmax_steps 1\nfinish\n",
        &[
            ("temperature 1\n", true),
            ("pressure 1\n", true),
            ("max_steps 1\n", false),
        ],
    ),
    (
        FileId::Lattice,
        "lattice default_choice\nhexagonal_periodic 1 2 2\nend_lattice\n",
        &[("hexagonal_periodic 1 2 2\n", true)],
    ),
    (
        FileId::Lattice,
        "lattice periodic_cell\ncell_vectors\nrepeat_cell 2 2\nn_cell_sites 1\nn_site_types 1\nsite_type_names A\nsite_types A\nsite_coordinates\nneighboring_structure\nend_neighboring_structure\nend_lattice\n",
        &[
            ("cell_vectors\n", false),
            ("repeat_cell 2 2\n", true),
            ("n_cell_sites 1\n", true),
            ("n_site_types 1\n", true),
            ("site_type_names A\n", true),
            ("site_types A\n", true),
            ("site_coordinates\n", false),
            ("neighboring_structure\nend_neighboring_structure\n", true),
        ],
    ),
    (
        FileId::Lattice,
        "lattice explicit\nn_sites 1\nmax_coord 1\nn_site_types 1\nsite_type_names A\nlattice_structure\nend_lattice_structure\nend_lattice\n",
        &[
            ("n_sites 1\n", true),
            ("max_coord 1\n", false),
            ("n_site_types 1\n", true),
            ("site_type_names A\n", true),
            ("lattice_structure\nend_lattice_structure\n", true),
        ],
    ),
];

/// The line of the closing word, or the line and the kind of the fault.
fn closing_line(alloc: Global, file: FileId, text: &str) -> Result<usize, (usize, u8)> {
    match outline(alloc, file, text.as_bytes()) {
        Ok((_, line)) => Ok(line as usize),
        Err((line, kind)) => Err((line as usize, kind)),
    }
}

/// Looks at a file without each of its words in turn.
fn look_without(
    rt: &impl Abort,
    alloc: Global,
    file: FileId,
    whole: &str,
    words: &[(&str, bool)],
) -> Result<(), AllocError> {
    for (word, is_required) in words {
        let text = whole.replace(alloc, *word, "")?;
        let last = text.matches('\n').count();
        let want = if *is_required {
            Err((last, 8))
        } else {
            Ok(last)
        };
        assert_eq!(rt; closing_line(alloc, file, &text), want, "{word:?}");
    }
    Ok(())
}

#[test]
fn missing_words(rt: HostRuntime) -> Result<(), Fail> {
    for (file, whole, words) in WHOLE_FILES {
        look_without(&rt, rt.alloc(), *file, *whole, *words)?;
    }
    Ok(())
}

const LATTICE: &[u8] =
    b"lattice periodic_cell\ncell_vectors\n1.0 0.0\n0.0 1.0\nrepeat_cell 3 3\nn_cell_sites 1\nn_site_types 1\nsite_type_names A\nsite_types A\nneighboring_structure\n1-1 east\nend_neighboring_structure\nend_lattice\n";

#[test]
fn beginning_of_a_block(rt: HostRuntime) -> Result<(), Fail> {
    let shape = read_shape(rt.alloc(), FileId::Lattice, LATTICE)?;
    let block = &shape.block;
    assert_eq!(rt; block.form, BlockForm::PeriodicCell);
    assert_eq!(rt; block.line, 1);
    assert_eq!(rt; block.word.bytes(LATTICE), b"lattice".as_slice());
    assert_eq!(rt; block.name.bytes(LATTICE), b"periodic_cell".as_slice());
    Ok(())
}

/// The line of a word line of a block, and how many arguments and rows it has.
fn size_of(block: &Block, keyword: Keyword) -> Option<(u32, usize, usize)> {
    let item = block.item(LATTICE, keyword)?;
    Some((item.line.number, item.arguments().len(), item.rows.len()))
}

/// The first word of a word line of a block.
fn head_of(block: &Block, keyword: Keyword) -> Option<&'static [u8]> {
    Some(block.item(LATTICE, keyword)?.head(LATTICE))
}

#[test]
fn words_and_rows(rt: HostRuntime) -> Result<(), Fail> {
    assert_eq!(rt; outline(rt.alloc(), FileId::Lattice, LATTICE), Ok((7, 13)));
    let shape = read_shape(rt.alloc(), FileId::Lattice, LATTICE)?;
    let block = &shape.block;
    assert_eq!(rt; size_of(block, Keyword::CellVectors), Some((2, 0, 2)));
    let head = head_of(block, Keyword::CellVectors);
    assert_eq!(rt; head, Some(b"cell_vectors".as_slice()));
    assert_eq!(rt; size_of(block, Keyword::SiteCoordinates), None);
    Ok(())
}
