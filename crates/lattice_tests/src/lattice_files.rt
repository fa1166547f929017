use deck_shape::{DeckFault, Fault, read_shape};
use kmc_base::{FileId, MAX_FILE_BYTES, OutOfMemory, SiteId};
use lattice_deck::{LatticePart, read, unknown_type};
use std::alloc::{AllocError, Global};
use std::test::Fail;

/// The values of a text, or its first fault of form or of a value.
pub(crate) fn read_text(alloc: Global, text: &[u8]) -> Result<LatticePart, DeckFault> {
    if text.len() > MAX_FILE_BYTES {
        return Err(DeckFault::OutOfMemory);
    }
    let shape = read_shape(alloc, FileId::Lattice, text)?;
    read(alloc, text, &shape)
}

/// The line and the kind of the fault of a text; None where it has none.
pub(crate) fn fault_of(alloc: Global, text: &[u8]) -> Result<Option<(u32, u8)>, OutOfMemory> {
    match read_text(alloc, text) {
        Ok(_) => Ok(None),
        Err(DeckFault::Fault(Fault { line, kind, .. })) => Ok(Some((line, kind))),
        Err(DeckFault::OutOfMemory) => Err(OutOfMemory),
    }
}

const OF_DEFAULT: &[(&str, &str, u32, u8)] = &[
    ("1.0 2 2", "", 3, 9),
    ("x 2 2", "end_lattice\n", 2, 11),
    ("1.0 y 2", "end_lattice\n", 2, 12),
    ("1.0 0 2", "end_lattice\n", 2, 13),
    ("1.0 1 2", "end_lattice\n", 2, 26),
    ("1.0 1000000000 1000000000", "end_lattice\n", 2, 29),
];

#[test]
fn faults_of_default_lattices(rt: HostRuntime) -> Result<(), Fail> {
    let alloc = rt.alloc();
    for (arguments, end, line, kind) in OF_DEFAULT {
        let text = format!(in alloc;
            "lattice default_choice\nrectangular_periodic {arguments}\n{end}"
        )?;
        let fault = fault_of(alloc, text.as_bytes())?;
        assert_eq!(rt; fault, Some((*line, *kind)), "{arguments}");
    }
    Ok(())
}

/// What a file of a cell has of repeats, number of sites, names of types, types of sites and rows.
type CellParts = (
    &'static str,
    &'static str,
    &'static str,
    &'static str,
    &'static str,
);

/// A file of a cell of these parts.
fn cell_text(alloc: Global, parts: &CellParts) -> Result<String, AllocError> {
    let (repeats, sites, names, types, rows) = *parts;
    format!(in alloc;
        "lattice periodic_cell\nrepeat_cell {repeats}\nn_cell_sites {sites}\nn_site_types 1\nsite_type_names {names}\nsite_types {types}\nneighboring_structure\n{rows}end_neighboring_structure\nend_lattice\n"
    )
}

/// The parts of files of cells, and the line and the kind of the fault.
const OF_CELLS: &[(CellParts, u32, u8)] = &[
    (("2 x", "2", "t", "1 1", "1-2 self\n"), 2, 12),
    (("2 2", "0", "t", "1 1", "1-2 self\n"), 3, 13),
    (("2 2", "2", "t u", "1 1", "1-2 self\n"), 5, 15),
    (("2 2", "2", "t", "1", "1-2 self\n"), 6, 15),
    (("2 2", "2", "t", "1 1", "1-2 self\n1-2 west\n"), 9, 17),
    (("2 2", "2", "t", "1 1", "1-3 self\n"), 8, 20),
    (("1 2", "2", "t", "1 1", "1-1 north\n1-1 east\n"), 9, 26),
    (("256 257", "1", "t", "1", "1-1 east\n"), 2, 29),
];

#[test]
fn faults_of_cells(rt: HostRuntime) -> Result<(), Fail> {
    for (parts, line, kind) in OF_CELLS {
        let text = cell_text(rt.alloc(), parts)?;
        let fault = fault_of(rt.alloc(), text.as_bytes())?;
        assert_eq!(rt; fault, Some((*line, *kind)), "{parts:?}");
    }
    Ok(())
}

const LIMITS: &[(&str, &str, u32, u8)] = &[
    ("65536", "1", 5, 16),
    ("65537", "1", 2, 13),
    ("1", "1000", 4, 15),
    ("1", "1001", 3, 13),
];

#[test]
fn limits_of_sites_and_types(rt: HostRuntime) -> Result<(), Fail> {
    let alloc = rt.alloc();
    for (sites, types, line, kind) in LIMITS {
        let text = format!(in alloc;
            "lattice explicit\nn_sites {sites}\nn_site_types {types}\nsite_type_names t\nlattice_structure\n1 0.0 0.0 t 0\nend_lattice_structure\nend_lattice\n"
        )?;
        let fault = fault_of(alloc, text.as_bytes())?;
        assert_eq!(rt; fault, Some((*line, *kind)), "{sites} {types}");
    }
    Ok(())
}

const OF_LISTS: &[(&str, &str, u32, u8)] = &[
    ("t u", "1 0.0 0.0 t 0\n", 5, 16),
    ("t u", "1 0.0 0.0 t\n2 1.0 0.0 t 0\n", 6, 17),
    ("t t", "1 0.0 0.0 t 0\n2 1.0 0.0 t 0\n", 4, 18),
    ("t u", "1 0.0 0.0 t 0\n1 1.0 0.0 t 0\n", 7, 24),
    ("t u", "1 0.0 0.0 t 1 3\n2 1.0 0.0 t 0\n", 6, 25),
    ("t u", "1 0.0 0.0 t 1 1\n2 1.0 0.0 t 0\n", 6, 26),
    ("t u", "1 0.0 0.0 t 1 2\n2 1.0 0.0 t 0\n", 6, 28),
];

#[test]
fn faults_of_lists_of_sites(rt: HostRuntime) -> Result<(), Fail> {
    let alloc = rt.alloc();
    for (names, rows, line, kind) in OF_LISTS {
        let text = format!(in alloc;
            "lattice explicit\nn_sites 2\nn_site_types 2\nsite_type_names {names}\nlattice_structure\n{rows}end_lattice_structure\nend_lattice\n"
        )?;
        let fault = fault_of(alloc, text.as_bytes())?;
        assert_eq!(rt; fault, Some((*line, *kind)), "{rows}");
    }
    Ok(())
}

#[test]
fn crowded_list_of_sites(rt: HostRuntime) -> Result<(), Fail> {
    let crowded =
        b"lattice explicit\nlattice_structure\n1 0 0 t 33 2 3 4 5 6 7 8 9 10 11 12 13 14 15 16 17 18 19 20 21 22 23 24 25 26 27 28 29 30 31 32 33 34\nend_lattice_structure\nn_sites x\nn_site_types 1\nsite_type_names t\nend_lattice\n";
    assert_eq!(rt; fault_of(rt.alloc(), crowded)?, Some((3, 27)));
    Ok(())
}

/// What is read of a lattice file: the numbers of sites, of types, and of types that are given by name, the types of the
/// first two sites, and the fault of a type that is unknown.
type Reading = (u32, usize, usize, [u16; 2], Option<(u32, u8)>);

/// What is read of a text.
fn reading(alloc: Global, text: &[u8]) -> Result<Reading, Fail> {
    let part = read_text(alloc, text)?;
    let names = part.type_names.as_slice();
    let unknown = unknown_type(alloc, text, names, part.type_words.as_slice())?;
    let unknown = unknown.map(|fault| (fault.line, fault.kind));
    let graph = &part.graph;
    if graph.len() < 2 {
        return Err("too few sites")?;
    }
    let kinds = [graph.site_type(SiteId(0)), graph.site_type(SiteId(1))];
    let types = part.type_names.len();
    Ok((graph.len(), types, part.type_words.len(), kinds, unknown))
}

/// The neighbours of the first site of a text.
fn neighbours(alloc: Global, text: &[u8]) -> Result<Vec<u32>, Fail> {
    let part = read_text(alloc, text)?;
    if part.graph.len() == 0 {
        return Err("no sites")?;
    }
    let mut numbers = Vec::new(alloc);
    for site in part.graph.neighbours(SiteId(0)) {
        numbers.push(site.0)?;
    }
    Ok(numbers)
}

/// Files, what is read of them, and the neighbours of the first site.
const READINGS: &[(&[u8], Reading, &[u32])] = &[
    (
        b"lattice periodic_cell\nrepeat_cell 2 2\nn_cell_sites 2\nn_site_types 2\nsite_type_names top hollow\nsite_types hollow 1\nneighboring_structure\n1-2 self\n2-1 north\nend_neighboring_structure\nend_lattice\n",
        (8, 2, 2, [2, 1], None),
        &[1, 3],
    ),
    (
        b"lattice explicit\nn_sites 2\nn_site_types 2\nsite_type_names top hollow\nlattice_structure\n2 1.0 0.0 other 1 1\n1 0.0 0.0 2 1 2\nend_lattice_structure\nend_lattice\n",
        (2, 2, 2, [2, 0], Some((6, 33))),
        &[1],
    ),
    (
        b"lattice default_choice\nhexagonal_periodic 1.0 3 3\nend_lattice\n",
        (9, 1, 0, [1, 1], None),
        &[1, 2, 3, 4, 6, 8],
    ),
];

#[test]
fn reads_lattices(rt: HostRuntime) -> Result<(), Fail> {
    for (text, want, nearest) in READINGS {
        assert_eq!(rt; reading(rt.alloc(), *text)?, *want);
        assert_eq!(rt; neighbours(rt.alloc(), *text)?.as_slice(), *nearest);
    }
    Ok(())
}
