use crate::lattice_files::fault_of;
use std::alloc::Global;
use std::process::Abort;
use std::test::Fail;

/// A text with one of its lines, counted from 1, replaced.
fn with_line(alloc: Global, text: &str, number: usize, with: &str) -> Result<String, Fail> {
    let mut changed = String::new(alloc);
    for (place, line) in text.split('\n').enumerate() {
        let line = if place + 1 == number { with } else { line };
        changed.push_str(line)?;
        changed.push('\n')?;
    }
    Ok(changed)
}

const DEFAULT: &str = "lattice default_choice\nrectangular_periodic 1.0 2 2\nend_lattice";

const CELL: &str =
    "lattice periodic_cell\nrepeat_cell 2 2\nn_cell_sites 1\nn_site_types 1\nsite_type_names t\nsite_types 1\nneighboring_structure\n1-1 north\n1-1 east\nend_neighboring_structure\nend_lattice";

const EXPLICIT: &str =
    "lattice explicit\nn_sites 2\nn_site_types 1\nsite_type_names t\nlattice_structure\n1 0.0 0.0 t 1 2\n2 1.0 0.0 t 1 1\nend_lattice_structure\nend_lattice";

/// The number of a line, what replaces it, and the line and the kind of the fault that the file then has.
type Change = (usize, &'static str, Option<(u32, u8)>);

const OF_DEFAULT: &[Change] = &[
    (2, "rectangular_periodic 1.0 2 2", None),
    (2, "hexagonal_periodic 1.0 2 2", None),
    (2, "rectangular_periodic -1.0 256 256", None),
    (2, "rectangular_periodic 1.0 256 257", Some((2, 29))),
    (2, "rectangular_periodic x 2 2", Some((2, 11))),
    (2, "hexagonal_periodic x 2 2", Some((2, 11))),
    (2, "rectangular_periodic 1e999 2 2", Some((2, 13))),
    (2, "rectangular_periodic 1.0 y 2", Some((2, 12))),
    (2, "hexagonal_periodic 1.0 y 2", Some((2, 12))),
    (2, "rectangular_periodic 1.0 2 2.0", Some((2, 12))),
    (2, "rectangular_periodic 1.0 0 2", Some((2, 13))),
    (2, "hexagonal_periodic 1.0 2 0", Some((2, 13))),
    (2, "rectangular_periodic 1.0 1 2", Some((2, 26))),
    (2, "hexagonal_periodic 1.0 2 1", Some((2, 26))),
];

const OF_CELL: &[Change] = &[
    (2, "repeat_cell 256 256", None),
    (2, "repeat_cell 256 257", Some((2, 29))),
    (2, "repeat_cell x 2", Some((2, 12))),
    (2, "repeat_cell 2 2.0", Some((2, 12))),
    (2, "repeat_cell 0 2", Some((2, 13))),
    (2, "repeat_cell 2 0", Some((2, 13))),
    (3, "n_cell_sites x", Some((3, 12))),
    (3, "n_cell_sites 0", Some((3, 13))),
    (3, "n_cell_sites 65537", Some((3, 13))),
    (3, "n_cell_sites 2", Some((6, 15))),
    (4, "n_site_types x", Some((4, 12))),
    (4, "n_site_types 0", Some((4, 13))),
    (4, "n_site_types 1001", Some((4, 13))),
    (4, "n_site_types 2", Some((5, 15))),
    (6, "site_types 1\ncell_vectors\n1.0 0.0\n0.0 1.0", None),
    (6, "site_types 1\ncell_vectors\n1.0 0.0", Some((7, 16))),
    (
        6,
        "site_types 1\ncell_vectors\n1 0\n0 1\n1 1",
        Some((7, 16)),
    ),
    (
        6,
        "site_types 1\ncell_vectors\n1.0 x\n0.0 1.0",
        Some((8, 17)),
    ),
    (6, "site_types 1\ncell_vectors\n1.0\n0.0 1.0", Some((8, 17))),
    (6, "site_types 1\ncell_vectors\n1 0\n0 1 0", Some((9, 17))),
    (6, "site_types 1\ncell_vectors\n1 0\n0 1e999", Some((9, 13))),
    (6, "site_types 1\ncell_vectors\n1e999 x\n0 1", Some((8, 17))),
    (6, "site_types 1\nsite_coordinates\n0.5 0.5", None),
    (6, "site_types 1\nsite_coordinates", Some((7, 16))),
    (6, "site_types 1\nsite_coordinates\n0 0\n0 1", Some((7, 16))),
    (6, "site_types 1\nsite_coordinates\n0.5 x", Some((8, 17))),
    (6, "site_types 1\nsite_coordinates\n0.5", Some((8, 17))),
    (
        6,
        "site_types 1\nsite_coordinates\n1e999 0.5",
        Some((8, 13)),
    ),
    (8, "1-1 up", Some((8, 17))),
    (9, "1-1 northeast", None),
    (9, "1-1 southeast", None),
    (9, "1-2 east", Some((9, 20))),
];

const OF_EXPLICIT: &[Change] = &[
    (2, "n_sites 2", None),
    (2, "n_sites x", Some((2, 12))),
    (2, "n_sites 0", Some((2, 13))),
    (2, "n_sites 65537", Some((2, 13))),
    (2, "n_sites 3", Some((5, 16))),
    (3, "n_site_types x", Some((3, 12))),
    (3, "n_site_types 0", Some((3, 13))),
    (3, "n_site_types 1001", Some((3, 13))),
    (4, "site_type_names t\nmax_coord 4", None),
    (4, "site_type_names t\nmax_coord 0", None),
    (4, "site_type_names t\nmax_coord 18446744073709551615", None),
    (4, "site_type_names t\nmax_coord 4.0", Some((5, 12))),
    (6, "1 0.0 x t 1 2", Some((6, 17))),
    (6, "1 0.0 1e999 t 1 2", Some((6, 13))),
];

/// Looks at the fault of a text with each of these changes in turn.
fn look_at_changes(
    rt: &impl Abort,
    alloc: Global,
    text: &str,
    changes: &[Change],
) -> Result<(), Fail> {
    for (number, with, fault) in changes {
        let changed = with_line(alloc, text, *number, *with)?;
        assert_eq!(rt; fault_of(alloc, changed.as_bytes())?, *fault, "{changed}");
    }
    Ok(())
}

#[test]
fn faults_of_each_word(rt: HostRuntime) -> Result<(), Fail> {
    look_at_changes(&rt, rt.alloc(), DEFAULT, OF_DEFAULT)?;
    look_at_changes(&rt, rt.alloc(), CELL, OF_CELL)?;
    look_at_changes(&rt, rt.alloc(), EXPLICIT, OF_EXPLICIT)
}
