//! The first fault of four files.

ghost use Rattle.std.specs.Prelude.{IfOk};
ghost use Rattle.deck_join.specs.Texts.{IsShort};

use deck::Deck;
use deck_join::{Text, load_deck};
use deck_shape::{DeckFault, Fault};
use kmc_base::{FileId, MAX_FILE_BYTES, Sequence};
use std::alloc::Global;
use std::test::Fail;

/// A simulation file of one gas species and two surface species, of which the second has two dentates.
pub(crate) const SIMULATION: &str =
    "temperature 500.0\npressure 1.0\nn_gas_species 1\ngas_specs_names A\ngas_energies 0.0\ngas_molar_fracs 1.0\nn_surf_species 2\nsurf_specs_names A* B**\nsurf_specs_dent 1 2\nfinish\n";

/// A lattice file of two sites of the types `top` and `hol`.
pub(crate) const LATTICE: &str =
    "lattice explicit\nn_sites 2\nn_site_types 2\nsite_type_names top hol\nlattice_structure\n1 0.0 0.0 top 1 2\n2 1.0 0.0 2 1 1\nend_lattice_structure\nend_lattice\n";

/// A mechanism file of one step.
pub(crate) const MECHANISM: &str =
    "mechanism\nstep one\nsites 1\ninitial\n1 * 1\nfinal\n1 A* 1\npre_expon 1e300\nactiv_eng 0\nend_step\nend_mechanism\n";

/// An energetics file without clusters.
pub(crate) const ENERGETICS: &str = "energetics\nend_energetics\n";

/// The text of a file; an empty one is absent, and `-` one that is too long.
fn text_of(alloc: Global, text: &str) -> Result<Text, Fail>
    ensures { IfOk result IsShort }
{
    if text.is_empty() {
        return Ok(Text::Absent);
    }
    if text == "-" {
        return Ok(Text::TooLong);
    }
    let bytes = Vec::from_slice(alloc, text.as_bytes())?;
    if bytes.len() > MAX_FILE_BYTES {
        return Err("too long")?;
    }
    Ok(Text::Bytes(Sequence::new(bytes)))
}

/// The deck of four files, or their fault.
pub(crate) fn deck_of(
    alloc: Global,
    simulation: &str,
    lattice: &str,
    energetics: &str,
    mechanism: &str,
) -> Result<Result<Deck, DeckFault>, Fail> {
    let simulation = text_of(alloc, simulation)?;
    let lattice = text_of(alloc, lattice)?;
    let energetics = text_of(alloc, energetics)?;
    let mechanism = text_of(alloc, mechanism)?;
    let texts = [
        (FileId::Simulation, simulation),
        (FileId::Lattice, lattice),
        (FileId::Energetics, energetics),
        (FileId::Mechanism, mechanism),
    ];
    Ok(load_deck(alloc, &texts))
}

/// The fault of four files; None where they have none.
pub(crate) fn fault_of(
    alloc: Global,
    simulation: &str,
    lattice: &str,
    energetics: &str,
    mechanism: &str,
) -> Result<Option<(FileId, u32, u8)>, Fail> {
    match deck_of(alloc, simulation, lattice, energetics, mechanism)? {
        Ok(_) => Ok(None),
        Err(DeckFault::Fault(Fault { file, line, kind })) => Ok(Some((file, line, kind))),
        Err(DeckFault::OutOfMemory) => Err("out of memory")?,
    }
}

/// The lines of a cluster of one site before its row of states, which is line 5.
const POINT: &str = "energetics\ncluster one\nsites 1\nlattice_state\n";

/// The lines after it.
const END: &str = "cluster_eng 0.1\nend_cluster\nend_energetics\n";

/// The fault of files with a cluster of one site, of which these lines are the row of states and what is below it.
fn point_fault(alloc: Global, lines: &str) -> Result<Option<(FileId, u32, u8)>, Fail> {
    let mut text = String::new(alloc);
    text.push_str(POINT)?;
    text.push_str(lines)?;
    text.push_str(END)?;
    fault_of(alloc, SIMULATION, LATTICE, text.as_str(), MECHANISM)
}

#[test]
fn names_of_a_cluster(rt: HostRuntime) -> Result<(), Fail> {
    // The lines, and the line and the kind of the fault; line 0 where there is none.
    const CASES: &[(&str, u32, u8)] = &[
        ("1 A* 1\n", 0, 0),
        ("1 B** 1\n", 0, 0),
        ("1 B** 2\n", 0, 0),
        ("1 * 1\n", 0, 0),
        ("& & &\n", 0, 0),
        ("1 A* 1\nsite_types top\n", 0, 0),
        ("1 A* 1\nsite_types 2\n", 0, 0),
        ("1 Q* 1\n", 5, 31),
        ("1 Q* 0\n", 5, 31),
        ("1 A 1\n", 5, 31),
        ("1 A* 0\n", 5, 34),
        ("1 A* 2\n", 5, 34),
        ("1 B** 3\n", 5, 34),
        ("1 * 0\n", 5, 34),
        ("1 * 2\n", 5, 34),
        ("1 A* 1\nsite_types brg\n", 6, 33),
        ("1 A* 1\nsite_types 3\n", 6, 33),
        ("1 A* 1\nsite_types 0\n", 6, 33),
        ("1 A* 2\nsite_types brg\n", 5, 34),
        (
            "1 A* 1\nsite_types brg\nvariant x\nsite_types top\nend_variant\n",
            6,
            33,
        ),
        (
            "1 A* 1\nsite_types top\nvariant x\nsite_types brg\nend_variant\n",
            8,
            33,
        ),
    ];
    for (lines, line, kind) in CASES {
        let wanted = match *line {
            0 => None,
            line => Some((FileId::Energetics, line, *kind)),
        };
        assert_eq!(rt; point_fault(rt.alloc(), *lines)?, wanted, "{lines}");
    }
    Ok(())
}

/// An energetics file whose row names no species, on line 5.
const UNKNOWN_SPECIES: &str =
    "energetics\ncluster one\nsites 1\nlattice_state\n1 Q* 1\ncluster_eng 0.1\nend_cluster\nend_energetics\n";

/// An energetics file whose type word, on line 4, is no type, and whose row, on line 6, names no species.
const UNKNOWN_TYPE: &str =
    "energetics\ncluster one\nsites 1\nsite_types brg\nlattice_state\n1 Q* 1\ncluster_eng 0.1\nend_cluster\nend_energetics\n";

/// An energetics file with a fault of a value, on line 3.
const NO_SITES: &str =
    "energetics\ncluster one\nsites 0\nlattice_state\n1 Q* 1\ncluster_eng 0.1\nend_cluster\nend_energetics\n";

/// An energetics file and a mechanism file that end before their closing words; their faults of form are on line 2.
const OPEN: &str = "energetics\n";

const OPEN_STEPS: &str = "mechanism\n";

/// A simulation file with a fault of a value, on line 1.
const COLD: &str =
    "temperature 0.0\npressure 1.0\nn_gas_species 1\ngas_specs_names A\ngas_energies 0.0\ngas_molar_fracs 1.0\nn_surf_species 1\nsurf_specs_names A*\nsurf_specs_dent 1\nfinish\n";

/// A mechanism file whose gas species, on line 3, is none, and one with a fault of a value, on line 3.
const NO_GAS: &str =
    "mechanism\nstep one\ngas_reacs_prods Q -1\nsites 1\ninitial\n1 * 1\nfinal\n1 A* 1\npre_expon 1e300\nactiv_eng 0\nend_step\nend_mechanism\n";

const NO_STEP_SITES: &str =
    "mechanism\nstep one\nsites 0\ninitial\n1 * 1\nfinal\n1 A* 1\npre_expon 1e300\nactiv_eng 0\nend_step\nend_mechanism\n";

/// A simulation file that ends before its closing word; its fault of form is on line 2.
const UNFINISHED: &str = "temperature 500.0\n";

/// A lattice file whose site on line 7 has a type that is none.
const NO_TYPE: &str =
    "lattice explicit\nn_sites 2\nn_site_types 2\nsite_type_names top hol\nlattice_structure\n1 0.0 0.0 top 1 2\n2 1.0 0.0 brg 1 1\nend_lattice_structure\nend_lattice\n";

/// A lattice file with a fault of a value, on line 2.
const FEW_REPEATS: &str = "lattice default_choice\nrectangular_periodic 1.0 1 2\nend_lattice\n";

#[test]
fn faults_in_two_files(rt: HostRuntime) -> Result<(), Fail> {
    // The four files, and the file, the line and the kind of the first fault. Each pass comes before the next, and of one
    // pass the simulation file, the lattice file, the energetics file and the mechanism file in this order.
    const CASES: &[(&str, &str, &str, &str, FileId, u32, u8)] = &[
        ("", "", "", "", FileId::Simulation, 0, 1),
        (SIMULATION, "-", "", MECHANISM, FileId::Lattice, 0, 2),
        (SIMULATION, LATTICE, "-", "", FileId::Energetics, 0, 2),
        (UNFINISHED, LATTICE, OPEN, "", FileId::Mechanism, 0, 1),
        (
            UNFINISHED,
            LATTICE,
            OPEN,
            MECHANISM,
            FileId::Simulation,
            2,
            9,
        ),
        (COLD, LATTICE, OPEN, MECHANISM, FileId::Energetics, 2, 9),
        (
            SIMULATION,
            FEW_REPEATS,
            OPEN,
            MECHANISM,
            FileId::Energetics,
            2,
            9,
        ),
        (
            COLD,
            LATTICE,
            NO_SITES,
            MECHANISM,
            FileId::Simulation,
            1,
            13,
        ),
        (
            SIMULATION,
            FEW_REPEATS,
            NO_SITES,
            MECHANISM,
            FileId::Lattice,
            2,
            26,
        ),
        (
            SIMULATION,
            NO_TYPE,
            NO_SITES,
            MECHANISM,
            FileId::Energetics,
            3,
            13,
        ),
        (
            SIMULATION,
            NO_TYPE,
            UNKNOWN_SPECIES,
            MECHANISM,
            FileId::Lattice,
            7,
            33,
        ),
        (
            SIMULATION,
            LATTICE,
            UNKNOWN_TYPE,
            MECHANISM,
            FileId::Energetics,
            4,
            33,
        ),
        (
            SIMULATION,
            LATTICE,
            ENERGETICS,
            OPEN_STEPS,
            FileId::Mechanism,
            2,
            9,
        ),
        (
            SIMULATION,
            LATTICE,
            NO_SITES,
            OPEN_STEPS,
            FileId::Mechanism,
            2,
            9,
        ),
        (
            SIMULATION,
            LATTICE,
            OPEN,
            OPEN_STEPS,
            FileId::Energetics,
            2,
            9,
        ),
        (
            SIMULATION,
            LATTICE,
            ENERGETICS,
            NO_STEP_SITES,
            FileId::Mechanism,
            3,
            13,
        ),
        (
            SIMULATION,
            LATTICE,
            NO_SITES,
            NO_STEP_SITES,
            FileId::Energetics,
            3,
            13,
        ),
        (
            SIMULATION,
            LATTICE,
            UNKNOWN_SPECIES,
            NO_STEP_SITES,
            FileId::Mechanism,
            3,
            13,
        ),
        (
            SIMULATION,
            LATTICE,
            UNKNOWN_SPECIES,
            NO_GAS,
            FileId::Energetics,
            5,
            31,
        ),
        (
            SIMULATION,
            NO_TYPE,
            ENERGETICS,
            NO_GAS,
            FileId::Lattice,
            7,
            33,
        ),
        (
            SIMULATION,
            LATTICE,
            ENERGETICS,
            NO_GAS,
            FileId::Mechanism,
            3,
            32,
        ),
    ];
    for (simulation, lattice, energetics, mechanism, file, line, kind) in CASES {
        let found = fault_of(rt.alloc(), *simulation, *lattice, *energetics, *mechanism)?;
        assert_eq!(rt; found, Some((*file, *line, *kind)));
    }
    Ok(())
}
