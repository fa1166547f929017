//! Decks of the tests, and runs of the program over them.

use kmc_base::{FileId, MemoryFolder, MemorySink, OpenGate};
use kmc_run::{Status, run_program};
use std::alloc::{AllocError, Global};
use std::marker::Sync;
use std::test::Fail;
use std::thread::Threads;

/// The files of a deck. One whose text is empty is not there.
#[derive(Clone, Copy)]
pub(crate) struct DeckTexts {
    /// Its text, in two pieces.
    pub(crate) simulation: [&'static str; 2],
    pub(crate) lattice: &'static str,
    pub(crate) energetics: &'static str,
    pub(crate) mechanism: &'static str,
}

/// The first eight lines of a simulation file of one gas species and one surface species.
pub(crate) const SPECIES: &str =
    "random_seed 1\ntemperature 500.0\nn_gas_species 1\ngas_specs_names A\ngas_energies 0.0\ngas_molar_fracs 1.0\nn_surf_species 1\nsurf_specs_names A*\n";

/// The lines that end it, with a sample at every event.
pub(crate) const SAMPLED: &str =
    "pressure 1.0\nsurf_specs_dent 1\nspecies_numbers on event 1\nfinish\n";

/// Four sites.
pub(crate) const LATTICE: &str =
    "lattice default_choice\nrectangular_periodic 1 2 2\nend_lattice\n";

/// No clusters.
pub(crate) const ENERGETICS: &str = "energetics\nend_energetics\n";

/// A step from a vacant site to a site that holds the species. All its waiting times are 1 attosecond.
pub(crate) const FILLS: &str =
    "mechanism\nstep one\nsites 1\ninitial\n1 * 1\nfinal\n1 A* 1\npre_expon 1e300\nactiv_eng 0\nend_step\nend_mechanism\n";

/// Four sites that are filled one after another, with a sample at every event.
pub(crate) const FILLED: DeckTexts = DeckTexts {
    simulation: [SPECIES, SAMPLED],
    lattice: LATTICE,
    energetics: ENERGETICS,
    mechanism: FILLS,
};

/// Neighbours, whose energy is 0.2 eV a pair: half of it for each of the two placements on a pair.
const PAIRS: &str =
    "energetics\ncluster A_pair\nsites 2\nneighboring 1-2\nlattice_state\n1 A* 1\n2 A* 1\ngraph_multiplicity 2\ncluster_eng 0.2\nend_cluster\nend_energetics\n";

/// Nine sites, whose neighbours repel each other, and of which four are filled.
pub(crate) const PAIRED: DeckTexts = DeckTexts {
    simulation: [
        SPECIES,
        "pressure 1.0\nsurf_specs_dent 1\nspecies_numbers on event 1\nmax_steps 4\nfinish\n",
    ],
    lattice: "lattice default_choice\nrectangular_periodic 1.0 3 3\nend_lattice\n",
    energetics: PAIRS,
    mechanism: FILLS,
};

impl DeckTexts {
    /// The texts by their files, each in two pieces.
    fn texts(&self) -> [(FileId, [&'static str; 2]); 4] {
        [
            (FileId::Simulation, self.simulation),
            (FileId::Lattice, [self.lattice, ""]),
            (FileId::Energetics, [self.energetics, ""]),
            (FileId::Mechanism, [self.mechanism, ""]),
        ]
    }
}

/// The bytes of two pieces of text.
fn joined(alloc: Global, pieces: &[&str; 2]) -> Result<Vec<u8>, AllocError> {
    let mut bytes = Vec::from_slice(alloc, pieces[0].as_bytes())?;
    bytes.extend_from_slice(pieces[1].as_bytes())?;
    Ok(bytes)
}

/// The files of a deck that are there.
fn files_of(alloc: Global, deck: &DeckTexts) -> Result<Vec<(FileId, Vec<u8>)>, AllocError> {
    let mut files = Vec::new(alloc);
    for (id, pieces) in &deck.texts() {
        let bytes = joined(alloc, pieces)?;
        if !bytes.is_empty() {
            files.push((*id, bytes))?;
        }
    }
    Ok(files)
}

/// A folder of these files, of which the loads and the append of these numbers fail. They are counted from 1.
pub(crate) fn folder_of(
    alloc: Global,
    deck: &DeckTexts,
    loads: [u64; 2],
    append: u64,
) -> Result<MemoryFolder, Fail> {
    let files = files_of(alloc, deck)?;
    let loads = Vec::from_array(alloc, loads)?;
    let appends = Vec::from_array(alloc, [append])?;
    let folder = MemoryFolder::new(files, loads, Vec::new(alloc), appends);
    Ok(folder.with_room(1000).map_err(|(_, error)| error)?)
}

/// The words of a command.
pub(crate) fn owned(alloc: Global, words: &[&str]) -> Result<Vec<String>, AllocError> {
    let mut owned = Vec::new(alloc);
    for word in words {
        owned.push(String::from_str(alloc, *word)?)?;
    }
    Ok(owned)
}

/// The status of the program over a folder, where it is given these words.
pub(crate) fn status_of<R: Threads + Sync>(
    rt: &R,
    alloc: Global,
    words: &[&str],
    folder: &mut MemoryFolder,
) -> Result<Status, Fail> {
    let words = owned(alloc, words)?;
    let mut screen = MemorySink::new(alloc, 0, Vec::new(alloc)).map_err(|(_, error)| error)?;
    Ok(run_program(rt, alloc, &words, folder, &mut screen, &OpenGate))
}
