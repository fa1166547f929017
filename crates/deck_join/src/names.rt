//! The fourth pass: the names of species and site types.

ghost use Rattle.std.specs.Prelude.{◌≡◌, IfOk};
ghost use Rattle.lattice_deck.specs.Parts.{values_at as lattice_at};
ghost use Rattle.deck_join.specs.Answers.{Reads};
ghost use Rattle.deck_join.specs.Names.{names_in, types_in};
ghost use Rattle.deck_join.specs.SoundValues.{AreSoundNames, AreSoundValues};
ghost use Rattle.deck_join.specs.Species.{book_of};
ghost use Rattle.deck_join.specs.Views.{bytes_of, names_at, values_at};
ghost use Rattle.sim_deck.specs.Values.{values_at as simulation_at};

use crate::clusters::clusters_in;
use crate::file_fault::{fault_in, in_file};
use crate::file_slices::FileSlices;
use crate::parts::Parts;
use crate::steps::{NamedStep, steps_in};
use deck_shape::DeckFault;
use kmc_base::FileId;
use lattice_deck::{LatticePart, unknown_type};
use rate_rules::Cluster;
use species_book::SpeciesBook;
use std::alloc::Global;

/// Goes on where each type word of a lattice file is a type.
fn check_types(alloc: Global, bytes: &[u8], part: &LatticePart) -> Result<(), DeckFault>
    ensures { Reads (λ _. tt) result (types_in (lattice_at bytes.now part.now)) }
{
    let words = part.type_words.as_slice();
    match unknown_type(alloc, bytes, part.type_names.as_slice(), words)? {
        Some(fault) => Err(fault_in(FileId::Lattice, fault)),
        None => Ok(()),
    }
}

/// The clusters and the steps of the files.
#[derive(Debug, Drop)]
pub(crate) struct Names<'a> {
    pub(crate) clusters: Vec<Cluster>,
    pub(crate) steps: Vec<NamedStep<'a>>,
}

/// The clusters and the steps, with species and site types by their numbers, or the first fault of a name.
#[tactic(auto, unfolding(crate::specs::Names::names_in))]
pub(crate) fn names_in<'a>(
    alloc: Global,
    files: &FileSlices,
    parts: &'a Parts,
    book: &SpeciesBook,
) -> Result<Names<'a>, DeckFault>
    requires sound { AreSoundValues (values_at (bytes_of files.now) parts.now) }
    requires book { book.now ≡ book_of (simulation_at files.now.simulation.now parts.now.simulation) }
    ensures names { Reads (names_at files.now.mechanism.now) result (names_in (values_at (bytes_of files.now) parts.now)) }
    ensures sound { IfOk result (λ names. AreSoundNames book.now (names_at files.now.mechanism.now names)) }
{
    check_types(alloc, files.lattice, &parts.lattice)?;
    let type_names = parts.lattice.type_names.as_slice();
    let clusters = clusters_in(alloc, files.energetics, book, type_names, &parts.energetics)?;
    let clusters = in_file(FileId::Energetics, clusters)?;
    let steps = steps_in(alloc, files.mechanism, book, type_names, &parts.mechanism)?;
    let steps = in_file(FileId::Mechanism, steps)?;
    Ok(Names { clusters, steps })
}
