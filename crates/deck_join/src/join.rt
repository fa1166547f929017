//! From the texts of the files to the deck, or their first fault.

ghost use Rattle.std.specs.Prelude.{◌≡◌, IfOk, map};
ghost use Rattle.std.specs.List.{All};
ghost use Rattle.deck.specs.Soundness.{IsSound};
ghost use Rattle.deck_join.specs.Answers.{Reads};
ghost use Rattle.deck_join.specs.Decks.{deck_of, deck_with, joined};
ghost use Rattle.deck_join.specs.Names.{DeckNames};
ghost use Rattle.deck_join.specs.Passes.{FileBytes};
ghost use Rattle.deck_join.specs.ProcessNames.{names_of};
ghost use Rattle.deck_join.specs.Processes.{processes_of};
ghost use Rattle.deck_join.specs.SoundValues.{AreSoundValues};
ghost use Rattle.deck_join.specs.Species.{book_of};
ghost use Rattle.deck_join.specs.Texts.{IsShort, deck_files, texts_in};
ghost use Rattle.deck_join.specs.Views.{bytes_of, gases_at, values_at};

use crate::file_slices::{FileSlices, files_in};
use crate::names::{Names, names_in};
use crate::parts::{Parts, read_parts};
use crate::process_names::names_of;
use crate::processes::processes_of;
use crate::radius::radius_of;
use crate::shapes::read_shapes;
use crate::species::book_of;
use crate::text::{Text, text_at};
use deck::Deck;
use deck_shape::DeckFault;
use kmc_base::{FileId, Sequence};
use rate_rules::{Chemistry, Cluster, Process};
use species_book::SpeciesBook;
use std::alloc::Global;

/// The deck of what is read and what is made of it.
fn deck_with(
    alloc: Global,
    parts: Parts,
    book: SpeciesBook,
    clusters: Vec<Cluster>,
    processes: Vec<Process>,
    process_names: Vec<Sequence<u8>>,
) -> Deck
    ensures { (files : FileBytes) (names : DeckNames) → book ≡ book_of (values_at files parts).simulation → clusters.items ≡ names.clusters
        → processes.items ≡ processes_of (gases_at parts.simulation) (values_at files parts).lattice.type_names names.steps
        → process_names.items ≡ names_of names.steps → result ≡ deck_with (values_at files parts) names }
{
    let Parts {
        simulation,
        lattice,
        energetics: _energetics,
        mechanism: _mechanism,
    } = parts;
    let radius = radius_of(processes.as_slice(), clusters.as_slice());
    Deck {
        chem: Chemistry {
            graph: lattice.graph,
            processes: Sequence::new(processes),
            clusters: Sequence::new(clusters),
            temperature: simulation.temperature,
            radius,
        },
        plan: simulation.plan,
        book,
        process_names: Sequence::new(process_names),
        opening: Sequence::new(Vec::new(alloc)),
    }
}

/// The deck of the files, or the first fault of a name.
#[tactic(auto, unfolding(crate::specs::Decks::joined))]
fn joined(alloc: Global, files: &FileSlices, parts: Parts) -> Result<Deck, DeckFault>
    requires { AreSoundValues (values_at (bytes_of files.now) parts) }
    ensures value { Reads (λ deck. deck) result (joined (values_at (bytes_of files.now) parts)) }
    ensures sound { IfOk result IsSound }
{
    let book = book_of(alloc, files.simulation, &parts.simulation)?;
    let Names { clusters, steps } = names_in(alloc, files, &parts, &book)?;
    let type_names = parts.lattice.type_names.as_slice();
    let processes = processes_of(
        alloc,
        files.mechanism,
        &parts.simulation,
        type_names,
        &steps,
    )?;
    let process_names = names_of(alloc, files.mechanism, &steps)?;
    drop(steps);
    Ok(deck_with(alloc, parts, book, clusters, processes, process_names))
}

/// The deck of the texts of its files, or their first fault.
///
/// The texts are those of the simulation file, the lattice file, the energetics file and the mechanism file, in this order.
/// Faults are looked for in passes over the files: whether they are there and not too long; the form of their lines; their
/// values; and their names of species and site types. The first fault is that of the earliest pass that has one, and of one pass that of the first file. In a file it is that of the earliest line, and of
/// one line that of the least kind.
#[tactic(auto, unfolding(crate::specs::Decks::deck_of))]
pub fn load_deck(alloc: Global, texts: &[(FileId, Text)]) -> Result<Deck, DeckFault>
    requires files { map (λ text. text.0) texts.now ≡ deck_files }
    requires short { All (λ text. IsShort text.1) texts.now }
    ensures value { Reads (λ deck. deck) result (deck_of (texts_in texts.now)) }
    ensures sound { IfOk result IsSound }
{
    let files = files_in(
        text_at(texts, 0),
        text_at(texts, 1),
        text_at(texts, 2),
        text_at(texts, 3),
    )?;
    let shapes = read_shapes(alloc, &files)?;
    let parts = read_parts(alloc, &files, &shapes)?;
    joined(alloc, &files, parts)
}
