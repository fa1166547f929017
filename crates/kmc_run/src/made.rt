//! The runs of made decks.

ghost use Rattle.std.specs.Prelude.{◌≡◌, ◌≤◌, ◌++◌, ◌∷◌, [], ℕ, List, IfErr, IfOk, IsSomeAnd, None, Some, codes};
ghost use Rattle.std.specs.Fmt.{decimal};
ghost use Rattle.deck_join.specs.Decks.{deck_of_files};
ghost use Rattle.command_line.specs.declared.line.Mode.{Mode};
ghost use Rattle.deck_maker.specs.declared.decks.TheConstants.{MAX_DECK};
ghost use Rattle.kmc_core.specs.DeckSystem.{trajectory_of};
ghost use Rattle.kmc_run.specs.Answers.{IsFailure, MayAnswer, ending_of};
ghost use Rattle.kmc_run.specs.Ends.{IsDoneText, sample_line};
ghost use Rattle.kmc_run.specs.MadeFiles.{made_folder};
ghost use Rattle.kmc_run.specs.Samples.{shown_at};
ghost use Rattle.zacros_output.specs.Summary.{summary_text};

use crate::driving::run_to_end;
use crate::samples::view_of;
use crate::status::Status;
use deck_join::{DeckRefusal, read_deck};
use deck_maker::make;
use kmc_base::{FileId, MemoryFolder, OutOfMemory};
use kmc_core::{Closed, Stop};
use std::alloc::Global;
use zacros_output::summary_text;

/// A folder in memory with the files of a made deck, of which no call is to fail.
fn made_folder(alloc: Global, number: u32) -> Result<MemoryFolder, OutOfMemory>
    requires { number ≤ MAX_DECK }
    ensures { IfOk result (λ folder. folder.files ≡ made_folder number) }
{
    let [simulation, lattice, energetics, mechanism] = make(alloc, number)?;
    let files = Vec::from_array(
        alloc,
        [
            (FileId::Simulation, simulation),
            (FileId::Lattice, lattice),
            (FileId::Energetics, energetics),
            (FileId::Mechanism, mechanism),
        ],
    )?;
    let none_fails = || Vec::new(alloc);
    Ok(MemoryFolder::new(files, none_fails(), none_fails(), none_fails()))
}

/// The text of the run of a made deck, by its last event and why it stops there.
fn summary_of(alloc: Global, number: u32, last: &Closed, stop: Stop) -> Result<Vec<u8>, OutOfMemory>
    ensures { IfOk result (λ text. IsSomeAnd (trajectory_of last.now.deck last.now.event)
        (λ s. text.items ≡ sample_line number ++ summary_text last.now.deck (shown_at last.now.deck last.now.event s.time s) stop)) }
{
    let mut text = format!(in alloc; "sample {number}\n")?.into_bytes();
    summary_text(last.deck(), &view_of(last), last.time(), stop, &mut text)?;
    Ok(text)
}

/// Makes a deck and runs it: the text for the screen, or the status that it ends with. A folder in memory fails only where
/// memory runs out.
pub(crate) fn sample(alloc: Global, number: u32) -> Result<Vec<u8>, Status>
    requires { number ≤ MAX_DECK }
    ensures text { IfOk result (λ text. IsDoneText (Mode.Sample number) None text.items) }
    ensures failure { IfErr result IsFailure }
    ensures answer { MayAnswer (Mode.Sample number) (deck_of_files (made_folder number)) (ending_of result) }
{
    let mut folder = made_folder(alloc, number)?;
    let deck = match read_deck(alloc, &mut folder) {
        Ok(deck) => deck,
        Err(DeckRefusal::Fault(fault)) => return Err(Status::Refused(fault)),
        Err(_) => return Err(Status::OutOfMemory),
    };
    let (last, stop) = match run_to_end(alloc, deck, &mut folder) {
        Ok(end) => end,
        Err(_) => return Err(Status::OutOfMemory),
    };
    Ok(summary_of(alloc, number, &last, stop)?)
}
