//! The steps of a mechanism file, with species by their numbers.

ghost use Rattle.std.specs.Prelude.{◌≡◌, IfOk, map};
ghost use Rattle.deck_join.specs.Steps.{changes_of, step_in, steps_in};
ghost use Rattle.deck_join.specs.Views.{changes_at, named_at, named_steps_at};
ghost use Rattle.deck_words.specs.Faults.{all_of, value_map};
ghost use Rattle.mechanism_deck.specs.Views.{step_at, steps_at, values_at};

use crate::gas::changes_in;
use deck_values::with_next;
use deck_words::{LineFault, both, with_fault};
use kmc_base::OutOfMemory;
use lattice_deck::unknown_type;
use mechanism_deck::{MechanismPart, StepPart};
use pattern_names::side_in;
use pattern_types::Wanted;
use species_book::SpeciesBook;
use std::alloc::Global;

/// What a step changes.
#[derive(Debug, Drop)]
pub(crate) struct StepChanges {
    /// The gas species, by their places, and by how much their numbers of molecules change.
    pub(crate) gas: Vec<(u8, i8)>,
    /// What each site holds before the step.
    pub(crate) before: Vec<Wanted>,
    /// What each site holds after it.
    pub(crate) after: Vec<Wanted>,
}

/// A step of a mechanism file, and what it changes.
#[derive(Debug, Drop)]
pub(crate) struct NamedStep<'a> {
    pub(crate) step: &'a StepPart,
    pub(crate) changes: StepChanges,
}

/// What a step changes, or the earliest of its faults.
fn changes_of(
    alloc: Global,
    bytes: &[u8],
    book: &SpeciesBook,
    step: &StepPart,
) -> Result<Result<StepChanges, LineFault>, OutOfMemory>
    ensures { IfOk result (λ found. value_map changes_at found ≡ changes_of book.now (step_at bytes.now step.now).body) }
{
    let gas = changes_in(alloc, bytes, book, step.gas.as_slice())?;
    let before = side_in(
        alloc,
        bytes,
        book,
        step.initial_line,
        step.before.as_slice(),
    )?;
    let after = side_in(alloc, bytes, book, step.final_line, step.after.as_slice())?;
    match both(gas, both(before, after)) {
        Ok((gas, (before, after))) => Ok(Ok(StepChanges { gas, before, after })),
        Err(fault) => Ok(Err(fault)),
    }
}

/// A step and what it changes, or the earliest of its faults.
fn step_in<'a>(
    alloc: Global,
    bytes: &[u8],
    book: &SpeciesBook,
    step: &'a StepPart,
) -> Result<Result<NamedStep<'a>, LineFault>, OutOfMemory>
    ensures { IfOk result (λ found. value_map (named_at bytes.now) found ≡ step_in book.now (step_at bytes.now step.now)) }
{
    match changes_of(alloc, bytes, book, step)? {
        Ok(changes) => Ok(Ok(NamedStep { step, changes })),
        Err(fault) => Ok(Err(fault)),
    }
}

/// All steps, or the earliest of their faults.
fn all_steps<'a>(
    alloc: Global,
    bytes: &[u8],
    book: &SpeciesBook,
    steps: &'a [StepPart],
) -> Result<Result<Vec<NamedStep<'a>>, LineFault>, OutOfMemory>
    ensures { IfOk result (λ found. value_map (λ all. named_steps_at bytes.now all.items) found ≡ all_of (map (step_in book.now) (steps_at bytes.now steps.now))) }
{
    let mut all = Ok(Vec::new(alloc));
    for step in steps {
        all = with_next(all, step_in(alloc, bytes, book, step)?)?;
    }
    Ok(all)
}

/// The steps of a file, or the earliest fault of a name in it.
pub(crate) fn steps_in<'a>(
    alloc: Global,
    bytes: &[u8],
    book: &SpeciesBook,
    type_names: &[Vec<u8>],
    part: &'a MechanismPart,
) -> Result<Result<Vec<NamedStep<'a>>, LineFault>, OutOfMemory>
    ensures { IfOk result (λ found. value_map (λ all. named_steps_at bytes.now all.items) found
        ≡ steps_in book.now (map (λ name. name.items) type_names.now) (values_at bytes.now part.now)) }
{
    let steps = all_steps(alloc, bytes, book, part.steps.as_slice())?;
    let unknown = unknown_type(alloc, bytes, type_names, part.type_words.as_slice())?;
    Ok(with_fault(unknown, steps))
}
