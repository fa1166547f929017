//! Gas species in steps, by their places in the simulation file.

ghost use Rattle.std.specs.Prelude.{◌≡◌, ◌<◌, ◌≤◌, IfOk, length, map, unsigned_abs};
ghost use Rattle.std.specs.List.{All};
ghost use Rattle.deck_join.specs.Gas.{change_in, changes_in, consumed_of, gas_energy, molecules_consumed, reversed};
ghost use Rattle.deck_join.specs.SoundValues.{AreSoundChanges};
ghost use Rattle.deck_words.specs.Faults.{value_map};
ghost use Rattle.kmc_base.specs.declared.limits.TheConstants.{MAX_ENERGY};
ghost use Rattle.mechanism_deck.specs.Views.{change_at};

use dec_text::Decimal;
use deck_shape::Name;
use deck_values::with_next;
use deck_words::LineFault;
use deck_words::kind::UNKNOWN_GAS;
use kmc_base::OutOfMemory;
use species_book::SpeciesBook;
use std::alloc::Global;

/// A change, with its gas species by its place, or the fault of its name.
fn change_in(bytes: &[u8], book: &SpeciesBook, gas: &(Name, i8)) -> Result<(u8, i8), LineFault>
    ensures { result ≡ change_in book.now (change_at bytes.now gas.now) }
{
    let (name, change) = *gas;
    match book.gas(name.span.bytes(bytes)) {
        Some(place) => Ok((place, change)),
        None => Err(LineFault {
            line: name.line,
            kind: UNKNOWN_GAS,
        }),
    }
}

/// The changes of a step, or the earliest of their faults.
pub(crate) fn changes_in(
    alloc: Global,
    bytes: &[u8],
    book: &SpeciesBook,
    gas: &[(Name, i8)],
) -> Result<Result<Vec<(u8, i8)>, LineFault>, OutOfMemory>
    ensures { IfOk result (λ found. value_map (λ all. all.items) found ≡ changes_in book.now (map (change_at bytes.now) gas.now)) }
{
    let mut changes = Ok(Vec::new(alloc));
    for one in gas {
        changes = with_next(changes, change_in(bytes, book, one))?;
    }
    Ok(changes)
}

/// The changes of the reverse of a step.
pub(crate) fn reversed(alloc: Global, changes: &[(u8, i8)]) -> Result<Vec<(u8, i8)>, OutOfMemory>
    requires { All (λ change. unsigned_abs change.1 ≤ 8) changes.now }
    ensures { IfOk result (λ all. all.items ≡ reversed changes.now) }
{
    let mut all = Vec::new(alloc);
    for change in changes {
        all.push((change.0, -change.1))?;
    }
    Ok(all)
}

/// The energy in neV of the molecules that a step produces, less that of those that it consumes.
pub(crate) fn gas_energy(energies: &[i64], changes: &[(u8, i8)]) -> i64
    requires energies { All (λ e. unsigned_abs e ≤ unsigned_abs MAX_ENERGY) energies.now }
    requires changes { AreSoundChanges (length energies.now) changes.now }
    ensures { result ≡ gas_energy energies.now changes.now }
{
    let mut energy = 0;
    for change in changes {
        energy += i64::from(change.1) * energies[usize::from(change.0)];
    }
    energy
}

/// How many molecules a change consumes.
fn molecules_consumed(change: i8) -> u8
    ensures { result ≡ molecules_consumed change }
{
    if change < 0 { change.unsigned_abs() } else { 0 }
}

/// Of each gas species that changes its molar fraction, and how many molecules of it are consumed.
pub(crate) fn consumed_of(
    alloc: Global,
    fractions: &[Decimal],
    changes: &[(u8, i8)],
) -> Result<Vec<(Decimal, u8)>, OutOfMemory>
    requires { All (λ change. change.0 < length fractions.now) changes.now }
    ensures { IfOk result (λ all. all.items ≡ consumed_of fractions.now changes.now) }
{
    let mut consumed = Vec::new(alloc);
    for change in changes {
        let fraction = fractions[usize::from(change.0)];
        consumed.push((fraction, molecules_consumed(change.1)))?;
    }
    Ok(consumed)
}
