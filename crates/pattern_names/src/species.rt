//! What rows of states want, with species by their numbers.

ghost use Rattle.std.specs.Prelude.{◌≡◌, IfOk, Ok, Some, map};
ghost use Rattle.deck_shape.specs.Names.{name_at};
ghost use Rattle.deck_words.specs.Faults.{value_map, with_fault};
ghost use Rattle.pattern_rows.specs.Views.{state_at};
ghost use Rattle.pattern_types.specs.declared.wanted.Wanted.TheVariants.{Holds, Vacant};
ghost use Rattle.pattern_names.specs.Species.{all_wanted, dentate_fault, wanted_in};

use deck_shape::Name;
use deck_values::with_next;
use deck_words::LineFault;
use deck_words::kind::{BAD_DENTATE, UNKNOWN_SPECIES};
use kmc_base::{OutOfMemory, SpeciesId};
use pattern_rows::StateRow;
use pattern_types::Wanted;
use species_book::SpeciesBook;
use std::alloc::Global;

/// A vacant site, of which there is one dentate.
fn vacant_site(line: u32, dentate: u64) -> Result<Wanted, LineFault>
    ensures { result ≡ with_fault (dentate_fault line 1 dentate) (Ok Vacant) }
{
    if dentate == 1 {
        Ok(Wanted::Vacant)
    } else {
        Err(LineFault {
            line,
            kind: BAD_DENTATE,
        })
    }
}

/// A dentate of an entity of a species that has so many.
fn dentate_of(
    line: u32,
    entity: u8,
    species: SpeciesId,
    dentates: u8,
    dentate: u64,
) -> Result<Wanted, LineFault>
    ensures { result ≡ with_fault (dentate_fault line dentates dentate) (Ok (Holds entity species dentate)) }
{
    if 1 <= dentate && dentate <= u64::from(dentates) {
        Ok(Wanted::Holds {
            entity,
            species,
            dentate: dentate as u8,
        })
    } else {
        Err(LineFault {
            line,
            kind: BAD_DENTATE,
        })
    }
}

/// What an entity is wanted as, with its species by its number, or its fault.
pub(crate) fn entity_in(
    bytes: &[u8],
    book: &SpeciesBook,
    entity: u8,
    name: Name,
    dentate: u64,
) -> Result<Wanted, LineFault>
    ensures { result ≡ wanted_in book.now (Some (record { entity = entity; species = name_at bytes.now name; dentate = dentate })) }
{
    let word = name.span.bytes(bytes);
    if b"*".as_slice() == word {
        return vacant_site(name.line, dentate);
    }
    match book.surface(word) {
        Some(species) => dentate_of(name.line, entity, species, book.dentates(species), dentate),
        None => Err(LineFault {
            line: name.line,
            kind: UNKNOWN_SPECIES,
        }),
    }
}

/// What a row wants of its site, with its species by its number, or its fault.
fn wanted_in(bytes: &[u8], book: &SpeciesBook, row: &StateRow) -> Result<Wanted, LineFault>
    ensures { result ≡ wanted_in book.now (state_at bytes.now row.now) }
{
    match *row {
        StateRow::Any => Ok(Wanted::Any),
        StateRow::Is {
            entity,
            species,
            dentate,
        } => entity_in(bytes, book, entity, species, dentate),
    }
}

/// What each of some rows of a pattern wants of its site, or the earliest of their faults: `UNKNOWN_SPECIES` or
/// `BAD_DENTATE`. The bytes are those of the file that the rows were read from.
pub fn all_wanted(
    alloc: Global,
    bytes: &[u8],
    book: &SpeciesBook,
    rows: &[StateRow],
) -> Result<Result<Vec<Wanted>, LineFault>, OutOfMemory>
    ensures { IfOk result (λ found. value_map (λ wanted. wanted.items) found ≡ all_wanted book.now (map (state_at bytes.now) rows.now)) }
{
    let mut wanted = Ok(Vec::new(alloc));
    for row in rows {
        wanted = with_next(wanted, wanted_in(bytes, book, row))?;
    }
    Ok(wanted)
}
