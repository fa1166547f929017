//! The sides of a step, on which each adsorbate is there as a whole.

ghost use Rattle.std.specs.Prelude.{◌≡◌, IfOk, false, map, ℕ};
ghost use Rattle.std.specs.List.{list_any};
ghost use Rattle.std.specs.Option.{option_map_or};
ghost use Rattle.deck_shape.specs.Names.{name_at};
ghost use Rattle.deck_words.specs.Faults.{value_map};
ghost use Rattle.pattern_rows.specs.Views.{state_at};
ghost use Rattle.pattern_names.specs.Sides.{is_faulty_row, lacks_dentate, lacks_one, side_in, wants_dentate_of};
ghost use Rattle.pattern_names.specs.Species.{dentates_of};

use crate::species::{all_wanted, entity_in};
use deck_shape::Name;
use deck_values::fault_if;
use deck_words::kind::MISSING_DENTATE;
use deck_words::{LineFault, with_fault};
use kmc_base::OutOfMemory;
use pattern_rows::StateRow;
use pattern_types::Wanted;
use species_book::SpeciesBook;
use std::alloc::Global;

/// A row is of an entity and has a fault itself.
fn is_faulty_row(bytes: &[u8], book: &SpeciesBook, row: &StateRow, entity: u8) -> bool
    ensures { result ≡ is_faulty_row book.now entity (state_at bytes.now row.now) }
{
    match *row {
        StateRow::Any => false,
        StateRow::Is {
            entity: other,
            species,
            dentate,
        } => other == entity && entity_in(bytes, book, other, species, dentate).is_err(),
    }
}

/// Some row of an entity has a fault itself.
fn has_faulty_row(bytes: &[u8], book: &SpeciesBook, rows: &[StateRow], entity: u8) -> bool
    ensures { result ≡ list_any (is_faulty_row book.now entity) (map (state_at bytes.now) rows.now) }
{
    for row in rows {
        if is_faulty_row(bytes, book, row, entity) {
            return true;
        }
    }
    false
}

/// A row wants a dentate of an entity of a species.
fn wants_dentate_of(bytes: &[u8], row: &StateRow, entity: u8, word: &[u8], dentate: u64) -> bool
    ensures { result ≡ wants_dentate_of entity word.now dentate (state_at bytes.now row.now) }
{
    match *row {
        StateRow::Any => false,
        StateRow::Is {
            entity: other,
            species,
            dentate: wanted,
        } => other == entity && species.span.bytes(bytes) == word && wanted == dentate,
    }
}

/// Some row wants a dentate of an entity of a species.
fn has_dentate(bytes: &[u8], rows: &[StateRow], entity: u8, word: &[u8], dentate: u64) -> bool
    ensures { result ≡ list_any (wants_dentate_of entity word.now dentate) (map (state_at bytes.now) rows.now) }
{
    for row in rows {
        if wants_dentate_of(bytes, row, entity, word, dentate) {
            return true;
        }
    }
    false
}

/// No row wants one of so many dentates of an entity of a species.
fn lacks_one(bytes: &[u8], rows: &[StateRow], entity: u8, word: &[u8], dentates: u8) -> bool
    ensures { result ≡ lacks_one (map (state_at bytes.now) rows.now) entity word.now dentates }
{
    for place in 0..dentates {
        if !has_dentate(bytes, rows, entity, word, u64::from(place) + 1) {
            return true;
        }
    }
    false
}

/// How many dentates the species of a name has; `*`, a vacant site, has one.
fn dentates_of(book: &SpeciesBook, word: &[u8]) -> Option<u8>
    ensures { result ≡ dentates_of book.now word.now }
{
    if b"*".as_slice() == word {
        return Some(1);
    }
    let species = book.surface(word)?;
    Some(book.dentates(species))
}

/// An entity lacks a dentate of its species, where no row of it has a fault itself.
fn lacks_dentate(
    bytes: &[u8],
    book: &SpeciesBook,
    rows: &[StateRow],
    entity: u8,
    species: Name,
) -> bool
    ensures { (dentate : ℕ) → result ≡ lacks_dentate book.now (map (state_at bytes.now) rows.now)
        (record { entity = entity; species = name_at bytes.now species; dentate = dentate }) }
{
    if has_faulty_row(bytes, book, rows, entity) {
        return false;
    }
    let word = species.span.bytes(bytes);
    match dentates_of(book, word) {
        Some(dentates) => lacks_one(bytes, rows, entity, word, dentates),
        None => false,
    }
}

/// The entity of a row lacks a dentate.
fn is_incomplete(bytes: &[u8], book: &SpeciesBook, rows: &[StateRow], row: &StateRow) -> bool
    ensures { result ≡ option_map_or (lacks_dentate book.now (map (state_at bytes.now) rows.now)) (state_at bytes.now row.now) false }
{
    match *row {
        StateRow::Any => false,
        StateRow::Is {
            entity,
            species,
            ..
        } => lacks_dentate(bytes, book, rows, entity, species),
    }
}

/// Some entity lacks a dentate.
fn are_incomplete(bytes: &[u8], book: &SpeciesBook, rows: &[StateRow]) -> bool
    ensures { let words = map (state_at bytes.now) rows.now
        in result ≡ list_any (λ row. option_map_or (lacks_dentate book.now words) row false) words }
{
    for row in rows {
        if is_incomplete(bytes, book, rows, row) {
            return true;
        }
    }
    false
}

/// What a side of a step wants of its sites, or the earliest of its faults: `UNKNOWN_SPECIES` or `BAD_DENTATE` at a row, or
/// `MISSING_DENTATE` at `line`, that of its word `initial` or `final`. The bytes are those of the file that the rows were read
/// from.
pub fn side_in(
    alloc: Global,
    bytes: &[u8],
    book: &SpeciesBook,
    line: u32,
    rows: &[StateRow],
) -> Result<Result<Vec<Wanted>, LineFault>, OutOfMemory>
    ensures { IfOk result (λ found. value_map (λ wanted. wanted.items) found ≡ side_in book.now line (map (state_at bytes.now) rows.now)) }
{
    let missing = fault_if(are_incomplete(bytes, book, rows), line, MISSING_DENTATE);
    let wanted = all_wanted(alloc, bytes, book, rows)?;
    Ok(with_fault(missing, wanted))
}
