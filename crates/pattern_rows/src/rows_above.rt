//! The faults of the entities of rows, by what is kept of the rows above. A file may have millions of rows below one word,
//! so no row looks through those above it.

ghost use Rattle.std.specs.Prelude.{◌≡◌, ◌==◌, ◌||◌, ◌&&◌, ◌++◌, ◌∷◌, [], not, ℕ, List, IfOk, OnOk, None, Some, map};
ghost use Rattle.std.specs.BTreeMap.{get};
ghost use Rattle.std.specs.BTreeSet.{contains};
ghost use Rattle.std.specs.Option.{option_map_or};
ghost use Rattle.std.specs.Ordering.{nat_cmp};
ghost use Rattle.dec_text.specs.Spans.{bytes_at};
ghost use Rattle.deck_shape.specs.Names.{name_at};
ghost use Rattle.deck_words.specs.Tables.{same_word};
ghost use Rattle.pattern_rows.specs.RowsAbove.{IsIndexOf, dentate_cmp, is_another as is_another_lem};
ghost use Rattle.pattern_rows.specs.States.{EntityWords, StateWords, entity_fault as entity_fault_lem, fault_below};
ghost use Rattle.pattern_rows.specs.Views.{state_at};

use crate::state::StateRow;
use dec_text::Span;
use deck_shape::Name;
use deck_values::fault_if;
use deck_words::kind::{DOUBLE_DENTATE, TWO_SPECIES};
use deck_words::{LineFault, earliest};
use kmc_base::OutOfMemory;
use std::alloc::Global;
use std::collections::{BTreeMap, BTreeSet};

/// The species that the rows of an entity want.
#[derive(Clone, Copy, Debug, PartialEq, Eq)]
pub(crate) struct SpeciesSeen {
    /// That of the first row.
    pub(crate) first: Span,
    /// Some row wants another one.
    pub(crate) are_two: bool,
}

/// What is kept of the rows above a row.
#[derive(Debug, Drop)]
pub(crate) struct RowsAbove {
    /// The entities with their dentates.
    pub(crate) dentates: BTreeSet<(u8, u64)>,
    /// The species of each entity.
    pub(crate) species: BTreeMap<u8, SpeciesSeen>,
}

/// Some species that was seen is another one.
fn is_another(bytes: &[u8], seen: Option<SpeciesSeen>, species: &[u8]) -> bool
    ensures { result ≡ is_another_lem bytes.now seen species.now }
{
    match seen {
        Some(seen) => seen.are_two || seen.first.bytes(bytes) != species,
        None => false,
    }
}

/// The species that were seen, and one more.
fn with_species(bytes: &[u8], seen: Option<SpeciesSeen>, species: Span) -> SpeciesSeen
    ensures { (other : List ℕ) → is_another_lem bytes.now (Some result) other
        ≡ (is_another_lem bytes.now seen other || not (same_word (bytes_at bytes.now species) other)) }
{
    match seen {
        Some(seen) => SpeciesSeen {
            first: seen.first,
            are_two: is_another(bytes, Some(seen), species.bytes(bytes)),
        },
        None => SpeciesSeen {
            first: species,
            are_two: false,
        },
    }
}

/// Keeps a dentate of an entity. The answer is whether it was known.
fn keep_dentate(
    dentates: &mut BTreeSet<(u8, u64)>,
    entity: u8,
    dentate: u64,
) -> Result<bool, OutOfMemory>
    ensures known { IfOk result (λ known. known ≡ contains dentate_cmp dentates.old (entity, dentate)) }
    ensures kept { OnOk result ((q : ℕ × ℕ) → contains dentate_cmp dentates.new q
        ≡ (contains dentate_cmp dentates.old q || (entity == q.0 && dentate == q.1))) }
{
    Ok(!dentates.insert((entity, dentate))?)
}

/// Keeps a species of an entity. The answer is whether it had another one.
fn keep_species(
    bytes: &[u8],
    species: &mut BTreeMap<u8, SpeciesSeen>,
    entity: u8,
    word: Span,
) -> Result<bool, OutOfMemory>
    ensures another { IfOk result (λ another. another
        ≡ is_another_lem bytes.now (get nat_cmp species.old entity) (bytes_at bytes.now word)) }
    ensures kept { OnOk result ((q : ℕ) (other : List ℕ) → is_another_lem bytes.now (get nat_cmp species.new q) other
        ≡ (is_another_lem bytes.now (get nat_cmp species.old q) other || (entity == q && not (same_word (bytes_at bytes.now word) other)))) }
{
    let seen = species.get(&entity).copied();
    species.insert(entity, with_species(bytes, seen, word))?;
    Ok(is_another(bytes, seen, word.bytes(bytes)))
}

/// The fault of an entity, which is kept for the rows below.
fn entity_fault(
    bytes: &[u8],
    above: &mut RowsAbove,
    entity: u8,
    species: Name,
    dentate: u64,
) -> Result<Option<LineFault>, OutOfMemory>
    ensures fault { let words : EntityWords = record { entity = entity; species = name_at bytes.now species; dentate = dentate }
        in IfOk result (λ fault. (rows : List StateWords) → IsIndexOf bytes.now rows above.old → fault ≡ entity_fault_lem rows words) }
    ensures kept { let words : EntityWords = record { entity = entity; species = name_at bytes.now species; dentate = dentate }
        in OnOk result ((rows : List StateWords) → IsIndexOf bytes.now rows above.old
        → IsIndexOf bytes.now (rows ++ Some words ∷ []) above.new) }
{
    let is_double = keep_dentate(&mut above.dentates, entity, dentate)?;
    let is_another = keep_species(bytes, &mut above.species, entity, species.span)?;
    let two = fault_if(is_another, species.line, TWO_SPECIES);
    let double = fault_if(is_double, species.line, DOUBLE_DENTATE);
    Ok(earliest(double, earliest(two, None)))
}

/// The fault of a row, which is kept for the rows below.
fn row_fault(
    bytes: &[u8],
    above: &mut RowsAbove,
    row: &StateRow,
) -> Result<Option<LineFault>, OutOfMemory>
    ensures fault { IfOk result (λ fault. (rows : List StateWords) → IsIndexOf bytes.now rows above.old
        → fault ≡ option_map_or (entity_fault_lem rows) (state_at bytes.now row.now) None) }
    ensures kept { OnOk result ((rows : List StateWords) → IsIndexOf bytes.now rows above.old
        → IsIndexOf bytes.now (rows ++ state_at bytes.now row.now ∷ []) above.new) }
{
    match *row {
        StateRow::Any => Ok(None),
        StateRow::Is {
            entity,
            species,
            dentate,
        } => entity_fault(bytes, above, entity, species, dentate),
    }
}

/// The earliest fault of rows of the right form.
pub(crate) fn rows_fault(
    alloc: Global,
    bytes: &[u8],
    rows: &[StateRow],
) -> Result<Option<LineFault>, OutOfMemory>
    ensures { IfOk result (λ fault. fault ≡ fault_below [] (map (state_at bytes.now) rows.now)) }
{
    let mut above = RowsAbove {
        dentates: BTreeSet::new(alloc),
        species: BTreeMap::new(alloc),
    };
    let mut fault = None;
    for row in rows {
        fault = earliest(fault, row_fault(bytes, &mut above, row)?);
    }
    Ok(fault)
}
