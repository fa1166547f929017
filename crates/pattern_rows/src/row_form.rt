//! Rows of states, by their words.

ghost use Rattle.std.specs.Prelude.{◌≡◌, ◌&&◌, IfOk, Some, codes, map};
ghost use Rattle.std.specs.Option.{option_map};
ghost use Rattle.dec_text.specs.Spans.{line_at, run_at};
ghost use Rattle.deck_values.specs.Readings.{least_fault, values_of};
ghost use Rattle.deck_words.specs.Faults.{value_map};
ghost use Rattle.deck_words.specs.Tables.{same_word};
ghost use Rattle.pattern_rows.specs.States.{entity_of, is_any as is_any_lem, state_of, state_row, three_words};
ghost use Rattle.pattern_rows.specs.Views.{state_at};

use crate::ranges::ENTITY;
use crate::state::StateRow;
use dec_text::{Line, Span, read_whole};
use deck_shape::Name;
use deck_values::{Readings, or_form_fault, whole_in, with_reading};
use deck_words::LineFault;
use kmc_base::OutOfMemory;
use std::alloc::Global;

/// The word `&`.
fn is_any(word: &[u8]) -> bool
    ensures { result ≡ same_word (codes "&") word.now }
{
    matches!(word, b"&")
}

/// Three words are all `&`.
fn are_any(bytes: &[u8], a: Span, b: Span, c: Span) -> bool
    ensures { result ≡ (is_any_lem (run_at bytes.now a) && (is_any_lem (run_at bytes.now b) && is_any_lem (run_at bytes.now c))) }
{
    is_any(a.bytes(bytes)) && is_any(b.bytes(bytes)) && is_any(c.bytes(bytes))
}

/// The entity of three words.
fn entity_of(
    bytes: &[u8],
    line: u32,
    entity: Span,
    species: Span,
    dentate: Span,
) -> Option<StateRow>
    ensures { option_map (state_at bytes.now) result
        ≡ option_map (λ words. Some words) (entity_of line (run_at bytes.now entity) (run_at bytes.now species) (run_at bytes.now dentate)) }
{
    let entity = whole_in(ENTITY, entity.bytes(bytes)).ok()?;
    let dentate = read_whole(dentate.bytes(bytes)).ok()?;
    Some(StateRow::Is {
        entity: entity as u8,
        species: Name {
            span: species,
            line,
        },
        dentate,
    })
}

/// What three words want, where any state may be wanted or not.
fn three_words(
    bytes: &[u8],
    takes_any: bool,
    line: u32,
    a: Span,
    b: Span,
    c: Span,
) -> Option<StateRow>
    ensures { option_map (state_at bytes.now) result
        ≡ three_words takes_any line (run_at bytes.now a) (run_at bytes.now b) (run_at bytes.now c) }
{
    if are_any(bytes, a, b, c) {
        return if takes_any { Some(StateRow::Any) } else { None };
    }
    if is_any(b.bytes(bytes)) {
        None
    } else {
        entity_of(bytes, line, a, b, c)
    }
}

/// What the words of a row want.
fn state_of(bytes: &[u8], takes_any: bool, line: u32, words: &[Span]) -> Option<StateRow>
    ensures { option_map (state_at bytes.now) result ≡ state_of takes_any line (map (run_at bytes.now) words.now) }
{
    match words {
        [a, b, c] => three_words(bytes, takes_any, line, *a, *b, *c),
        _ => None,
    }
}

/// A row, or the fault of its form.
fn state_row(bytes: &[u8], takes_any: bool, line: &Line) -> Result<StateRow, LineFault>
    ensures { value_map (state_at bytes.now) result ≡ state_row takes_any (line_at bytes.now line.now) }
{
    or_form_fault(
        line.number,
        state_of(bytes, takes_any, line.number, line.words.as_slice()),
    )
}

/// The rows of the right form, and the earliest fault of the form of the others.
pub(crate) fn read_forms(
    alloc: Global,
    bytes: &[u8],
    takes_any: bool,
    lines: &[Line],
) -> Result<Readings<StateRow>, OutOfMemory>
    ensures rows { IfOk result (λ read. map (state_at bytes.now) read.values.items
        ≡ values_of (map (state_row takes_any) (map (line_at bytes.now) lines.now))) }
    ensures fault { IfOk result (λ read. read.fault ≡ least_fault (map (state_row takes_any) (map (line_at bytes.now) lines.now))) }
{
    let mut read = Readings {
        values: Vec::new(alloc),
        fault: None,
    };
    for line in lines {
        read = with_reading(read, state_row(bytes, takes_any, line))?;
    }
    Ok(read)
}
