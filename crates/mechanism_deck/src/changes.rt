//! The changes of gas species.

ghost use Rattle.std.specs.Prelude.{◌≡◌, ◌≤◌, ℕ, IfOk, List, map, take};
ghost use Rattle.deck_shape.specs.Blocks.{block_at, item_at};
ghost use Rattle.deck_values.specs.Names.{repeat_fault};
ghost use Rattle.deck_values.specs.Readings.{least_fault, values_of};
ghost use Rattle.deck_words.specs.Faults.{value_map};
ghost use Rattle.mechanism_deck.specs.Changes.{after_minus, change_of, changes_on, first_names, gas_change, gas_in, gas_on, pairs_of};
ghost use Rattle.mechanism_deck.specs.Views.{change_at, pair_at};

use crate::ranges::{GAS_CHANGE, MOST_CHANGES};
use dec_text::Span;
use deck_shape::{Block, Item, Keyword, Name};
use deck_values::{Readings, names_on, whole_in, with_reading};
use deck_words::kind::NOT_WHOLE;
use deck_words::{LineFault, at_line, earliest, with_fault};
use kmc_base::OutOfMemory;
use std::alloc::Global;

/// The magnitude behind a minus; no plus may follow it.
fn after_minus(word: &[u8]) -> Result<u64, u8>
    ensures value { result ≡ after_minus word.now }
    ensures range { IfOk result (λ n. n ≤ 8) }
{
    match word {
        [] | [b'+', ..] => Err(NOT_WHOLE),
        _ => whole_in(GAS_CHANGE, word),
    }
}

/// A word as a change: a whole number with one sign at most, of a magnitude from 1 to 8.
fn change_of(word: &[u8]) -> Result<i8, u8>
    ensures { result ≡ change_of word.now }
{
    match word {
        [] => Err(NOT_WHOLE),
        [b'-', size @ ..] => match after_minus(size) {
            Ok(size) => Ok(-(size as i8)),
            Err(kind) => Err(kind),
        },
        _ => match whole_in(GAS_CHANGE, word) {
            Ok(size) => Ok(size as i8),
            Err(kind) => Err(kind),
        },
    }
}

/// The pairs of some words; a last word by itself is none.
fn pairs_of(alloc: Global, words: &[Span]) -> Result<Vec<(Span, Span)>, OutOfMemory>
    ensures { IfOk result (λ pairs. pairs.items ≡ pairs_of words.now) }
{
    let mut pairs = Vec::new(alloc);
    let mut rest = words;
    while let [word, next, others @ ..] = rest {
        pairs.push((*word, *next))?;
        rest = others;
    }
    Ok(pairs)
}

/// The first words of some pairs.
fn first_words(alloc: Global, pairs: &[(Span, Span)]) -> Result<Vec<Span>, OutOfMemory>
    ensures { IfOk result (λ names. names.items ≡ map (λ pair. pair.0) pairs.now) }
{
    let mut names = Vec::new(alloc);
    for pair in pairs {
        names.push(pair.0)?;
    }
    Ok(names)
}

/// A pair of words on a line as a change.
fn gas_change(bytes: &[u8], line: u32, pair: &(Span, Span)) -> Result<(Name, i8), LineFault>
    ensures { value_map (change_at bytes.now) result ≡ gas_change line (pair_at bytes.now pair.now) }
{
    let (span, change) = *pair;
    match at_line(line, change_of(change.bytes(bytes))) {
        Ok(change) => Ok((Name { span, line }, change)),
        Err(fault) => Err(fault),
    }
}

/// The pairs of words on a line that are changes, and the earliest fault of the others.
fn read_changes(
    alloc: Global,
    bytes: &[u8],
    line: u32,
    pairs: &[(Span, Span)],
) -> Result<Readings<(Name, i8)>, OutOfMemory>
    ensures changes { IfOk result (λ read. map (change_at bytes.now) read.values.items ≡ values_of (map (gas_change line) (map (pair_at bytes.now)
        pairs.now))) }
    ensures fault { IfOk result (λ read. read.fault ≡ least_fault (map (gas_change line) (map (pair_at bytes.now) pairs.now))) }
{
    let mut read = Readings {
        values: Vec::new(alloc),
        fault: None,
    };
    for pair in pairs {
        read = with_reading(read, gas_change(bytes, line, pair))?;
    }
    Ok(read)
}

/// The fault of pairs that have a name twice.
fn repeat_in(
    alloc: Global,
    bytes: &[u8],
    line: u32,
    pairs: &[(Span, Span)],
) -> Result<Option<LineFault>, OutOfMemory>
    ensures { IfOk result (λ fault. fault ≡ repeat_fault line (first_names (map (pair_at bytes.now) pairs.now))) }
{
    let names = first_words(alloc, pairs)?;
    let different = names_on(alloc, None, line, bytes, names.as_slice())?;
    Ok(different.err())
}

/// The pairs of words on a line as changes of different species, or the earliest of their faults.
fn changes_on(
    alloc: Global,
    bytes: &[u8],
    line: u32,
    pairs: &[(Span, Span)],
) -> Result<Result<Vec<(Name, i8)>, LineFault>, OutOfMemory>
    ensures { IfOk result (λ changes. value_map (λ list. map (change_at bytes.now) list.items) changes
        ≡ changes_on line (map (pair_at bytes.now) pairs.now)) }
{
    let repeated = repeat_in(alloc, bytes, line, pairs)?;
    let read = read_changes(alloc, bytes, line, pairs)?;
    Ok(with_fault(earliest(repeated, read.fault), Ok(read.values)))
}

/// The first of some changes, of which 65 are kept.
#[tactic(auto, using(std::proofs::lemmas::List::take_min))]
fn first_few(alloc: Global, changes: &[(Name, i8)]) -> Result<Vec<(Name, i8)>, OutOfMemory>
    ensures { IfOk result (λ few. few.items ≡ take MOST_CHANGES changes.now) }
{
    let count = MOST_CHANGES.min(changes.len());
    Ok(Vec::from_slice(alloc, &changes[..count])?)
}

/// The first of some changes that are read, of which 65 are kept.
fn kept(
    alloc: Global,
    changes: Result<Vec<(Name, i8)>, LineFault>,
) -> Result<Result<Vec<(Name, i8)>, LineFault>, OutOfMemory>
    ensures { IfOk result (λ few. (text : List ℕ) → value_map (λ list. map (change_at text) list.items) few
        ≡ value_map (take MOST_CHANGES) (value_map (λ list. map (change_at text) list.items) changes)) }
{
    match changes {
        Ok(changes) => Ok(Ok(first_few(alloc, changes.as_slice())?)),
        Err(fault) => Ok(Err(fault)),
    }
}

/// The changes of gas species on a line, or the earliest of their faults.
fn gas_on(
    alloc: Global,
    bytes: &[u8],
    item: &Item,
) -> Result<Result<Vec<(Name, i8)>, LineFault>, OutOfMemory>
    ensures { IfOk result (λ gas. value_map (λ list. map (change_at bytes.now) list.items) gas ≡ gas_on (item_at bytes.now item.now)) }
{
    let pairs = pairs_of(alloc, item.arguments())?;
    let changes = changes_on(alloc, bytes, item.line.number, pairs.as_slice())?;
    let few = kept(alloc, changes)?;
    Ok(few)
}

/// The changes of gas species of a step, or the earliest of their faults.
pub(crate) fn gas_in(
    alloc: Global,
    bytes: &[u8],
    block: &Block,
) -> Result<Result<Vec<(Name, i8)>, LineFault>, OutOfMemory>
    ensures { IfOk result (λ gas. value_map (λ list. map (change_at bytes.now) list.items) gas ≡ gas_in (block_at bytes.now block.now)) }
{
    match block.item(bytes, Keyword::GasReacsProds) {
        Some(item) => gas_on(alloc, bytes, item),
        None => Ok(Ok(Vec::new(alloc))),
    }
}
