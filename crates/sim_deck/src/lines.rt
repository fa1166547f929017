//! The lists behind the keywords of a block, each at its line.

ghost use Rattle.std.specs.Prelude.{◌≡◌, IfOk, map};
ghost use Rattle.dec_text.specs.Spans.{run_at};
ghost use Rattle.deck_shape.specs.Blocks.{block_at};
ghost use Rattle.deck_shape.specs.Names.{name_at, on_line};
ghost use Rattle.deck_values.specs.Lists.{absent_list};
ghost use Rattle.deck_words.specs.Faults.{value_map};
ghost use Rattle.sim_deck.specs.Species.{list_or, names_in, numbers_in};

use dec_text::Span;
use deck_shape::{Block, Keyword, Name, names_of};
use deck_values::{absent_list, list_on, species_on};
use deck_words::{LineFault, ReadWord};
use kmc_base::OutOfMemory;
use std::alloc::Global;

/// The list behind a keyword, or the other one where the keyword is absent.
pub(crate) fn list_or<R: ReadWord>(
    alloc: Global,
    absent: Result<Vec<R::Value>, LineFault>,
    reading: &R,
    count: Option<u64>,
    bytes: &[u8],
    block: &Block,
    keyword: Keyword,
) -> Result<Result<Vec<R::Value>, LineFault>, OutOfMemory>
    requires { R.is_usable reading.now }
    ensures { IfOk result (λ list. value_map (λ members. members.items) list
        ≡ list_or (value_map (λ members. members.items) absent) (R.value_of reading.now) count keyword (block_at bytes.now block.now)) }
{
    match block.item(bytes, keyword) {
        Some(item) => list_on(
            alloc,
            reading,
            count,
            item.line.number,
            bytes,
            item.arguments(),
        ),
        None => Ok(absent),
    }
}

/// A number for each of so many species.
pub(crate) fn numbers_in<R: ReadWord>(
    alloc: Global,
    reading: &R,
    count: Option<u64>,
    bytes: &[u8],
    block: &Block,
    keyword: Keyword,
) -> Result<Result<Vec<R::Value>, LineFault>, OutOfMemory>
    requires { R.is_usable reading.now }
    ensures { IfOk result (λ list. value_map (λ members. members.items) list
        ≡ numbers_in (R.value_of reading.now) count keyword (block_at bytes.now block.now)) }
{
    let absent = absent_list(alloc, count, block.end_line);
    list_or(alloc, absent, reading, count, bytes, block, keyword)
}

/// The names that were found on a line.
#[tactic(auto, using(deck_shape::proofs::NameLists::names_at))]
fn named(
    alloc: Global,
    bytes: &[u8],
    words: Result<&[Span], LineFault>,
    line: u32,
) -> Result<Result<Vec<Name>, LineFault>, OutOfMemory>
    ensures { IfOk result (λ names. value_map (λ members. map (name_at bytes.now) members.items) names
        ≡ value_map (map (on_line line)) (value_map (λ spans. map (run_at bytes.now) spans.now) words.entry)) }
{
    match words {
        Ok(words) => Ok(Ok(names_of(alloc, words, line)?)),
        Err(fault) => Ok(Err(fault)),
    }
}

/// A name for each of so many species.
pub(crate) fn names_in(
    alloc: Global,
    count: Option<u64>,
    bytes: &[u8],
    block: &Block,
    keyword: Keyword,
) -> Result<Result<Vec<Name>, LineFault>, OutOfMemory>
    ensures { IfOk result (λ names. value_map (λ members. map (name_at bytes.now) members.items) names
        ≡ names_in count keyword (block_at bytes.now block.now)) }
{
    let Some(item) = block.item(bytes, keyword) else {
        return Ok(absent_list(alloc, count, block.end_line));
    };
    let line = item.line.number;
    let words = species_on(alloc, count, line, bytes, item.arguments())?;
    named(alloc, bytes, words, line)
}
