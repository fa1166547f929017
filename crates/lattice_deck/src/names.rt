ghost use Rattle.std.specs.Prelude.{◌≡◌, IfOk, map};
ghost use Rattle.dec_text.specs.Spans.{bytes_at};
ghost use Rattle.deck_shape.specs.BlockValues.{required};
ghost use Rattle.deck_shape.specs.Blocks.{block_at, item_at};
ghost use Rattle.deck_shape.specs.Names.{name_at};
ghost use Rattle.deck_words.specs.Faults.{value_map};
ghost use Rattle.lattice_deck.specs.Parts.{names_line, type_names, type_words, types_in};

use crate::ranges::TYPE_COUNT;
use dec_text::Span;
use deck_shape::{Block, Item, Keyword, Name};
use deck_values::{names_on, words_on};
use deck_words::{LineFault, fault_of, with_fault};
use kmc_base::OutOfMemory;
use std::alloc::Global;

/// The bytes of words.
fn copies_of(alloc: Global, bytes: &[u8], words: &[Span]) -> Result<Vec<Vec<u8>>, OutOfMemory>
    ensures { IfOk result (λ names. map (λ name. name.items) names.items ≡ map (bytes_at bytes.now) words.now) }
{
    let mut copies = Vec::new(alloc);
    for word in words {
        copies.push(word.bytes(bytes).to_vec(alloc)?)?;
    }
    Ok(copies)
}

/// The names on a line, of which there should be so many, where that number is known.
fn names_line(
    alloc: Global,
    bytes: &[u8],
    count: Option<u64>,
    item: &Item,
) -> Result<Result<Vec<Vec<u8>>, LineFault>, OutOfMemory>
    ensures { IfOk result (λ names. value_map (λ ns. map (λ name. name.items) ns.items) names ≡ names_line count (item_at bytes.now item.now)) }
{
    match names_on(alloc, count, item.line.number, bytes, item.arguments())? {
        Ok(words) => Ok(Ok(copies_of(alloc, bytes, words)?)),
        Err(fault) => Ok(Err(fault)),
    }
}

/// The names of the site types, of which there should be so many.
fn listed_names(
    alloc: Global,
    bytes: &[u8],
    block: &Block,
    count: Option<u64>,
) -> Result<Result<Vec<Vec<u8>>, LineFault>, OutOfMemory>
    ensures { IfOk result (λ names. value_map (λ ns. map (λ name. name.items) ns.items) names
        ≡ required Keyword.SiteTypeNames (block_at bytes.now block.now) (names_line count)) }
{
    match block.item(bytes, Keyword::SiteTypeNames) {
        Some(item) => names_line(alloc, bytes, count, item),
        None => Ok(Err(block.missing_word())),
    }
}

/// How many site types there are.
fn types_in(bytes: &[u8], block: &Block) -> Result<u64, LineFault>
    ensures { result ≡ types_in (block_at bytes.now block.now) }
{
    let absent = Err(block.missing_word());
    block.value_or(bytes, Keyword::NSiteTypes, &TYPE_COUNT, absent)
}

/// The names of the site types, which differ.
pub(crate) fn type_names(
    alloc: Global,
    bytes: &[u8],
    block: &Block,
) -> Result<Result<Vec<Vec<u8>>, LineFault>, OutOfMemory>
    ensures { IfOk result (λ names. value_map (λ ns. map (λ name. name.items) ns.items) names ≡ type_names (block_at bytes.now block.now)) }
{
    let types = types_in(bytes, block);
    let names = listed_names(alloc, bytes, block, types.ok())?;
    Ok(with_fault(fault_of(types), names))
}

/// The type words of the sites of a cell.
pub(crate) fn type_words(
    alloc: Global,
    bytes: &[u8],
    block: &Block,
    sites: Option<u64>,
) -> Result<Result<Vec<Name>, LineFault>, OutOfMemory>
    ensures { IfOk result (λ words. value_map (λ ws. map (name_at bytes.now) ws.items) words ≡ type_words sites (block_at bytes.now block.now)) }
{
    let Some(item) = block.item(bytes, Keyword::SiteTypes) else {
        return Ok(Err(block.missing_word()));
    };
    Ok(words_on(sites, item.line.number, item.names(alloc)?))
}
