//! The type words of a file, in order.

ghost use Rattle.std.specs.Prelude.{◌≡◌, ◌++◌, ℕ, IfOk, List, filter, map};
ghost use Rattle.std.specs.List.{flat_map};
ghost use Rattle.deck_shape.specs.Blocks.{block_at, section_at};
ghost use Rattle.deck_shape.specs.Names.{name_at};
ghost use Rattle.pattern_rows.specs.TypeWords.{is_on_side, own_types, section_types, type_words};

use crate::lines::word_line;
use deck_shape::{Block, Keyword, Name, Section};
use kmc_base::OutOfMemory;
use std::alloc::Global;

/// A variant is above a line, or it is not.
fn is_on_side(above: bool, line: u32, variant: &Block) -> bool
    ensures { (text : List ℕ) → result ≡ is_on_side above line (block_at text variant.now) }
{
    if above {
        variant.line < line
    } else {
        variant.line >= line
    }
}

/// Some type words, and those of a block itself.
fn with_types(
    alloc: Global,
    bytes: &[u8],
    block: &Block,
    mut words: Vec<Name>,
) -> Result<Vec<Name>, OutOfMemory>
    ensures { IfOk result (λ all. map (name_at bytes.now) all.items ≡ map (name_at bytes.now) words.items ++ own_types (block_at bytes.now block.now)) }
{
    let own = block.names_in(alloc, bytes, Keyword::SiteTypes)?;
    words.extend_from_slice(&own)?;
    Ok(words)
}

/// Some type words, and those of the variants above a line, or of the others.
fn with_variants(
    alloc: Global,
    bytes: &[u8],
    variants: &[Block],
    above: bool,
    line: u32,
    mut words: Vec<Name>,
) -> Result<Vec<Name>, OutOfMemory>
    ensures { IfOk result (λ all. map (name_at bytes.now) all.items
        ≡ map (name_at bytes.now) words.items ++ flat_map own_types (filter (is_on_side above line) (map (block_at bytes.now) variants.now))) }
{
    for variant in variants {
        if is_on_side(above, line, variant) {
            words = with_types(alloc, bytes, variant, words)?;
        }
    }
    Ok(words)
}

/// Some type words, and those of a cluster or a step.
fn with_section(
    alloc: Global,
    bytes: &[u8],
    section: &Section,
    words: Vec<Name>,
) -> Result<Vec<Name>, OutOfMemory>
    ensures { IfOk result (λ all. map (name_at bytes.now) all.items
        ≡ map (name_at bytes.now) words.items ++ section_types (section_at bytes.now section.now)) }
{
    let line = word_line(bytes, &section.block, Keyword::SiteTypes);
    let variants = section.variants.as_slice();
    let above = with_variants(alloc, bytes, variants, true, line, words)?;
    let own = with_types(alloc, bytes, &section.block, above)?;
    with_variants(alloc, bytes, variants, false, line, own)
}

/// The type words of some clusters or steps, in order, also those that no variant needs.
pub fn type_words(
    alloc: Global,
    bytes: &[u8],
    sections: &[Section],
) -> Result<Vec<Name>, OutOfMemory>
    ensures { IfOk result (λ words. map (name_at bytes.now) words.items ≡ type_words (map (section_at bytes.now) sections.now)) }
{
    let mut words = Vec::new(alloc);
    for section in sections {
        words = with_section(alloc, bytes, section, words)?;
    }
    Ok(words)
}
