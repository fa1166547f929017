ghost use Rattle.std.specs.Prelude.{◌≡◌, ℕ, List, map};
ghost use Rattle.deck_shape.specs.Blocks.{block_at, section_at};
ghost use Rattle.pattern_rows.specs.Variants.{variants_of};

use deck_shape::{Block, Section};
use std::slice;

/// The variants of a cluster or a step; one without variants is its own only variant.
pub fn variants_of(section: &Section) -> &[Block]
    ensures { (text : List ℕ) → map (block_at text) result.now ≡ variants_of (section_at text section.now) }
{
    if section.variants.is_empty() {
        slice::from_ref(&section.block)
    } else {
        section.variants.as_slice()
    }
}
