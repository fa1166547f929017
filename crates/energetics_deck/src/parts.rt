ghost use Rattle.std.specs.Prelude.{◌≡◌, ℕ, IfOk, List, map, nat_lt};
ghost use Rattle.deck_shape.specs.Blocks.{file_at, section_at};
ghost use Rattle.deck_words.specs.Faults.{value_map};
ghost use Rattle.energetics_deck.specs.Parts.{cluster_count, count_fault, part_of};
ghost use Rattle.energetics_deck.specs.Views.{values_at};
ghost use Rattle.pattern_types.specs.declared.limits.TheConstants.{MAX_CLUSTERS};

use crate::clusters::with_sections;
use crate::part::EnergeticsPart;
use deck_shape::{Section, Shape};
use deck_values::fault_if;
use deck_words::kind::TOO_MANY_PARTS;
use deck_words::{LineFault, with_fault};
use kmc_base::{OutOfMemory, Sequence};
use pattern_rows::{repeated_name, type_words, variants_of};
use pattern_types::MAX_CLUSTERS;
use std::alloc::Global;

/// Some blocks are more clusters than a file may have.
fn are_too_many(sections: &[Section]) -> bool
    ensures { (text : List ℕ) → result ≡ nat_lt MAX_CLUSTERS (cluster_count (map (section_at text) sections.now)) }
{
    let mut left = MAX_CLUSTERS;
    for section in sections {
        let variants = variants_of(section).len();
        if left < variants {
            return true;
        }
        left -= variants;
    }
    false
}

/// The fault of a file that has more clusters than it may have.
fn count_fault(shape: &Shape) -> Option<LineFault>
    ensures { (text : List ℕ) → result ≡ count_fault (file_at text shape.now) }
{
    let too_many = are_too_many(shape.sections.as_slice());
    fault_if(too_many, shape.block.end_line, TOO_MANY_PARTS)
}

/// The values of an energetics file, or the earliest of its faults. Where it has too many clusters none is kept.
pub(crate) fn part_of(
    alloc: Global,
    bytes: &[u8],
    shape: &Shape,
) -> Result<Result<EnergeticsPart, LineFault>, OutOfMemory>
    ensures { IfOk result (λ part. value_map (values_at bytes.now) part ≡ part_of (file_at bytes.now shape.now)) }
{
    let sections = shape.sections.as_slice();
    let repeated = repeated_name(alloc, bytes, sections)?;
    let none = with_fault(repeated, Ok(Vec::new(alloc)));
    let none = with_fault(count_fault(shape), none);
    match with_sections(alloc, bytes, sections, none)? {
        Ok(clusters) => Ok(Ok(EnergeticsPart {
            clusters: Sequence::new(clusters),
            type_words: Sequence::new(type_words(alloc, bytes, sections)?),
        })),
        Err(fault) => Ok(Err(fault)),
    }
}
