ghost use Rattle.std.specs.Prelude.{◌≡◌, ℕ, IfOk, List, map, nat_lt};
ghost use Rattle.deck_shape.specs.Blocks.{file_at, section_at};
ghost use Rattle.deck_words.specs.Faults.{value_map};
ghost use Rattle.mechanism_deck.specs.Parts.{count_fault, part_of, process_count, processes_in};
ghost use Rattle.mechanism_deck.specs.Views.{values_at};
ghost use Rattle.pattern_types.specs.declared.limits.TheConstants.{MAX_PROCESSES};

use crate::body::is_reversible;
use crate::part::MechanismPart;
use crate::steps::with_sections;
use deck_shape::{Section, Shape};
use deck_values::fault_if;
use deck_words::kind::TOO_MANY_PARTS;
use deck_words::{LineFault, with_fault};
use kmc_base::{OutOfMemory, Sequence};
use pattern_rows::{repeated_name, type_words, variants_of};
use pattern_types::MAX_PROCESSES;
use std::alloc::Global;

/// How many processes a block is, with each variant counted.
fn processes_in(section: &Section) -> u128
    ensures { (text : List ℕ) → result ≡ processes_in (section_at text section.now) }
{
    let steps = variants_of(section).len() as u128;
    if is_reversible(section.block.form) {
        2 * steps
    } else {
        steps
    }
}

/// Some blocks are more processes than a file may have.
fn are_too_many(sections: &[Section]) -> bool
    ensures { (text : List ℕ) → result ≡ nat_lt MAX_PROCESSES (process_count (map (section_at text) sections.now)) }
{
    let mut left = u128::from(MAX_PROCESSES);
    for section in sections {
        let processes = processes_in(section);
        if left < processes {
            return true;
        }
        left -= processes;
    }
    false
}

/// The fault of a file that has more processes than it may have.
fn count_fault(shape: &Shape) -> Option<LineFault>
    ensures { (text : List ℕ) → result ≡ count_fault (file_at text shape.now) }
{
    let too_many = are_too_many(shape.sections.as_slice());
    fault_if(too_many, shape.block.end_line, TOO_MANY_PARTS)
}

/// The values of a mechanism file, or the earliest of its faults. Where it has too many processes no step is kept.
pub(crate) fn part_of(
    alloc: Global,
    bytes: &[u8],
    shape: &Shape,
) -> Result<Result<MechanismPart, LineFault>, OutOfMemory>
    ensures { IfOk result (λ part. value_map (values_at bytes.now) part ≡ part_of (file_at bytes.now shape.now)) }
{
    let sections = shape.sections.as_slice();
    let repeated = repeated_name(alloc, bytes, sections)?;
    let none = with_fault(repeated, Ok(Vec::new(alloc)));
    let none = with_fault(count_fault(shape), none);
    match with_sections(alloc, bytes, sections, none)? {
        Ok(steps) => Ok(Ok(MechanismPart {
            steps: Sequence::new(steps),
            type_words: Sequence::new(type_words(alloc, bytes, sections)?),
        })),
        Err(fault) => Ok(Err(fault)),
    }
}
