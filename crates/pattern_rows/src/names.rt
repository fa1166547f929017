ghost use Rattle.std.specs.Prelude.{◌≡◌, IfOk, map};
ghost use Rattle.deck_shape.specs.Blocks.{section_at};
ghost use Rattle.pattern_rows.specs.SectionNames.{repeated_name};

use deck_shape::Section;
use deck_values::fault_if;
use deck_words::kind::REPEATED_NAME;
use deck_words::{LineFault, earliest};
use kmc_base::OutOfMemory;
use std::alloc::Global;
use std::collections::BTreeSet;

/// The first of some clusters or steps that has the name of one above it: a fault of its line, of the kind `REPEATED_NAME`.
pub fn repeated_name(
    alloc: Global,
    bytes: &[u8],
    sections: &[Section],
) -> Result<Option<LineFault>, OutOfMemory>
    ensures { IfOk result (λ fault. fault ≡ repeated_name (map (section_at bytes.now) sections.now)) }
{
    let mut above = BTreeSet::new(alloc);
    let mut fault = None;
    for section in sections {
        let is_new = above.insert(section.block.name.bytes(bytes))?;
        let repeated = fault_if(!is_new, section.block.line, REPEATED_NAME);
        fault = earliest(fault, repeated);
    }
    Ok(fault)
}
