//! The pattern of a cluster or of a side of a step.

ghost use Rattle.std.specs.Prelude.{◌≡◌, ◌≤◌, IfOk, length, map};
ghost use Rattle.deck_shape.specs.Names.{name_at};
ghost use Rattle.deck_join.specs.SoundValues.{IsPatternFor};
ghost use Rattle.pattern_names.specs.Types.{types_for};
ghost use Rattle.pattern_types.specs.Parts.{pattern_of};
ghost use Rattle.site_rows.specs.declared.type_word.TheConstants.{MAX_SITE_TYPES};

use deck_shape::Name;
use kmc_base::OutOfMemory;
use pattern_names::types_for;
use pattern_types::{Pattern, Wanted};
use site_rows::TypeIndex;
use std::alloc::Global;

/// The pattern of so many sites that has these edges and site types, and wants these states.
pub(crate) fn pattern_with(
    alloc: Global,
    bytes: &[u8],
    index: &TypeIndex,
    sites: u8,
    edges: &[(u8, u8)],
    types: &[Name],
    wanted: &[Wanted],
) -> Result<Pattern, OutOfMemory>
    requires few_types { length index.now ≤ MAX_SITE_TYPES }
    requires pattern { IsPatternFor sites edges.now (map (name_at bytes.now) types.now) wanted.now }
    ensures { IfOk result (λ pattern. pattern ≡ pattern_of edges.now (types_for index.now sites (map (name_at bytes.now) types.now)) wanted.now) }
{
    let types = types_for(alloc, bytes, index, sites, types)?;
    Ok(Pattern::new(edges, types.as_slice(), wanted).unwrap())
}
