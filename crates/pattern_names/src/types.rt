//! The site types of patterns, by their numbers.

ghost use Rattle.std.specs.Prelude.{◌≡◌, ◌≤◌, IfOk, Some, length, map};
ghost use Rattle.deck_shape.specs.Names.{name_at};
ghost use Rattle.pattern_names.specs.Types.{types_for};
ghost use Rattle.site_rows.specs.TypeWords.{type_of};
ghost use Rattle.site_rows.specs.declared.type_word.TheConstants.{MAX_SITE_TYPES};

use deck_shape::Name;
use kmc_base::OutOfMemory;
use site_rows::TypeIndex;
use std::alloc::Global;

/// The types of some type words.
fn types_of(
    alloc: Global,
    bytes: &[u8],
    index: &TypeIndex,
    words: &[Name],
) -> Result<Vec<Option<u16>>, OutOfMemory>
    requires { length index.now ≤ MAX_SITE_TYPES }
    ensures { IfOk result (λ types. types.items ≡ map (λ w. Some (type_of index.now w.word.bytes)) (map (name_at bytes.now) words.now)) }
{
    let mut types = Vec::new(alloc);
    for word in words {
        types.push(Some(index.type_of(word.span.bytes(bytes)) as u16))?;
    }
    Ok(types)
}

/// The site types that type words ask for, one for each of so many sites: any, where there are no words. A word that is no
/// type counts as 0. The bytes are those of the file that the words were read from.
pub fn types_for(
    alloc: Global,
    bytes: &[u8],
    index: &TypeIndex,
    sites: u8,
    words: &[Name],
) -> Result<Vec<Option<u16>>, OutOfMemory>
    requires { length index.now ≤ MAX_SITE_TYPES }
    ensures { IfOk result (λ types. types.items ≡ types_for index.now sites (map (name_at bytes.now) words.now)) }
{
    if words.is_empty() {
        return Ok(vec![in alloc; None; sites as usize]?);
    }
    types_of(alloc, bytes, index, words)
}
