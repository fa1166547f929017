//! Type words that are no type.

ghost use Rattle.std.specs.Prelude.{◌≡◌, ◌==◌, IfOk, map};
ghost use Rattle.std.specs.List.{find};
ghost use Rattle.std.specs.Option.{option_copied};
ghost use Rattle.dec_text.specs.Spans.{bytes_at};
ghost use Rattle.deck_shape.specs.Names.{name_at};
ghost use Rattle.lattice_deck.specs.Types.{unknown_type};
ghost use Rattle.site_rows.specs.TypeWords.{type_of};

use deck_shape::Name;
use deck_words::LineFault;
use deck_words::kind::UNKNOWN_TYPE;
use kmc_base::OutOfMemory;
use site_rows::TypeIndex;
use std::alloc::Global;

/// The first type word that is no number of a type and no name of one.
fn first_unknown<'a>(bytes: &[u8], index: &TypeIndex, words: &'a [Name]) -> Option<&'a Name>
    ensures { option_copied result ≡ find (λ word. type_of index.now (bytes_at bytes.now word.span) == 0) words.now }
{
    words
        .iter()
        .find(|word| index.type_of(word.span.bytes(bytes)) == 0)
}

/// The first of some type words of a file that is neither the number of a type, from 1, nor one of these names: a fault of
/// its line, of the kind `UNKNOWN_TYPE`. The names are those of the types of a lattice file, in order, and the bytes are
/// those of the file of the words.
pub fn unknown_type(
    alloc: Global,
    bytes: &[u8],
    type_names: &[Vec<u8>],
    words: &[Name],
) -> Result<Option<LineFault>, OutOfMemory>
    ensures { IfOk result (λ fault. fault ≡ unknown_type (map (λ name. name.items) type_names.now) (map (name_at bytes.now) words.now)) }
{
    let index = TypeIndex::new(alloc, type_names)?;
    match first_unknown(bytes, &index, words) {
        Some(word) => Ok(Some(LineFault {
            line: word.line,
            kind: UNKNOWN_TYPE,
        })),
        None => Ok(None),
    }
}
