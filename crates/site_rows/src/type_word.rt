ghost use Rattle.std.specs.Prelude.{◌≡◌, ◌==◌, ◌≤◌, IfSome, length, map};
ghost use Rattle.std.specs.Cmp.Lexicographic.{pointwise};
ghost use Rattle.std.specs.List.{position};
ghost use Rattle.dec_text.specs.Wholes.{whole_number};
ghost use Rattle.site_rows.specs.TypeWords.{type_named, type_numbered, type_of};

use dec_text::read_whole;

/// The greatest number of site types, a limit of kmc's own.
pub const MAX_SITE_TYPES: usize = 1000;

/// The place of a name in a list.
fn place_of(names: &[Vec<u8>], word: &[u8]) -> Option<usize>
    ensures { result ≡ position (λ name. pointwise (λ x y. x == y) name.items word.now) names.now }
{
    names.iter().position(|name| name.as_slice() == word)
}

/// The number of the type with a name, from 1; 0 where no type has it.
fn type_named(names: &[Vec<u8>], word: &[u8]) -> usize
    ensures value { result ≡ type_named (map (λ name. name.items) names.now) word.now }
    ensures within { result ≤ length names.now }
{
    match place_of(names, word) {
        Some(place) => place + 1,
        None => 0,
    }
}

/// The number that a word writes, where it is that of a type.
pub(crate) fn type_numbered(count: usize, word: &[u8]) -> Option<usize>
    ensures value { result ≡ type_numbered count (whole_number word.now) }
    ensures within { IfSome result (λ n. n ≤ count) }
{
    match read_whole(word) {
        Ok(n) if 1 <= n && n <= count as u64 => Some(n as usize),
        _ => None,
    }
}

/// The type of a type word: that of its number, or else that of its name, or 0 where it is no type. Types are numbered
/// from 1.
pub fn type_of(names: &[Vec<u8>], word: &[u8]) -> usize
    ensures value { result ≡ type_of (map (λ name. name.items) names.now) word.now }
    ensures within { result ≤ length names.now }
{
    match type_numbered(names.len(), word) {
        Some(number) => number,
        None => type_named(names, word),
    }
}
