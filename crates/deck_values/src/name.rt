ghost use Rattle.std.specs.Prelude.{◌≡◌, IfOk, map};
ghost use Rattle.std.specs.List.{list_any};
ghost use Rattle.dec_text.specs.Spans.{bytes_at, run_at};
ghost use Rattle.deck_words.specs.Faults.{value_map};
ghost use Rattle.deck_values.specs.Names.{is_bad_name, names_on, names_repeat, species_on, words_on};

use crate::list::{fault_if, has_other_length};
use dec_text::Span;
use deck_words::kind::{BAD_NAME, LIST_LENGTH, REPEATED_NAME};
use deck_words::{LineFault, with_fault};
use kmc_base::OutOfMemory;
use std::alloc::Global;
use std::collections::BTreeSet;

/// The words of a line, of which there should be so many, where that number is known; or else the fault of the line,
/// `LIST_LENGTH`.
pub fn words_on<T: Drop>(count: Option<u64>, line: u32, words: Vec<T>) -> Result<Vec<T>, LineFault>
    ensures { value_map (λ list. list.items) result ≡ words_on count line words.items }
{
    let other_length = has_other_length(count, words.len());
    with_fault(fault_if(other_length, line, LIST_LENGTH), Ok(words))
}

/// A list has a name twice.
fn names_repeat(alloc: Global, bytes: &[u8], names: &[Span]) -> Result<bool, OutOfMemory>
    ensures { IfOk result (λ repeat. repeat ≡ names_repeat (map (bytes_at bytes.now) names.now)) }
{
    let mut seen = BTreeSet::new(alloc);
    for name in names {
        if !seen.insert(name.bytes(bytes))? {
            return Ok(true);
        }
    }
    Ok(false)
}

/// The words of a line as names that differ, or the fault of the line: `LIST_LENGTH` before `REPEATED_NAME`.
pub fn names_on<'a>(
    alloc: Global,
    count: Option<u64>,
    line: u32,
    bytes: &[u8],
    words: &'a [Span],
) -> Result<Result<&'a [Span], LineFault>, OutOfMemory>
    ensures { IfOk result (λ names. value_map (λ spans. map (run_at bytes.now) spans.now) names
        ≡ names_on count line (map (run_at bytes.now) words.now)) }
{
    if has_other_length(count, words.len()) {
        return Ok(Err(LineFault {
            line,
            kind: LIST_LENGTH,
        }));
    }
    let repeat = names_repeat(alloc, bytes, words)?;
    Ok(with_fault(fault_if(repeat, line, REPEATED_NAME), Ok(words)))
}

/// A name is `*` or `&`, which mean a vacant site and any state in the rows of patterns.
fn is_bad_name(name: &[u8]) -> bool
    ensures { result ≡ is_bad_name name.now }
{
    matches!(name, b"*" | b"&")
}

/// Some name is `*` or `&`.
fn any_is_bad(bytes: &[u8], names: &[Span]) -> bool
    ensures { result ≡ list_any is_bad_name (map (bytes_at bytes.now) names.now) }
{
    names.iter().any(|name| is_bad_name(name.bytes(bytes)))
}

/// The words of a line as names of species, or the fault of the line: those of `names_on`, or `BAD_NAME`.
pub fn species_on<'a>(
    alloc: Global,
    count: Option<u64>,
    line: u32,
    bytes: &[u8],
    words: &'a [Span],
) -> Result<Result<&'a [Span], LineFault>, OutOfMemory>
    ensures { IfOk result (λ names. value_map (λ spans. map (run_at bytes.now) spans.now) names
        ≡ species_on count line (map (run_at bytes.now) words.now)) }
{
    let names = names_on(alloc, count, line, bytes, words)?;
    let bad = any_is_bad(bytes, words);
    Ok(with_fault(fault_if(bad, line, BAD_NAME), names))
}
