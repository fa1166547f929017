ghost use Rattle.std.specs.Prelude.{◌≡◌, ℕ, IfOk, List, map};
ghost use Rattle.std.specs.Option.{option_map};
ghost use Rattle.dec_text.specs.Decimals.{decimal_of};
ghost use Rattle.dec_text.specs.Spans.{bytes_at, line_at, run_at};
ghost use Rattle.deck_values.specs.Readings.{least_fault};
ghost use Rattle.deck_values.specs.Rows.{or_form_fault};
ghost use Rattle.deck_words.specs.Faults.{value_map};
ghost use Rattle.site_rows.specs.ReadRows.{row_at};
ghost use Rattle.site_rows.specs.SiteRows.{all_whole, is_either_out_of_range, is_out_of_range, neighbours_of, row_made, row_of, rows_of, site_row};

use dec_text::{DecimalFault, Line, Span, read_decimal, read_whole};
use deck_values::{Readings, or_form_fault, with_reading};
use deck_words::LineFault;
use kmc_base::OutOfMemory;
use std::alloc::Global;

/// A row of `lattice_structure` of the right form.
#[derive(Debug, Drop)]
pub struct ReadRow {
    /// The number of its line.
    pub line: u32,
    /// The number of the site, from 1.
    pub site: u64,
    /// The number or the name of the site's type.
    pub type_word: Span,
    /// The numbers of the neighbours, from 1, in the order of the row.
    pub neighbours: Vec<u64>,
    /// A coordinate has a power of ten outside -400 to 400.
    pub is_out_of_range: bool,
}

/// Whole numbers, where each word writes one.
fn all_whole(alloc: Global, bytes: &[u8], words: &[Span]) -> Result<Option<Vec<u64>>, OutOfMemory>
    ensures { IfOk result (λ numbers. option_map (λ ns. ns.items) numbers ≡ all_whole (map (bytes_at bytes.now) words.now)) }
{
    let mut numbers = Vec::new(alloc);
    for word in words {
        let Ok(n) = read_whole(word.bytes(bytes)) else {
            return Ok(None);
        };
        numbers.push(n)?;
    }
    Ok(Some(numbers))
}

/// The neighbours that some words write, of which there should be so many.
fn neighbours_of(
    alloc: Global,
    bytes: &[u8],
    count: Option<u64>,
    words: &[Span],
) -> Result<Option<Vec<u64>>, OutOfMemory>
    ensures { IfOk result (λ numbers. option_map (λ ns. ns.items) numbers ≡ neighbours_of count (map (bytes_at bytes.now) words.now)) }
{
    match count {
        Some(count) if words.len() as u64 == count => all_whole(alloc, bytes, words),
        _ => Ok(None),
    }
}

/// Whether the power of ten of a coordinate is out of range, where its word has the form of a decimal.
fn is_out_of_range(word: &[u8]) -> Option<bool>
    ensures { result ≡ is_out_of_range (decimal_of word.now) }
{
    match read_decimal(word) {
        Ok(_) => Some(false),
        Err(DecimalFault::Form) => None,
        Err(DecimalFault::Power) => Some(true),
    }
}

/// Whether the power of ten of one of two coordinates is out of range, where both words have the form of a decimal.
fn is_either_out_of_range(x: &[u8], y: &[u8]) -> Option<bool>
    ensures { result ≡ is_either_out_of_range x.now y.now }
{
    let x = is_out_of_range(x)?;
    let y = is_out_of_range(y)?;
    Some(x || y)
}

/// The row of these parts on a line, where each has the right form.
fn row_made(
    line: u32,
    type_word: Span,
    site: Option<u64>,
    past: Option<bool>,
    neighbours: Option<Vec<u64>>,
) -> Option<ReadRow>
    ensures { (text : List ℕ) → option_map (row_at text) result ≡ row_made line (run_at text type_word) site past (option_map (λ ns. ns.items)
        neighbours) }
{
    match (site, past, neighbours) {
        (Some(site), Some(is_out_of_range), Some(neighbours)) => Some(ReadRow {
            line,
            site,
            type_word,
            neighbours,
            is_out_of_range,
        }),
        _ => None,
    }
}

/// The row of a site that the words of a line write.
fn row_of(
    alloc: Global,
    bytes: &[u8],
    line: u32,
    words: &[Span],
) -> Result<Option<ReadRow>, OutOfMemory>
    ensures { IfOk result (λ row. option_map (row_at bytes.now) row ≡ row_of line (map (run_at bytes.now) words.now)) }
{
    let [site, x, y, type_word, count, others @ ..] = words else {
        return Ok(None);
    };
    let past = is_either_out_of_range(x.bytes(bytes), y.bytes(bytes));
    let count = read_whole(count.bytes(bytes)).ok();
    let neighbours = neighbours_of(alloc, bytes, count, others)?;
    let site = read_whole(site.bytes(bytes)).ok();
    Ok(row_made(line, *type_word, site, past, neighbours))
}

/// The row of a site on a line, or the fault of its form.
fn site_row(
    alloc: Global,
    bytes: &[u8],
    line: &Line,
) -> Result<Result<ReadRow, LineFault>, OutOfMemory>
    ensures { IfOk result (λ row. value_map (row_at bytes.now) row ≡ site_row (line_at bytes.now line.now)) }
{
    let row = row_of(alloc, bytes, line.number, line.words.as_slice())?;
    Ok(or_form_fault(line.number, row))
}

/// The rows of the right form, and the earliest fault of the form of the others.
pub(crate) fn read_forms(
    alloc: Global,
    bytes: &[u8],
    lines: &[Line],
) -> Result<Readings<ReadRow>, OutOfMemory>
    ensures rows { IfOk result (λ read. map (row_at bytes.now) read.values.items ≡ rows_of (map (line_at bytes.now) lines.now)) }
    ensures fault { IfOk result (λ read. read.fault ≡ least_fault (map site_row (map (line_at bytes.now) lines.now))) }
{
    let mut read = Readings {
        values: Vec::new(alloc),
        fault: None,
    };
    for line in lines {
        read = with_reading(read, site_row(alloc, bytes, line)?)?;
    }
    Ok(read)
}
