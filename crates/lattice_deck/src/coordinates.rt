ghost use Rattle.std.specs.Prelude.{◌≡◌, map};
ghost use Rattle.dec_text.specs.Spans.{bytes_at, line_at};
ghost use Rattle.deck_shape.specs.BlockValues.{fault_in};
ghost use Rattle.deck_shape.specs.Blocks.{block_at, item_at};
ghost use Rattle.deck_values.specs.Readings.{least};
ghost use Rattle.lattice_deck.specs.Coordinates.{as_row, coordinates_fault, row_fault, two_decimals};

use dec_text::{Decimal, Line, Span};
use deck_shape::{Block, Item, Keyword};
use deck_values::{any_decimal, fault_if, has_other_length, row_words};
use deck_words::kind::{NOT_NUMBER, ROW_COUNT, ROW_FORM};
use deck_words::{LineFault, at_line, both, earliest, fault_of};

/// The two decimals of a row.
fn two_decimals(line: u32, bytes: &[u8], words: &[Span]) -> Result<(Decimal, Decimal), LineFault>
    ensures { result ≡ two_decimals line (map (bytes_at bytes.now) words.now) }
{
    match words {
        [x, y] => both(
            at_line(line, any_decimal(x.bytes(bytes))),
            at_line(line, any_decimal(y.bytes(bytes))),
        ),
        [] | [_] | [_, _, _, ..] => Err(LineFault {
            line,
            kind: ROW_FORM,
        }),
    }
}

/// At a row a word of another form is a fault of the row's form.
fn as_row(fault: Option<LineFault>) -> Option<LineFault>
    ensures { result ≡ as_row fault }
{
    match fault {
        Some(
            LineFault {
                line,
                kind: NOT_NUMBER,
            },
        ) => Some(LineFault {
            line,
            kind: ROW_FORM,
        }),
        other => other,
    }
}

/// The fault of a row of two decimals.
fn row_fault(bytes: &[u8], row: &Line) -> Option<LineFault>
    ensures { result ≡ row_fault (line_at bytes.now row.now) }
{
    as_row(fault_of(two_decimals(row.number, bytes, row_words(row))))
}

/// The earliest fault of rows of two decimals.
fn rows_fault(bytes: &[u8], rows: &[Line]) -> Option<LineFault>
    ensures { result ≡ least (map row_fault (map (line_at bytes.now) rows.now)) }
{
    let mut fault = None;
    for row in rows {
        fault = earliest(fault, row_fault(bytes, row));
    }
    fault
}

/// The earliest fault of a word that should have so many rows of two decimals, where that number is known.
fn coordinates_fault(count: Option<u64>, bytes: &[u8], item: &Item) -> Option<LineFault>
    ensures { result ≡ coordinates_fault count (item_at bytes.now item.now) }
{
    let rows = item.rows.as_slice();
    let other_count = has_other_length(count, rows.len());
    earliest(
        fault_if(other_count, item.line.number, ROW_COUNT),
        rows_fault(bytes, rows),
    )
}

/// The same for a word that a block may have.
pub(crate) fn coordinates_in(
    block: &Block,
    bytes: &[u8],
    keyword: Keyword,
    count: Option<u64>,
) -> Option<LineFault>
    ensures { result ≡ fault_in keyword (block_at bytes.now block.now) (coordinates_fault count) }
{
    match block.item(bytes, keyword) {
        Some(item) => coordinates_fault(count, bytes, item),
        None => None,
    }
}
