ghost use Rattle.std.specs.Prelude.{◌≡◌, ℕ, List, map};
ghost use Rattle.dec_text.specs.Spans.{bytes_at, line_at};
ghost use Rattle.deck_values.specs.Rows.{or_form_fault, row_words};

use dec_text::{Line, Span};
use deck_words::LineFault;
use deck_words::kind::ROW_FORM;

/// The words of a row, as places in the bytes of its file.
pub fn row_words(row: &Line) -> &[Span]
    ensures { (text : List ℕ) → map (bytes_at text) result.now ≡ row_words (line_at text row.now) }
{
    row.words.as_slice()
}

/// What was found on a line, or else the fault of the row's form.
pub fn or_form_fault<T>(line: u32, found: Option<T>) -> Result<T, LineFault>
    ensures { result ≡ or_form_fault line found }
{
    match found {
        Some(row) => Ok(row),
        None => Err(LineFault {
            line,
            kind: ROW_FORM,
        }),
    }
}
