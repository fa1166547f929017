ghost use Rattle.std.specs.Prelude.{◌≡◌, ℕ, List, length, map};
ghost use Rattle.dec_text.specs.Spans.{line_at, run_at};
ghost use Rattle.deck_shape.specs.LineWords.{arguments_of, begins_row, first_of};

use dec_text::{Line, Span};

/// An empty place, for a word that is not there.
pub const NO_WORD: Span = Span { start: 0, end: 0 };

/// The place of the word at the head of a line.
pub(crate) fn head(line: &Line) -> Span
    ensures { (text : List ℕ) → run_at text result ≡ first_of (line_at text line.now).words }
{
    match line.words.as_slice() {
        [word, ..] => *word,
        [] => NO_WORD,
    }
}

/// The places of the words behind it.
pub(crate) fn arguments(line: &Line) -> &[Span]
    ensures { (text : List ℕ) → map (run_at text) result.now ≡ arguments_of (line_at text line.now) }
{
    match line.words.as_slice() {
        [_, arguments @ ..] => arguments,
        [] => &[],
    }
}

/// The place of the first word behind it.
pub(crate) fn argument(line: &Line) -> Span
    ensures { (text : List ℕ) → run_at text result ≡ first_of (arguments_of (line_at text line.now)) }
{
    match arguments(line) {
        [word, ..] => *word,
        [] => NO_WORD,
    }
}

/// How many words stand behind it.
pub(crate) fn argument_count(line: &Line) -> usize
    ensures { (text : List ℕ) → result ≡ length (arguments_of (line_at text line.now)) }
{
    arguments(line).len()
}

/// Whether a line with this word at its head is a row.
pub(crate) fn begins_row(word: &[u8]) -> bool
    ensures { result ≡ begins_row word.now }
{
    match word {
        [first, ..] => matches!(first, b'0'..=b'9' | b'+' | b'-' | b'.' | b'&'),
        [] => false,
    }
}
