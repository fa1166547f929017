//! The values that the word lines of a block state, each at its line.

ghost use Rattle.std.specs.Prelude.{◌≡◌, map};
ghost use Rattle.dec_text.specs.Spans.{bytes_at};
ghost use Rattle.deck_shape.specs.BlockValues.{one, value_on, value_or};
ghost use Rattle.deck_shape.specs.Blocks.{block_at, item_at};

use crate::shape::{Block, Item};
use dec_text::Span;
use deck_words::kind::{ARGUMENT_COUNT, MISSING_WORD};
use deck_words::{Keyword, LineFault, ReadWord, at_line};

/// The value of the one word that is there. Another number of words is the fault `ARGUMENT_COUNT`.
fn one<R: ReadWord>(reading: &R, bytes: &[u8], words: &[Span]) -> Result<R::Value, u8>
    requires { R.is_usable reading.now }
    ensures { result ≡ one (R.value_of reading.now) (map (bytes_at bytes.now) words.now) }
{
    match words {
        [word] => reading.read(word.bytes(bytes)),
        _ => Err(ARGUMENT_COUNT),
    }
}

impl Item {
    /// The value of the one word behind its keyword. Another number of words is the fault `ARGUMENT_COUNT`. The bytes are
    /// those of the file that it was read from.
    pub fn value<R: ReadWord>(&self, bytes: &[u8], reading: &R) -> Result<R::Value, LineFault>
        requires { R.is_usable reading.now }
        ensures { result ≡ value_on (R.value_of reading.now) (item_at bytes.now self.now) }
    {
        at_line(self.line.number, one(reading, bytes, self.arguments()))
    }
}

impl Block {
    /// The fault of the block where it lacks a word that it must have: `MISSING_WORD`, at its closing line.
    pub fn missing_word(&self) -> LineFault
        ensures line { result.line ≡ self.now.end_line }
        ensures kind { result.kind ≡ MISSING_WORD }
    {
        LineFault {
            line: self.end_line,
            kind: MISSING_WORD,
        }
    }

    /// The value of the one word behind a keyword, or the other one where the keyword is absent. The bytes are those of the
    /// file that it was read from.
    pub fn value_or<R: ReadWord>(
        &self,
        bytes: &[u8],
        keyword: Keyword,
        reading: &R,
        absent: Result<R::Value, LineFault>,
    ) -> Result<R::Value, LineFault>
        requires { R.is_usable reading.now }
        ensures { result ≡ value_or absent (one (R.value_of reading.now)) keyword (block_at bytes.now self.now).items }
    {
        match self.item(bytes, keyword) {
            Some(item) => item.value(bytes, reading),
            None => absent,
        }
    }
}
