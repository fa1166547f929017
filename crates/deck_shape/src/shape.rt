ghost use Rattle.std.specs.Prelude.{◌≡◌, ℕ, List, IfOk, map};
ghost use Rattle.std.specs.List.{find};
ghost use Rattle.std.specs.Option.{option_map};
ghost use Rattle.dec_text.specs.Spans.{bytes_at, line_at, run_at};
ghost use Rattle.deck_shape.specs.Blocks.{block_at, has_keyword, item_at};
ghost use Rattle.deck_shape.specs.WordLines.{list_in, names_in, names_on, runs_behind, runs_in, words_behind, words_of};
ghost use Rattle.deck_shape.specs.LineWords.{arguments_of, head_of};
ghost use Rattle.deck_shape.specs.Names.{name_at};

use crate::check::first_item;
use crate::line_words::{arguments, head};
use crate::name::{Name, names_of};
use dec_text::{Line, Span};
use deck_words::{BlockForm, Keyword};
use kmc_base::{OutOfMemory, Sequence};
use std::alloc::Global;

/// A word line of a block, with the rows below it.
#[derive(Debug, Drop)]
pub struct Item {
    /// The word line: its keyword and its arguments.
    pub line: Line,
    /// The rows that belong to it, in order.
    pub rows: Sequence<Line>,
}

impl Item {
    /// Its keyword. The bytes are those of the file that it was read from.
    pub fn head<'a>(&self, bytes: &'a [u8]) -> &'a [u8]
        ensures { result.now ≡ head_of (item_at bytes.now self.now).line }
    {
        head(&self.line).bytes(bytes)
    }

    /// The words behind its keyword, as places in the bytes of its file.
    pub fn arguments(&self) -> &[Span]
        ensures runs { (text : List ℕ) → map (run_at text) result.now ≡ arguments_of (line_at text self.now.line) }
        ensures words { (text : List ℕ) → map (bytes_at text) result.now ≡ words_of (item_at text self.now) }
    {
        arguments(&self.line)
    }

    /// The words behind its keyword, as names.
    pub fn names(&self, alloc: Global) -> Result<Vec<Name>, OutOfMemory>
        ensures { IfOk result (λ names. (text : List ℕ) → map (name_at text) names.items ≡ names_on (item_at text self.now)) }
    {
        names_of(alloc, self.arguments(), self.line.number)
    }
}

/// A block of a file.
#[derive(Debug, Drop)]
pub struct Block {
    /// Which block it is, and so which words it has.
    pub form: BlockForm,
    /// The word that opened it. A file that is a block as a whole has none, and an empty place here.
    pub word: Span,
    /// The number of the line of that word, or 0.
    pub line: u32,
    /// The number of the line of its closing word.
    pub end_line: u32,
    /// The argument of the word that opened it, or an empty place.
    pub name: Span,
    /// Its word lines, in order, but for the one that opened it and the closing one.
    pub items: Sequence<Item>,
}

impl Block {
    /// Its first word line with a keyword. The bytes are those of the file that it was read from.
    pub fn item(&self, bytes: &[u8], keyword: Keyword) -> Option<&Item>
        ensures { option_map (λ item. item_at bytes.now item.now) result ≡ find (has_keyword keyword) (block_at bytes.now self.now).items }
    {
        first_item(bytes, keyword, self.items.as_slice())
    }

    /// The words behind a keyword, as places in the bytes of its file; `None` where the keyword is absent.
    pub fn words_behind(&self, bytes: &[u8], keyword: Keyword) -> Option<&[Span]>
        ensures runs { option_map (λ words. map (run_at bytes.now) words.now) result ≡ runs_behind keyword (block_at bytes.now self.now).items }
        ensures words { option_map (λ words. map (bytes_at bytes.now) words.now) result ≡ words_behind keyword (block_at bytes.now self.now).items }
    {
        match self.item(bytes, keyword) {
            Some(item) => Some(item.arguments()),
            None => None,
        }
    }

    /// The members of the list behind a keyword, as places in the bytes of its file; none where the keyword is
    /// absent.
    pub fn list_in(&self, bytes: &[u8], keyword: Keyword) -> &[Span]
        ensures runs { map (run_at bytes.now) result.now ≡ runs_in keyword (block_at bytes.now self.now).items }
        ensures words { map (bytes_at bytes.now) result.now ≡ list_in keyword (block_at bytes.now self.now).items }
    {
        self.words_behind(bytes, keyword).unwrap_or(&[])
    }

    /// The members of the list behind a keyword, as places in the bytes of its file with the number of the line; none
    /// where the keyword is absent.
    pub fn names_in(
        &self,
        alloc: Global,
        bytes: &[u8],
        keyword: Keyword,
    ) -> Result<Vec<Name>, OutOfMemory>
        ensures { IfOk result (λ names. map (name_at bytes.now) names.items ≡ names_in keyword (block_at bytes.now self.now).items) }
    {
        match self.item(bytes, keyword) {
            Some(item) => item.names(alloc),
            None => Ok(Vec::new(alloc)),
        }
    }
}

/// A cluster or a step, with its variants.
#[derive(Debug, Drop)]
pub struct Section {
    /// The cluster or the step.
    pub block: Block,
    /// The blocks of its variants, in order.
    pub variants: Sequence<Block>,
}

/// The blocks and lines of a file without a fault of form.
#[derive(Debug, Drop)]
pub struct Shape {
    /// The block of the file.
    pub block: Block,
    /// Its clusters or steps, in order. Only the energetics and mechanism files have any.
    pub sections: Sequence<Section>,
}
