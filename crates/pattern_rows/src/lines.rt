ghost use Rattle.std.specs.Prelude.{◌≡◌};
ghost use Rattle.deck_shape.specs.Blocks.{block_at};
ghost use Rattle.pattern_rows.specs.WordLine.{word_line};

use deck_shape::{Block, Keyword};

/// The line of a word of a block itself, or 0 where it has none.
pub fn word_line(bytes: &[u8], block: &Block, keyword: Keyword) -> u32
    ensures { result ≡ word_line keyword (block_at bytes.now block.now) }
{
    match block.item(bytes, keyword) {
        Some(item) => item.line.number,
        None => 0,
    }
}
