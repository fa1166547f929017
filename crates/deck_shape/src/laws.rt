//! Laws of the definitions that the contract of the reader cites. The functions do nothing: their contracts are the laws.

ghost use Rattle.std.specs.Prelude.{◌≡◌, ℕ, List, Some};
ghost use Rattle.dec_text.specs.Lines.{WordLine};
ghost use Rattle.deck_shape.specs.Blocks.{OfEachBlock, file_at};
ghost use Rattle.deck_shape.specs.OpenBlocks.{NoneCloses, block_below, innermost, open_blocks};
ghost use Rattle.deck_shape.specs.Reading.{nothing_read, read_after};
ghost use Rattle.deck_shape.specs.Shapes.{IsShapeOf};
ghost use Rattle.deck_shape.specs.WholeBlocks.{HasOnceWords};
ghost use Rattle.deck_shape.specs.declared.shape.Shape.{Shape};
ghost use Rattle.deck_words.specs.declared.table.BlockForm.{BlockForm};
ghost use Rattle.kmc_base.specs.declared.ids.FileId.{FileId};

/// The block of a line, by which its word is read, is the innermost one that was opened above it and not closed above
/// it.
pub fn block_of_line_is_innermost()
    ensures { (form : BlockForm) (above : List WordLine) → NoneCloses (nothing_read form) above
        → innermost (open_blocks form above) ≡ Some (block_below (read_after (nothing_read form) above)) }
{}

/// In each block of a shape no word is twice that the block may have once.
pub fn once_words_are_once()
    ensures { (file : FileId) (text : List ℕ) (shape : Shape) → IsShapeOf file text shape → OfEachBlock HasOnceWords (file_at text shape) }
{}
