ghost use Rattle.std.specs.Prelude.{◌≡◌, ◌≤◌, IfOk};
ghost use Rattle.deck_shape.specs.Blocks.{block_at};
ghost use Rattle.pattern_rows.specs.Sites.{sites_in};
ghost use Rattle.pattern_types.specs.declared.limits.TheConstants.{MAX_VERTICES};

use crate::ranges::VERTEX_COUNT;
use deck_shape::{Block, Keyword};
use deck_words::LineFault;

/// The number of sites of a cluster or a step, from 1 to 8. The bytes are those of the file that the block was read from.
pub fn sites_in(bytes: &[u8], block: &Block) -> Result<u64, LineFault>
    ensures value { result ≡ sites_in (block_at bytes.now block.now) }
    ensures range { IfOk result (λ sites. (1 ≤ sites) × (sites ≤ MAX_VERTICES)) }
{
    let absent = Err(block.missing_word());
    block.value_or(bytes, Keyword::Sites, &VERTEX_COUNT, absent)
}
