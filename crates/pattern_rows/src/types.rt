ghost use Rattle.std.specs.Prelude.{◌≡◌, ℕ, List, IfOk, map};
ghost use Rattle.deck_shape.specs.Blocks.{block_at, item_at};
ghost use Rattle.deck_shape.specs.Names.{name_at};
ghost use Rattle.deck_words.specs.Faults.{value_map};
ghost use Rattle.pattern_rows.specs.Types.{types_on, types_or};

use deck_shape::{Block, Item, Keyword, Name};
use deck_values::has_other_length;
use deck_words::LineFault;
use deck_words::kind::LIST_LENGTH;
use kmc_base::OutOfMemory;
use std::alloc::Global;

/// The type words on a line, one for each site, where the number of sites has no fault; else none of them is looked at.
fn types_on(
    alloc: Global,
    sites: Option<u64>,
    item: &Item,
) -> Result<Result<Vec<Name>, LineFault>, OutOfMemory>
    ensures { IfOk result (λ types. (text : List ℕ) → value_map (λ list. map (name_at text) list.items) types
        ≡ types_on sites (item_at text item.now)) }
{
    if sites.is_none() {
        return Ok(Ok(Vec::new(alloc)));
    }
    if has_other_length(sites, item.arguments().len()) {
        return Ok(Err(LineFault {
            line: item.line.number,
            kind: LIST_LENGTH,
        }));
    }
    Ok(Ok(item.names(alloc)?))
}

/// The type words of a block, one for each site, or others where it states none. `sites` is `None` where that number has a
/// fault itself: then none of the words is looked at.
pub fn types_or(
    alloc: Global,
    bytes: &[u8],
    block: &Block,
    sites: Option<u64>,
    absent: Result<Vec<Name>, LineFault>,
) -> Result<Result<Vec<Name>, LineFault>, OutOfMemory>
    ensures { IfOk result (λ types. value_map (λ list. map (name_at bytes.now) list.items) types
        ≡ types_or (value_map (λ list. map (name_at bytes.now) list.items) absent) sites (block_at bytes.now block.now)) }
{
    match block.item(bytes, Keyword::SiteTypes) {
        Some(item) => types_on(alloc, sites, item),
        None => Ok(absent),
    }
}
