ghost use Rattle.std.specs.Prelude.{◌≡◌, IfOk, map};
ghost use Rattle.dec_text.specs.Spans.{line_at};
ghost use Rattle.deck_shape.specs.Blocks.{block_at, item_at};
ghost use Rattle.deck_words.specs.Faults.{value_map};
ghost use Rattle.pattern_rows.specs.States.{state_rows, states_in, states_on};
ghost use Rattle.pattern_rows.specs.Views.{state_at};

use crate::row_form::read_forms;
use crate::rows_above::rows_fault;
use dec_text::Line;
use deck_shape::{Block, Item, Keyword, Name};
use deck_values::{fault_if, has_other_length};
use deck_words::kind::ROW_COUNT;
use deck_words::{LineFault, earliest, with_fault};
use kmc_base::OutOfMemory;
use std::alloc::Global;

/// What a row of a pattern wants of its site.
#[derive(Clone, Copy, Debug, PartialEq, Eq)]
pub enum StateRow {
    /// Any state; it is written `& & &`.
    Any,
    /// A dentate of an adsorbate, or a vacant site.
    Is {
        /// The name of the adsorbate within the pattern, from 1 to 8.
        entity: u8,
        /// Its species, or `*` for a vacant site.
        species: Name,
        /// Which dentate of it, from 1 in a file without faults.
        dentate: u64,
    },
}

/// The rows of some lines, or the earliest of their faults.
fn state_rows(
    alloc: Global,
    bytes: &[u8],
    takes_any: bool,
    lines: &[Line],
) -> Result<Result<Vec<StateRow>, LineFault>, OutOfMemory>
    ensures { IfOk result (λ rows. value_map (λ list. map (state_at bytes.now) list.items) rows
        ≡ state_rows takes_any (map (line_at bytes.now) lines.now)) }
{
    let read = read_forms(alloc, bytes, takes_any, lines)?;
    let fault = rows_fault(alloc, bytes, read.values.as_slice())?;
    Ok(with_fault(earliest(read.fault, fault), Ok(read.values)))
}

/// The rows below a word, one for each site.
fn states_on(
    alloc: Global,
    bytes: &[u8],
    takes_any: bool,
    sites: Option<u64>,
    item: &Item,
) -> Result<Result<Vec<StateRow>, LineFault>, OutOfMemory>
    ensures { IfOk result (λ rows. value_map (λ list. map (state_at bytes.now) list.items) rows
        ≡ states_on takes_any sites (item_at bytes.now item.now)) }
{
    let lines = item.rows.as_slice();
    let rows = state_rows(alloc, bytes, takes_any, lines)?;
    let other_count = has_other_length(sites, lines.len());
    Ok(with_fault(fault_if(other_count, item.line.number, ROW_COUNT), rows))
}

/// The rows of states that a cluster or a step has below a keyword, one for each site, or the earliest of their faults:
/// `MISSING_WORD`, `ROW_COUNT`, `ROW_FORM`, `DOUBLE_DENTATE` or `TWO_SPECIES`. Rows for any state are of the right form only if
/// `takes_any`. `sites` is `None` where that number has a fault itself.
pub fn states_in(
    alloc: Global,
    bytes: &[u8],
    block: &Block,
    keyword: Keyword,
    sites: Option<u64>,
    takes_any: bool,
) -> Result<Result<Vec<StateRow>, LineFault>, OutOfMemory>
    ensures { IfOk result (λ rows. value_map (λ list. map (state_at bytes.now) list.items) rows
        ≡ states_in takes_any sites keyword (block_at bytes.now block.now)) }
{
    match block.item(bytes, keyword) {
        Some(item) => states_on(alloc, bytes, takes_any, sites, item),
        None => Ok(Err(block.missing_word())),
    }
}
