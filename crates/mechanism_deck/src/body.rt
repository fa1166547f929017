//! What all variants of a step have in common.

ghost use Rattle.std.specs.Prelude.{◌≡◌, ◌≤◌, ℕ, IfOk, List, map};
ghost use Rattle.deck_shape.specs.Blocks.{block_at};
ghost use Rattle.deck_words.specs.Faults.{value_map};
ghost use Rattle.mechanism_deck.specs.Steps.{body_in, body_of, is_reversible};
ghost use Rattle.mechanism_deck.specs.Views.{body_at, change_at};
ghost use Rattle.pattern_rows.specs.Sites.{sites_in};
ghost use Rattle.pattern_rows.specs.Views.{state_at};
ghost use Rattle.pattern_types.specs.declared.limits.TheConstants.{MAX_VERTICES};

use crate::changes::gas_in;
use deck_shape::{Block, Keyword, Name};
use deck_words::{BlockForm, LineFault, both};
use kmc_base::OutOfMemory;
use pattern_rows::{StateRow, edges_in, states_in, word_line};
use std::alloc::Global;

/// What all variants of a step have in common.
#[derive(Debug, Drop)]
pub(crate) struct Body {
    pub(crate) name: Name,
    pub(crate) reversible: bool,
    pub(crate) gas: Vec<(Name, i8)>,
    pub(crate) sites: u8,
    pub(crate) edges: Vec<(u8, u8)>,
    pub(crate) before: Vec<StateRow>,
    pub(crate) after: Vec<StateRow>,
    pub(crate) initial_line: u32,
    pub(crate) final_line: u32,
}

/// Blocks of a form are steps in both directions.
pub(crate) fn is_reversible(form: BlockForm) -> bool
    ensures { result ≡ is_reversible form }
{
    matches!(form, BlockForm::ReversibleStep)
}

/// The body of a block that has these values.
fn body_of(
    bytes: &[u8],
    block: &Block,
    gas: Result<Vec<(Name, i8)>, LineFault>,
    sites: Result<u64, LineFault>,
    edges: Result<Vec<(u8, u8)>, LineFault>,
    before: Result<Vec<StateRow>, LineFault>,
    after: Result<Vec<StateRow>, LineFault>,
) -> Result<Body, LineFault>
    requires { IfOk sites (λ n. n ≤ MAX_VERTICES) }
    ensures { value_map (body_at bytes.now) result
        ≡ body_of (block_at bytes.now block.now) (value_map (λ list. map (change_at bytes.now) list.items) gas) sites
        (value_map (λ list. list.items) edges) (value_map (λ list. map (state_at bytes.now) list.items) before)
        (value_map (λ list. map (state_at bytes.now) list.items) after) }
{
    let sides = both(edges, both(before, after));
    match both(gas, both(sites, sides)) {
        Ok((gas, (sites, (edges, (before, after))))) => Ok(Body {
            name: Name {
                span: block.name,
                line: block.line,
            },
            reversible: is_reversible(block.form),
            gas,
            sites: sites as u8,
            edges,
            before,
            after,
            initial_line: word_line(bytes, block, Keyword::Initial),
            final_line: word_line(bytes, block, Keyword::Final),
        }),
        Err(fault) => Err(fault),
    }
}

/// The body of a step, whose number of sites is known or has a fault.
pub(crate) fn body_in(
    alloc: Global,
    bytes: &[u8],
    block: &Block,
    sites: Result<u64, LineFault>,
) -> Result<Result<Body, LineFault>, OutOfMemory>
    requires stated { sites ≡ sites_in (block_at bytes.now block.now) }
    requires range { IfOk sites (λ n. (1 ≤ n) × (n ≤ MAX_VERTICES)) }
    ensures { IfOk result (λ body. value_map (body_at bytes.now) body ≡ body_in (block_at bytes.now block.now)) }
{
    let gas = gas_in(alloc, bytes, block)?;
    let edges = edges_in(alloc, bytes, block, sites.ok())?;
    let before = states_in(alloc, bytes, block, Keyword::Initial, sites.ok(), false)?;
    let after = states_in(alloc, bytes, block, Keyword::Final, sites.ok(), false)?;
    Ok(body_of(bytes, block, gas, sites, edges, before, after))
}
