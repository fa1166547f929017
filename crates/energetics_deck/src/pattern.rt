ghost use Rattle.std.specs.Prelude.{◌≡◌, ◌≤◌, ℕ, IfOk, List, map};
ghost use Rattle.deck_shape.specs.Blocks.{block_at};
ghost use Rattle.deck_words.specs.Faults.{both, value_map};
ghost use Rattle.energetics_deck.specs.Clusters.{pattern_in, pattern_of};
ghost use Rattle.energetics_deck.specs.Views.{pattern_at};
ghost use Rattle.pattern_rows.specs.Sites.{sites_in};
ghost use Rattle.pattern_rows.specs.Views.{state_at};
ghost use Rattle.pattern_types.specs.declared.limits.TheConstants.{MAX_VERTICES};

use deck_shape::{Block, Keyword};
use deck_words::{LineFault, both};
use kmc_base::OutOfMemory;
use pattern_rows::{StateRow, edges_in, states_in};
use std::alloc::Global;

/// What all variants of a cluster have in common: the number of its sites, their edges, and what each row of states wants.
#[derive(Debug, Drop)]
pub(crate) struct Pattern {
    pub(crate) sites: u8,
    pub(crate) edges: Vec<(u8, u8)>,
    pub(crate) rows: Vec<StateRow>,
}

/// The pattern of so many sites, these edges and these rows.
fn pattern_of(
    sites: Result<u64, LineFault>,
    edges: Result<Vec<(u8, u8)>, LineFault>,
    rows: Result<Vec<StateRow>, LineFault>,
) -> Result<Pattern, LineFault>
    requires { IfOk sites (λ n. n ≤ MAX_VERTICES) }
    ensures { (text : List ℕ) → value_map (pattern_at text) result
        ≡ pattern_of sites (value_map (λ list. list.items) edges) (value_map (λ list. map (state_at text) list.items) rows) }
{
    let (sites, (edges, rows)) = both(sites, both(edges, rows))?;
    Ok(Pattern {
        sites: sites as u8,
        edges,
        rows,
    })
}

/// The pattern of a cluster, whose number of sites is known or has a fault.
pub(crate) fn pattern_in(
    alloc: Global,
    bytes: &[u8],
    block: &Block,
    sites: Result<u64, LineFault>,
) -> Result<Result<Pattern, LineFault>, OutOfMemory>
    requires stated { sites ≡ sites_in (block_at bytes.now block.now) }
    requires range { IfOk sites (λ n. (1 ≤ n) × (n ≤ MAX_VERTICES)) }
    ensures { IfOk result (λ pattern. value_map (pattern_at bytes.now) pattern ≡ pattern_in (block_at bytes.now block.now)) }
{
    let edges = edges_in(alloc, bytes, block, sites.ok())?;
    let rows = states_in(alloc, bytes, block, Keyword::LatticeState, sites.ok(), true)?;
    Ok(pattern_of(sites, edges, rows))
}
