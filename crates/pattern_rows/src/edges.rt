ghost use Rattle.std.specs.Prelude.{◌≡◌, ◌≤◌, IfOk, IfSome, map};
ghost use Rattle.dec_text.specs.Spans.{bytes_at};
ghost use Rattle.deck_shape.specs.Blocks.{block_at};
ghost use Rattle.deck_words.specs.Faults.{value_map};
ghost use Rattle.pattern_rows.specs.Edges.{connecting, edge_among, edges_in, edges_on, pattern_edge};
ghost use Rattle.pattern_types.specs.Edges.{is_bad_edge};
ghost use Rattle.pattern_types.specs.declared.limits.TheConstants.{MAX_VERTICES};

use crate::lines::word_line;
use dec_text::Span;
use deck_shape::{Block, Keyword};
use deck_values::{edge_of, fault_if, list_on};
use deck_words::kind::{BAD_EDGE, NOT_CONNECTED};
use deck_words::{LineFault, ReadWord, with_fault};
use kmc_base::OutOfMemory;
use pattern_types::{distinct_edges, is_connected};
use std::alloc::Global;

/// A word as an edge between two different vertices of so many, of which there are at most `MAX_VERTICES`.
#[derive(Clone, Copy, Debug, PartialEq, Eq)]
struct EdgeAmong {
    sites: u64,
}

/// An edge that so many vertices cannot have.
fn is_bad_edge(sites: u64, edge: (u64, u64)) -> bool
    ensures { result ≡ is_bad_edge sites edge }
{
    edge.0 == 0 || sites < edge.0 || edge.1 == 0 || sites < edge.1 || edge.0 == edge.1
}

/// An edge between two different vertices of so many.
fn edge_among(sites: u64, edge: Option<(u64, u64)>) -> Result<(u8, u8), u8>
    requires { sites ≤ MAX_VERTICES }
    ensures { result ≡ edge_among sites edge }
{
    match edge {
        Some(edge) if !is_bad_edge(sites, edge) => Ok((edge.0 as u8, edge.1 as u8)),
        _ => Err(BAD_EDGE),
    }
}

impl ReadWord for EdgeAmong {
    type Value = (u8, u8);

    ghost is_usable = { λ edge. edge.sites ≤ MAX_VERTICES };

    ghost value_of = { λ edge. pattern_edge edge.sites };

    fn read(&self, word: &[u8]) -> Result<(u8, u8), u8> {
        edge_among(self.sites, edge_of(word))
    }
}

/// Some edges, each once, where they connect all sites; else the fault of their line.
fn connecting(
    alloc: Global,
    sites: u8,
    line: u32,
    edges: &[(u8, u8)],
) -> Result<Result<Vec<(u8, u8)>, LineFault>, OutOfMemory>
    requires some { 1 ≤ sites }
    requires few { sites ≤ MAX_VERTICES }
    ensures { IfOk result (λ kept. value_map (λ list. list.items) kept ≡ connecting sites line edges.now) }
{
    let distinct = distinct_edges(alloc, edges)?;
    let apart = !is_connected(edges, sites);
    Ok(with_fault(fault_if(apart, line, NOT_CONNECTED), Ok(distinct)))
}

/// The edges on a line, where the number of sites has no fault; else none of them is looked at.
fn edges_on(
    alloc: Global,
    bytes: &[u8],
    sites: Option<u64>,
    line: u32,
    words: &[Span],
) -> Result<Result<Vec<(u8, u8)>, LineFault>, OutOfMemory>
    requires { IfSome sites (λ n. (1 ≤ n) × (n ≤ MAX_VERTICES)) }
    ensures { IfOk result (λ edges. value_map (λ list. list.items) edges ≡ edges_on sites line (map (bytes_at bytes.now) words.now)) }
{
    let Some(sites) = sites else {
        return Ok(Ok(Vec::new(alloc)));
    };
    match list_on(alloc, &EdgeAmong { sites }, None, line, bytes, words)? {
        Ok(edges) => connecting(alloc, sites as u8, line, edges.as_slice()),
        Err(fault) => Ok(Err(fault)),
    }
}

/// The edges of a cluster or a step of so many sites, each once, the lesser vertex first, in rising order; or their fault:
/// `BAD_EDGE`, or `NOT_CONNECTED`. `sites` is `None` where that number has a fault itself: then no edge is looked at.
pub fn edges_in(
    alloc: Global,
    bytes: &[u8],
    block: &Block,
    sites: Option<u64>,
) -> Result<Result<Vec<(u8, u8)>, LineFault>, OutOfMemory>
    requires { IfSome sites (λ n. (1 ≤ n) × (n ≤ MAX_VERTICES)) }
    ensures { IfOk result (λ edges. value_map (λ list. list.items) edges ≡ edges_in sites (block_at bytes.now block.now)) }
{
    match block.item(bytes, Keyword::Neighboring) {
        Some(item) => edges_on(alloc, bytes, sites, item.line.number, item.arguments()),
        None => {
            let line = word_line(bytes, block, Keyword::Sites);
            edges_on(alloc, bytes, sites, line, &[])
        }
    }
}
