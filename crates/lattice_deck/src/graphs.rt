//! The lattices that the values of a file give. Values without a fault give lattices without one, so that all that can be
//! missing is memory.

ghost use Rattle.std.specs.Prelude.{◌≡◌, ◌*◌, ◌≤◌, IfErr, IfOk, None, Ok, Some, length, map};
ghost use Rattle.dec_text.specs.Spans.{bytes_at};
ghost use Rattle.lattice_cell.specs.Default.{default_lattice};
ghost use Rattle.lattice_cell.specs.Faultless.{IsFaultlessCell};
ghost use Rattle.lattice_cell.specs.Periodic.{periodic_lattice};
ghost use Rattle.lattice_deck.specs.Ends.{AreEnds};
ghost use Rattle.lattice_deck.specs.Joins.{join_from};
ghost use Rattle.lattice_deck.specs.Sizes.{AreRepeats, AreWide};
ghost use Rattle.site_rows.specs.Listed.{listed_lattice};
ghost use Rattle.site_rows.specs.ReadRows.{row_at};
ghost use Rattle.site_rows.specs.RowFaults.{rows_fault};
ghost use Rattle.site_rows.specs.TypeWords.{type_of};
ghost use Rattle.site_rows.specs.declared.type_word.TheConstants.{MAX_SITE_TYPES};
ghost use Rattle.kmc_base.specs.declared.limits.TheConstants.{MAX_SITES};

use crate::joins::{JoinRow, joins_from};
use deck_shape::Name;
use kmc_base::OutOfMemory;
use lattice_cell::{DefaultLattice, expand_default, expand_periodic};
use lattice_core::{Graph, GraphFault};
use site_rows::{ReadRow, TypeIndex};
use std::alloc::Global;

/// A lattice, or else out of memory, which is the only error that it can be.
fn or_out_of_memory(graph: Result<Graph, GraphFault>) -> Result<Graph, OutOfMemory>
    requires { IfErr graph (λ e. e ≡ GraphFault.OutOfMemory) }
    ensures { IfOk result (λ g. graph ≡ Ok g) }
{
    match graph {
        Ok(graph) => Ok(graph),
        Err(GraphFault::OutOfMemory) => Err(OutOfMemory),
        Err(_) => unreachable!(),
    }
}

/// A default lattice of so many repeats, at least two in each direction.
pub(crate) fn default_graph(
    alloc: Global,
    named: DefaultLattice,
    repeats: (u64, u64),
) -> Result<Graph, OutOfMemory>
    requires wide { AreWide repeats }
    requires few { repeats.0 * repeats.1 ≤ MAX_SITES }
    ensures { IfOk result (λ g. g ≡ default_lattice named repeats.0 repeats.1) }
{
    let graph = expand_default(alloc, named, repeats.0 as u32, repeats.1 as u32);
    or_out_of_memory(graph)
}

/// The types of type words.
fn types_of(
    alloc: Global,
    bytes: &[u8],
    index: &TypeIndex,
    words: &[Name],
) -> Result<Vec<u16>, OutOfMemory>
    requires { length index.now ≤ MAX_SITE_TYPES }
    ensures { IfOk result (λ types. types.items ≡ map (λ word. type_of index.now (bytes_at bytes.now word.span)) words.now) }
{
    let mut types = Vec::new(alloc);
    for word in words {
        types.push(index.type_of(word.span.bytes(bytes)) as u16)?;
    }
    Ok(types)
}

/// The lattice of a periodic cell, by its repeats, the names of types, a type word for each of its sites, and the rows
/// that join them: none joins a site to itself, and no site is crowded.
pub(crate) fn cell_graph(
    alloc: Global,
    bytes: &[u8],
    repeats: (u64, u64),
    names: &[Vec<u8>],
    words: &[Name],
    rows: &[JoinRow],
) -> Result<Graph, OutOfMemory>
    requires some { AreRepeats repeats }
    requires some_sites { 1 ≤ length words.now }
    requires few { repeats.0 * repeats.1 * length words.now ≤ MAX_SITES }
    requires names { length names.now ≤ MAX_SITE_TYPES }
    requires ends { AreEnds (Some (length words.now)) rows.now }
    requires faultless { IsFaultlessCell repeats.0 repeats.1 (length words.now) (map join_from rows.now) }
    ensures { IfOk result (λ g. g ≡ periodic_lattice repeats.0 repeats.1
        (map (λ word. type_of (map (λ name. name.items) names.now) (bytes_at bytes.now word.span)) words.now) (map join_from rows.now)) }
{
    let index = TypeIndex::new(alloc, names)?;
    let types = types_of(alloc, bytes, &index, words)?;
    let joins = joins_from(alloc, words.len() as u64, rows)?;
    let graph = expand_periodic(alloc, repeats.0 as u32, repeats.1 as u32, &types, &joins);
    or_out_of_memory(graph)
}

/// The lattice of an explicit list of sites, which has a row for each.
pub(crate) fn listed_graph(
    alloc: Global,
    bytes: &[u8],
    sites: u64,
    names: &[Vec<u8>],
    rows: &[ReadRow],
) -> Result<Graph, OutOfMemory>
    requires some { 1 ≤ sites }
    requires few { sites ≤ MAX_SITES }
    requires names { length names.now ≤ MAX_SITE_TYPES }
    requires full { length rows.now ≡ sites }
    requires faultless { rows_fault (Some sites) (map (row_at bytes.now) rows.now) ≡ None }
    ensures { IfOk result (λ g. g ≡ listed_lattice sites (map (λ name. name.items) names.now) (map (row_at bytes.now) rows.now)) }
{
    let index = TypeIndex::new(alloc, names)?;
    site_rows::graph_of(alloc, bytes, sites as u32, &index, rows)
}
