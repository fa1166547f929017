ghost use Rattle.std.specs.Prelude.{◌≡◌, ◌-◌, ◌≤◌, [], All, IfOk, None, OnOk, Some, length, map, replicate, slice_set, vec_len};
ghost use Rattle.std.specs.List.{range_with_len};
ghost use Rattle.dec_text.specs.Spans.{bytes_at};
ghost use Rattle.lattice_core.specs.SiteList.{number_lists, site_numbers};
ghost use Rattle.site_rows.specs.Listed.{listed_lattice, listed_neighbours, type_at};
ghost use Rattle.site_rows.specs.Placing.{AreNeighbours, AreTypes, IsSite, NamesSites};
ghost use Rattle.site_rows.specs.ReadRows.{row_at};
ghost use Rattle.site_rows.specs.RowFaults.{rows_fault};
ghost use Rattle.site_rows.specs.TypeWords.{type_of};
ghost use Rattle.site_rows.specs.declared.type_word.TheConstants.{MAX_SITE_TYPES};

use crate::row::ReadRow;
use crate::type_index::TypeIndex;
use kmc_base::{MAX_SITES, OutOfMemory, SiteId};
use lattice_core::Graph;
use std::alloc::Global;

/// Sites from their numbers, which are from 1.
fn site_ids(alloc: Global, numbers: &[u64]) -> Result<Vec<SiteId>, OutOfMemory>
    requires { All (IsSite MAX_SITES) numbers.now }
    ensures { IfOk result (λ ids. site_numbers ids.items ≡ map (λ n. n - 1) numbers.now) }
{
    let mut ids = Vec::new(alloc);
    for n in numbers {
        ids.push(SiteId((*n - 1) as u32))?;
    }
    Ok(ids)
}

/// An empty list for each site.
fn empty_lists(alloc: Global, sites: u32) -> Result<Vec<Vec<SiteId>>, OutOfMemory>
    ensures { IfOk result (λ lists. number_lists lists.items ≡ replicate sites []) }
{
    let mut lists = Vec::new(alloc);
    for _site in 0..sites {
        lists.push(Vec::new(alloc))?;
    }
    Ok(lists)
}

/// Puts the type and the neighbours of a row at its site.
fn place_row(
    alloc: Global,
    bytes: &[u8],
    index: &TypeIndex,
    types: &mut [u16],
    lists: &mut [Vec<SiteId>],
    row: &ReadRow,
) -> Result<(), OutOfMemory>
    requires few_types { length index.now ≤ MAX_SITE_TYPES }
    requires same_length { length lists.old ≡ length types.old }
    requires within_limit { length types.old ≤ MAX_SITES }
    requires sites { NamesSites (length types.old) (row_at bytes.now row.now) }
    ensures types { OnOk result (types.new ≡ slice_set types.old (row.now.site - 1) (type_of index.now (bytes_at bytes.now row.now.type_word))) }
    ensures lists { OnOk result (number_lists lists.new ≡ slice_set (number_lists lists.old) (row.now.site - 1) (map (λ n. n - 1)
        row.now.neighbours.items)) }
{
    let place = (row.site - 1) as usize;
    types[place] = index.type_of(row.type_word.bytes(bytes)) as u16;
    lists[place] = site_ids(alloc, row.neighbours.as_slice())?;
    Ok(())
}

/// Puts what rows without a fault have at their sites.
fn place_rows(
    alloc: Global,
    bytes: &[u8],
    index: &TypeIndex,
    types: &mut [u16],
    lists: &mut [Vec<SiteId>],
    rows: &[ReadRow],
) -> Result<(), OutOfMemory>
    requires few_types { length index.now ≤ MAX_SITE_TYPES }
    requires same_length { length lists.old ≡ length types.old }
    requires within_limit { length types.old ≤ MAX_SITES }
    requires faultless { rows_fault (Some (length types.old)) (map (row_at bytes.now) rows.now) ≡ None }
    ensures types { OnOk result (AreTypes index.now [] types.old → AreTypes index.now (map (row_at bytes.now) rows.now) types.new) }
    ensures lists { OnOk result (AreNeighbours [] lists.old → AreNeighbours (map (row_at bytes.now) rows.now) lists.new) }
{
    for row in rows {
        place_row(alloc, bytes, index, types, lists, row)?;
    }
    Ok(())
}

/// The types and the neighbours of all sites, by rows without a fault.
fn site_lists(
    alloc: Global,
    bytes: &[u8],
    sites: u32,
    index: &TypeIndex,
    rows: &[ReadRow],
) -> Result<(Vec<u16>, Vec<Vec<SiteId>>), OutOfMemory>
    requires within_limit { sites ≤ MAX_SITES }
    requires few_types { length index.now ≤ MAX_SITE_TYPES }
    requires faultless { rows_fault (Some sites) (map (row_at bytes.now) rows.now) ≡ None }
    ensures types { IfOk result (λ made. made.0.items ≡ map (type_at index.now (map (row_at bytes.now) rows.now)) (range_with_len 0 sites)) }
    ensures lists { IfOk result (λ made. number_lists made.1.items ≡ listed_neighbours sites (map (row_at bytes.now) rows.now)) }
    ensures type_count { IfOk result (λ made. vec_len made.0 ≡ sites) }
    ensures list_count { IfOk result (λ made. vec_len made.1 ≡ sites) }
{
    let mut types = vec![in alloc; 0u16; sites as usize]?;
    let mut lists = empty_lists(alloc, sites)?;
    place_rows(
        alloc,
        bytes,
        index,
        types.as_mut_slice(),
        lists.as_mut_slice(),
        rows,
    )?;
    Ok((types, lists))
}

/// The lattice of rows that have no fault, one for each site from 1 to `sites`. Such rows give a lattice without a fault,
/// so that all that can be missing is memory.
///
/// The rows may be in any order; the graph numbers its sites from 0. The type words are looked up in the index of the site
/// types, of which there are at most 1,000; a site whose type word is no type has type 0.
pub fn graph_of(
    alloc: Global,
    bytes: &[u8],
    sites: u32,
    index: &TypeIndex,
    rows: &[ReadRow],
) -> Result<Graph, OutOfMemory>
    requires has_a_site { 1 ≤ sites }
    requires within_limit { sites ≤ MAX_SITES }
    requires few_types { length index.now ≤ MAX_SITE_TYPES }
    requires full { length rows.now ≡ sites }
    requires faultless { rows_fault (Some sites) (map (row_at bytes.now) rows.now) ≡ None }
    ensures { IfOk result (λ g. g ≡ listed_lattice sites index.now (map (row_at bytes.now) rows.now)) }
{
    let (types, lists) = site_lists(alloc, bytes, sites, index, rows)?;
    match Graph::new(types, lists) {
        Ok(graph) => Ok(graph),
        Err(_) => unreachable!(),
    }
}
