ghost use Rattle.std.specs.Prelude.{◌≡◌, ◌∷◌, [], ℕ, IfOk, List, None, Option, is_some, length, map, nat_lt};
ghost use Rattle.std.specs.List.{list_any};
ghost use Rattle.std.specs.List.Sorted.{IsStrictlyIncreasing};
ghost use Rattle.dec_text.specs.Spans.{line_at};
ghost use Rattle.deck_words.specs.Faults.{value_map};
ghost use Rattle.lattice_core.specs.SiteList.{is_listed};
ghost use Rattle.site_rows.specs.ReadRows.{row_at};
ghost use Rattle.site_rows.specs.RowFaults.{each_once, is_one_sided, row_fault, rows_fault, site_rows};
ghost use Rattle.site_rows.specs.RowLookup.{IsIndexOf};
ghost use Rattle.site_rows.specs.SiteRows.{SiteRow, row_for};

use crate::index::{RowNeighbours, has_bad_site, index_rows, sort_and_dedup};
use crate::row::{ReadRow, read_forms};
use dec_text::Line;
use deck_values::fault_if;
use deck_words::kind::{
    BAD_SITE, ONE_SIDED, OUT_OF_RANGE, REPEATED_SITE, SELF_NEIGHBOUR, TOO_MANY_NEIGHBOURS,
};
use deck_words::{LineFault, earliest, with_fault};
use kmc_base::OutOfMemory;
use lattice_core::MAX_NEIGHBOURS;
use std::alloc::Global;
use std::collections::{BTreeMap, BTreeSet};

/// Whether numbers that rise have a number.
fn has_number(numbers: &[u64], n: u64) -> bool
    ensures { IsStrictlyIncreasing numbers.now → result ≡ is_listed numbers.now n }
{
    numbers.binary_search(&n).is_ok()
}

/// How many different numbers there are.
fn count_different(mut numbers: Vec<u64>) -> usize
    ensures { result ≡ length (each_once numbers.items) }
{
    sort_and_dedup(&mut numbers);
    numbers.len()
}

/// A neighbour is one-sided: it has a row, which names only sites, and not this site.
fn is_one_sided(index: &BTreeMap<u64, RowNeighbours>, site: u64, neighbour: u64) -> bool
    ensures { (sites : Option ℕ) (all : List SiteRow) → IsIndexOf sites all index.now
        → result ≡ is_one_sided sites all site neighbour }
{
    match index.get(&neighbour) {
        Some(row) => !row.has_bad_site && !has_number(row.neighbours.as_slice(), site),
        None => false,
    }
}

/// Some neighbour of a site is one-sided.
fn any_one_sided(index: &BTreeMap<u64, RowNeighbours>, site: u64, neighbours: &[u64]) -> bool
    ensures { (sites : Option ℕ) (all : List SiteRow) → IsIndexOf sites all index.now
        → result ≡ list_any (is_one_sided sites all site) neighbours.now }
{
    for neighbour in neighbours {
        if is_one_sided(index, site, *neighbour) {
            return true;
        }
    }
    false
}

/// The fault of a row, by whether a row above has its site and by the first row of each site.
fn row_fault(
    alloc: Global,
    sites: Option<u64>,
    is_repeated: bool,
    index: &BTreeMap<u64, RowNeighbours>,
    row: &ReadRow,
) -> Result<Option<LineFault>, OutOfMemory>
    ensures { IfOk result (λ fault. (text : List ℕ) (above all : List SiteRow) → IsIndexOf sites all index.now
        → is_repeated ≡ is_some (row_for row.now.site above)
        → fault ≡ row_fault sites above all (row_at text row.now)) }
{
    let line = row.line;
    let neighbours = row.neighbours.as_slice();
    let different = count_different(neighbours.to_vec(alloc)?);
    let one_sided = fault_if(any_one_sided(index, row.site, neighbours), line, ONE_SIDED);
    let too_many = fault_if(different > MAX_NEIGHBOURS, line, TOO_MANY_NEIGHBOURS);
    let own = fault_if(neighbours.contains(&row.site), line, SELF_NEIGHBOUR);
    let bad = fault_if(has_bad_site(sites, row.site, neighbours), line, BAD_SITE);
    let repeated = fault_if(is_repeated, line, REPEATED_SITE);
    let past = fault_if(row.is_out_of_range, line, OUT_OF_RANGE);
    let neighbours_fault = earliest(own, earliest(too_many, earliest(one_sided, None)));
    Ok(earliest(past, earliest(repeated, earliest(bad, neighbours_fault))))
}

/// The earliest fault of rows of the right form.
fn rows_fault(
    alloc: Global,
    sites: Option<u64>,
    rows: &[ReadRow],
) -> Result<Option<LineFault>, OutOfMemory>
    ensures { IfOk result (λ fault. (text : List ℕ) → fault ≡ rows_fault sites (map (row_at text) rows.now)) }
{
    let index = index_rows(alloc, sites, rows)?;
    let mut above = BTreeSet::new(alloc);
    let mut fault = None;
    for row in rows {
        let is_first = above.insert(row.site)?;
        fault = earliest(fault, row_fault(alloc, sites, !is_first, &index, row)?);
    }
    Ok(fault)
}

/// The rows of `lattice_structure`, which are these lines, or the earliest of their faults.
///
/// `sites` is the number of sites that the file states; where it is None, no number is that of no site.
pub fn read_rows(
    alloc: Global,
    bytes: &[u8],
    sites: Option<u64>,
    lines: &[Line],
) -> Result<Result<Vec<ReadRow>, LineFault>, OutOfMemory>
    ensures rows { IfOk result (λ rows. value_map (λ found. map (row_at bytes.now) found.items) rows ≡ site_rows sites (map (line_at bytes.now)
        lines.now)) }
    ensures sound { IfOk result (λ rows. IfOk rows (λ found. rows_fault sites (map (row_at bytes.now) found.items) ≡ None)) }
{
    let read = read_forms(alloc, bytes, lines)?;
    let fault = rows_fault(alloc, sites, read.values.as_slice())?;
    Ok(with_fault(earliest(read.fault, fault), Ok(read.values)))
}
