ghost use Rattle.std.specs.Prelude.{◌≡◌, ◌||◌, ◌++◌, ◌∷◌, [], ℕ, List, IfOk, OnOk, map};
ghost use Rattle.std.specs.List.{list_any};
ghost use Rattle.std.specs.List.Sorted.{IsStrictlyIncreasing};
ghost use Rattle.lattice_core.specs.SiteList.{is_listed};
ghost use Rattle.site_rows.specs.ReadRows.{row_at};
ghost use Rattle.site_rows.specs.RowLookup.{IsIndexOf, Keeps};
ghost use Rattle.site_rows.specs.SiteNumbers.{is_no_site};
ghost use Rattle.site_rows.specs.SiteRows.{SiteRow};

use crate::row::ReadRow;
use crate::site_number::is_no_site;
use kmc_base::OutOfMemory;
use std::alloc::Global;
use std::collections::BTreeMap;

/// What is kept of a row for the rows of other sites.
#[derive(Debug, Drop)]
pub(crate) struct RowNeighbours {
    /// The row names what is no site.
    pub(crate) has_bad_site: bool,
    /// Its neighbours, rising, each once.
    pub(crate) neighbours: Vec<u64>,
}

/// Puts numbers into rising order, each once.
pub(crate) fn sort_and_dedup(numbers: &mut Vec<u64>)
    ensures rising { IsStrictlyIncreasing numbers.new.items }
    ensures same { (n : ℕ) → is_listed numbers.new.items n ≡ is_listed numbers.old.items n }
{
    numbers.sort_unstable();
    numbers.dedup();
}

/// Some number is that of no site.
fn names_no_site(sites: Option<u64>, numbers: &[u64]) -> bool
    ensures { result ≡ list_any (is_no_site sites) numbers.now }
{
    numbers.iter().any(|n| is_no_site(sites, *n))
}

/// A row with this site and these neighbours names what is no site.
pub(crate) fn has_bad_site(sites: Option<u64>, site: u64, neighbours: &[u64]) -> bool
    ensures { result ≡ (is_no_site sites site || list_any (is_no_site sites) neighbours.now) }
{
    is_no_site(sites, site) || names_no_site(sites, neighbours)
}

/// What is kept of a row.
fn kept_of(alloc: Global, sites: Option<u64>, row: &ReadRow) -> Result<RowNeighbours, OutOfMemory>
    ensures { IfOk result (λ kept. (text : List ℕ) → Keeps sites kept (row_at text row.now)) }
{
    let has_bad_site = has_bad_site(sites, row.site, row.neighbours.as_slice());
    let mut neighbours = row.neighbours.as_slice().to_vec(alloc)?;
    sort_and_dedup(&mut neighbours);
    Ok(RowNeighbours {
        has_bad_site,
        neighbours,
    })
}

/// Keeps a row, where it is the first of its site.
fn keep_first(
    alloc: Global,
    index: &mut BTreeMap<u64, RowNeighbours>,
    sites: Option<u64>,
    row: &ReadRow,
) -> Result<(), OutOfMemory>
    ensures { OnOk result ((text : List ℕ) (rows : List SiteRow) → IsIndexOf sites rows index.old
        → IsIndexOf sites (rows ++ row_at text row.now ∷ []) index.new) }
{
    if !index.contains_key(&row.site) {
        index.insert(row.site, kept_of(alloc, sites, row)?)?;
    }
    Ok(())
}

/// The first row of each site.
pub(crate) fn index_rows(
    alloc: Global,
    sites: Option<u64>,
    rows: &[ReadRow],
) -> Result<BTreeMap<u64, RowNeighbours>, OutOfMemory>
    ensures { IfOk result (λ index. (text : List ℕ) → IsIndexOf sites (map (row_at text) rows.now) index) }
{
    let mut index = BTreeMap::new(alloc);
    for row in rows {
        keep_first(alloc, &mut index, sites, row)?;
    }
    Ok(index)
}
