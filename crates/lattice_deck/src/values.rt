ghost use Rattle.std.specs.Prelude.{◌≡◌, ◌*◌, ◌≤◌, ℕ, List, IfOk, None, Some, length, map};
ghost use Rattle.std.specs.Result.{result_ok};
ghost use Rattle.dec_text.specs.Spans.{line_at};
ghost use Rattle.deck_shape.specs.Blocks.{block_at, item_at};
ghost use Rattle.deck_shape.specs.Names.{name_at, on_line};
ghost use Rattle.deck_words.specs.Faults.{value_map};
ghost use Rattle.kmc_base.specs.declared.limits.TheConstants.{MAX_SITES};
ghost use Rattle.lattice_cell.specs.Faultless.{IsFaultlessCell};
ghost use Rattle.lattice_deck.specs.Ends.{AreEnds};
ghost use Rattle.lattice_deck.specs.Joins.{join_from};
ghost use Rattle.lattice_deck.specs.Parts.{cell_part, cell_unused, cell_values, default_part, default_values, listed_on, listed_part, listed_rows, listed_unused, part_for, sites_in, values_at};
ghost use Rattle.lattice_deck.specs.Sizes.{AreRepeats, AreWide, default_on};
ghost use Rattle.site_rows.specs.ReadRows.{row_at};
ghost use Rattle.site_rows.specs.RowFaults.{rows_fault};
ghost use Rattle.site_rows.specs.declared.type_word.TheConstants.{MAX_SITE_TYPES};

use crate::coordinates::coordinates_in;
use crate::graphs::{cell_graph, default_graph, listed_graph};
use crate::joins::{JoinRow, cell_joins};
use crate::names::{type_names, type_words};
use crate::part::LatticePart;
use crate::ranges::SITE_COUNT;
use crate::sizes::{Sizes, cell_repeats, default_on};
use deck_shape::{Block, BlockForm, Item, Keyword, Name};
use deck_values::{ANY_WHOLE, fault_if, has_other_length};
use deck_words::kind::{ROW_COUNT, UNKNOWN_LATTICE};
use deck_words::{LineFault, both, earliest, fault_of, with_fault};
use kmc_base::{OutOfMemory, Sequence};
use lattice_cell::DefaultLattice;
use site_rows::{ReadRow, read_rows};
use std::alloc::Global;

/// The values of a default lattice, whose one type has the name StTp1.
fn default_values(
    alloc: Global,
    named: DefaultLattice,
    repeats: (u64, u64),
) -> Result<LatticePart, OutOfMemory>
    requires wide { AreWide repeats }
    requires few { repeats.0 * repeats.1 ≤ MAX_SITES }
    ensures { IfOk result (λ part. (text : List ℕ) → values_at text part ≡ default_values named repeats) }
{
    let graph = default_graph(alloc, named, repeats)?;
    let name = b"StTp1".to_vec(alloc)?;
    Ok(LatticePart {
        graph,
        type_names: Sequence::new(Vec::from_array(alloc, [name])?),
        type_words: Sequence::new(Vec::new(alloc)),
    })
}

/// The default lattice of a line.
fn named_part(
    alloc: Global,
    named: DefaultLattice,
    bytes: &[u8],
    item: &Item,
) -> Result<Result<LatticePart, LineFault>, OutOfMemory>
    ensures { IfOk result (λ part. value_map (values_at bytes.now) part ≡ value_map (default_values named) (default_on (item_at bytes.now item.now))) }
{
    match default_on(bytes, item) {
        Ok(repeats) => Ok(Ok(default_values(alloc, named, repeats)?)),
        Err(fault) => Ok(Err(fault)),
    }
}

/// The default lattice of a block.
fn default_part(
    alloc: Global,
    bytes: &[u8],
    block: &Block,
) -> Result<Result<LatticePart, LineFault>, OutOfMemory>
    ensures { IfOk result (λ part. value_map (values_at bytes.now) part ≡ default_part (block_at bytes.now block.now)) }
{
    if let Some(item) = block.item(bytes, Keyword::RectangularPeriodic) {
        return named_part(alloc, DefaultLattice::Rectangular, bytes, item);
    }
    match block.item(bytes, Keyword::HexagonalPeriodic) {
        Some(item) => named_part(alloc, DefaultLattice::Hexagonal, bytes, item),
        None => Ok(Err(block.missing_word())),
    }
}

/// How many sites a cell or a lattice has.
fn sites_in(bytes: &[u8], block: &Block, keyword: Keyword) -> Result<u64, LineFault>
    ensures { result ≡ sites_in keyword (block_at bytes.now block.now) }
{
    let absent = Err(block.missing_word());
    block.value_or(bytes, keyword, &SITE_COUNT, absent)
}

/// The earliest fault of the words of a cell that are used for nothing.
fn cell_unused(bytes: &[u8], block: &Block, sites: Option<u64>) -> Option<LineFault>
    requires { sites ≡ result_ok (sites_in Keyword.NCellSites (block_at bytes.now block.now)) }
    ensures { result ≡ cell_unused (block_at bytes.now block.now) }
{
    earliest(
        coordinates_in(block, bytes, Keyword::CellVectors, Some(2)),
        coordinates_in(block, bytes, Keyword::SiteCoordinates, sites),
    )
}

/// What is read of a periodic cell: its number of sites and repeats, type names, type words and joins.
type CellRead = ((u64, (u64, u64)), (Vec<Vec<u8>>, (Vec<Name>, Vec<JoinRow>)));

/// The values of a periodic cell.
fn cell_values(alloc: Global, bytes: &[u8], cell: CellRead) -> Result<LatticePart, OutOfMemory>
    requires some { AreRepeats cell.0.1 }
    requires some_sites { 1 ≤ length cell.1.1.0.items }
    requires few { cell.0.1.0 * cell.0.1.1 * length cell.1.1.0.items ≤ MAX_SITES }
    requires names { length cell.1.0.items ≤ MAX_SITE_TYPES }
    requires ends { AreEnds (Some (length cell.1.1.0.items)) cell.1.1.1.items }
    requires faultless { IsFaultlessCell cell.0.1.0 cell.0.1.1 (length cell.1.1.0.items) (map join_from cell.1.1.1.items) }
    ensures { IfOk result (λ part. values_at bytes.now part
        ≡ cell_values (cell.0, (map (λ name. name.items) cell.1.0.items, (map (name_at bytes.now) cell.1.1.0.items, cell.1.1.1.items)))) }
{
    let (sizes, lists) = cell;
    let (names, rest) = lists;
    let (words, rows) = rest;
    let graph = cell_graph(alloc, bytes, sizes.1, &names, &words, &rows)?;
    Ok(LatticePart {
        graph,
        type_names: Sequence::new(names),
        type_words: Sequence::new(words),
    })
}

/// The periodic cell of a block.
fn cell_part(
    alloc: Global,
    bytes: &[u8],
    block: &Block,
) -> Result<Result<LatticePart, LineFault>, OutOfMemory>
    ensures { IfOk result (λ part. value_map (values_at bytes.now) part ≡ cell_part (block_at bytes.now block.now)) }
{
    let sites = sites_in(bytes, block, Keyword::NCellSites);
    let repeats = cell_repeats(block, bytes, sites.ok());
    let sizes = Sizes {
        sites: sites.ok(),
        repeats: repeats.ok(),
    };
    let names = type_names(alloc, bytes, block)?;
    let words = type_words(alloc, bytes, block, sites.ok())?;
    let joins = cell_joins(alloc, &sizes, bytes, block)?;
    let unused = cell_unused(bytes, block, sites.ok());
    let read = both(both(sites, repeats), both(names, both(words, joins)));
    match with_fault(unused, read) {
        Ok(cell) => Ok(Ok(cell_values(alloc, bytes, cell)?)),
        Err(fault) => Ok(Err(fault)),
    }
}

/// The rows of sites on the lines below a word.
fn rows_on(
    alloc: Global,
    bytes: &[u8],
    sites: Option<u64>,
    item: &Item,
) -> Result<Result<Vec<ReadRow>, LineFault>, OutOfMemory>
    ensures rows { IfOk result (λ rows. value_map (λ found. map (row_at bytes.now) found.items) rows ≡ listed_on sites (item_at bytes.now item.now)) }
    ensures sound { IfOk result (λ rows. IfOk rows (λ found. rows_fault sites (map (row_at bytes.now) found.items) ≡ None)) }
{
    let lines = item.rows.as_slice();
    let rows = read_rows(alloc, bytes, sites, lines)?;
    let other_count = has_other_length(sites, lines.len());
    Ok(with_fault(fault_if(other_count, item.line.number, ROW_COUNT), rows))
}

/// The rows of sites of a lattice.
fn listed_rows(
    alloc: Global,
    bytes: &[u8],
    sites: Option<u64>,
    block: &Block,
) -> Result<Result<Vec<ReadRow>, LineFault>, OutOfMemory>
    ensures rows { IfOk result (λ rows. value_map (λ found. map (row_at bytes.now) found.items) rows ≡ listed_rows sites (block_at bytes.now block.now)) }
    ensures sound { IfOk result (λ rows. IfOk rows (λ found. rows_fault sites (map (row_at bytes.now) found.items) ≡ None)) }
{
    match block.item(bytes, Keyword::LatticeStructure) {
        Some(item) => rows_on(alloc, bytes, sites, item),
        None => Ok(Err(block.missing_word())),
    }
}

/// The fault of the word of an explicit lattice that is used for nothing.
fn listed_unused(bytes: &[u8], block: &Block) -> Option<LineFault>
    ensures { result ≡ listed_unused (block_at bytes.now block.now) }
{
    match block.item(bytes, Keyword::MaxCoord) {
        Some(item) => fault_of(item.value(bytes, &ANY_WHOLE)),
        None => None,
    }
}

/// The type words of rows of sites.
fn words_of(alloc: Global, rows: &[ReadRow]) -> Result<Vec<Name>, OutOfMemory>
    ensures { IfOk result (λ names. (text : List ℕ) → map (name_at text) names.items ≡ map (λ row. on_line row.line row.type_word) (map (row_at text) rows.now)) }
{
    let mut names = Vec::new(alloc);
    for row in rows {
        names.push(Name {
            span: row.type_word,
            line: row.line,
        })?;
    }
    Ok(names)
}

/// The explicit lattice of a block.
fn listed_part(
    alloc: Global,
    bytes: &[u8],
    block: &Block,
) -> Result<Result<LatticePart, LineFault>, OutOfMemory>
    ensures { IfOk result (λ part. value_map (values_at bytes.now) part ≡ listed_part (block_at bytes.now block.now)) }
{
    let sites = sites_in(bytes, block, Keyword::NSites);
    let names = type_names(alloc, bytes, block)?;
    let rows = listed_rows(alloc, bytes, sites.ok(), block)?;
    let read = both(sites, both(names, rows));
    match with_fault(listed_unused(bytes, block), read) {
        Ok((sites, (names, rows))) => {
            let graph = listed_graph(alloc, bytes, sites, &names, &rows)?;
            Ok(Ok(LatticePart {
                graph,
                type_names: Sequence::new(names),
                type_words: Sequence::new(words_of(alloc, &rows)?),
            }))
        }
        Err(fault) => Ok(Err(fault)),
    }
}

/// The values of a block, or the earliest of its faults.
pub(crate) fn part_of(
    alloc: Global,
    bytes: &[u8],
    block: &Block,
) -> Result<Result<LatticePart, LineFault>, OutOfMemory>
    ensures { IfOk result (λ part. value_map (values_at bytes.now) part ≡ part_for block.now.form (block_at bytes.now block.now)) }
{
    match block.form {
        BlockForm::DefaultChoice => default_part(alloc, bytes, block),
        BlockForm::PeriodicCell => cell_part(alloc, bytes, block),
        BlockForm::Explicit => listed_part(alloc, bytes, block),
        _ => Ok(Err(LineFault {
            line: block.line,
            kind: UNKNOWN_LATTICE,
        })),
    }
}
