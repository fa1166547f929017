ghost use Rattle.std.specs.Prelude.{◌≡◌, ◌∷◌, ◌==◌, ◌&&◌, ◌≤◌, [], All, IfOk, IfSome, map};
ghost use Rattle.dec_text.specs.Spans.{bytes_at, line_at};
ghost use Rattle.deck_shape.specs.BlockValues.{required};
ghost use Rattle.deck_shape.specs.Blocks.{block_at, item_at};
ghost use Rattle.deck_values.specs.Readings.{least, least_fault, values_of};
ghost use Rattle.deck_words.specs.Faults.{value_map};
ghost use Rattle.kmc_base.specs.declared.limits.TheConstants.{MAX_SITES};
ghost use Rattle.lattice_cell.specs.Cells.{IsInCell, displaced};
ghost use Rattle.lattice_deck.specs.Ends.{AreEnds, HasEnds};
ghost use Rattle.lattice_deck.specs.Joins.{crowd_fault, crowds, has_bad_end, itself_fault, join_from, join_of, join_row, joins_itself, joins_on, leads_back, sound_joins, toward_of, with_ends};
ghost use Rattle.lattice_deck.specs.Sizes.{AreRepeats, IsSizes};

use crate::sizes::Sizes;
use dec_text::{Line, Span};
use deck_shape::{Block, Item, Keyword};
use deck_values::{Readings, edge_of, fault_if, or_form_fault, row_words, with_reading};
use deck_words::kind::{BAD_EDGE, SELF_NEIGHBOUR, TOO_MANY_NEIGHBOURS};
use deck_words::{LineFault, earliest, with_fault};
use kmc_base::OutOfMemory;
use lattice_cell::{Join, Toward, is_crowded};
use site_rows::is_no_site;
use std::alloc::Global;

/// A row of `neighboring_structure`: the two sites of the cell, from 1, and the cell of the second.
#[derive(Clone, Copy, Debug)]
pub(crate) struct JoinRow {
    line: u32,
    from: u64,
    to: u64,
    toward: Toward,
}

/// Where the cell of the second site is.
fn toward_of(word: &[u8]) -> Option<Toward>
    ensures { result ≡ toward_of word.now }
{
    match word {
        b"self" => Some(Toward::Own),
        b"north" => Some(Toward::North),
        b"northeast" => Some(Toward::Northeast),
        b"east" => Some(Toward::East),
        b"southeast" => Some(Toward::Southeast),
        _ => None,
    }
}

/// The row that an edge and a displacement on a line write.
fn row_of(line: u32, edge: &[u8], toward: &[u8]) -> Option<JoinRow>
    ensures { result ≡ join_of line (edge.now ∷ toward.now ∷ []) }
{
    let (from, to) = edge_of(edge)?;
    let toward = toward_of(toward)?;
    Some(JoinRow {
        line,
        from,
        to,
        toward,
    })
}

/// The row that the two words of a line write.
fn join_of(line: u32, bytes: &[u8], words: &[Span]) -> Option<JoinRow>
    ensures { result ≡ join_of line (map (bytes_at bytes.now) words.now) }
{
    match words {
        [edge, toward] => row_of(line, edge.bytes(bytes), toward.bytes(bytes)),
        [] | [_] | [_, _, _, ..] => None,
    }
}

fn has_bad_end(sites: Option<u64>, row: JoinRow) -> bool
    ensures { result ≡ has_bad_end sites row }
{
    is_no_site(sites, row.from) || is_no_site(sites, row.to)
}

/// A row, unless an end of it is no site.
fn with_ends(sites: Option<u64>, row: JoinRow) -> Result<JoinRow, LineFault>
    ensures value { result ≡ with_ends sites row }
    ensures ends { IfOk result (HasEnds sites) }
{
    if has_bad_end(sites, row) {
        Err(LineFault {
            line: row.line,
            kind: BAD_EDGE,
        })
    } else {
        Ok(row)
    }
}

/// The row of a line, or the fault of its form or of an end.
fn join_row(sites: Option<u64>, bytes: &[u8], row: &Line) -> Result<JoinRow, LineFault>
    ensures value { result ≡ join_row sites (line_at bytes.now row.now) }
    ensures ends { IfOk result (HasEnds sites) }
{
    match or_form_fault(row.number, join_of(row.number, bytes, row_words(row))) {
        Ok(row) => with_ends(sites, row),
        Err(fault) => Err(fault),
    }
}

/// The rows of the right form that end in the cell, and the earliest fault of the others.
fn read_joins(
    alloc: Global,
    sites: Option<u64>,
    bytes: &[u8],
    rows: &[Line],
) -> Result<Readings<JoinRow>, OutOfMemory>
    ensures rows { IfOk result (λ read. read.values.items ≡ values_of (map (join_row sites) (map (line_at bytes.now) rows.now))) }
    ensures fault { IfOk result (λ read. read.fault ≡ least_fault (map (join_row sites) (map (line_at bytes.now) rows.now))) }
    ensures ends { IfOk result (λ read. AreEnds sites read.values.items) }
{
    let mut read = Readings {
        values: Vec::new(alloc),
        fault: None,
    };
    for row in rows {
        read = with_reading(read, join_row(sites, bytes, row))?;
    }
    Ok(read)
}

fn is_one_cell(nx: u64, ny: u64) -> bool
    ensures { result ≡ (nx == 1 && ny == 1) }
{
    nx == 1 && ny == 1
}

/// A displacement leads from the first cell back to it.
fn leads_to_itself(nx: u64, ny: u64, toward: Toward) -> bool
    requires columns { 1 ≤ nx }
    requires rows { 1 ≤ ny }
    ensures { result ≡ (displaced nx ny toward 0 == 0) }
{
    match toward {
        Toward::Own => true,
        Toward::North => ny == 1,
        Toward::East => nx == 1,
        Toward::Northeast => is_one_cell(nx, ny),
        Toward::Southeast => is_one_cell(nx, ny),
    }
}

/// A displacement leads back to the same cell: `self` does so always, the others by the repeats, where these are known.
fn leads_back(repeats: Option<(u64, u64)>, toward: Toward) -> bool
    requires { IfSome repeats AreRepeats }
    ensures { result ≡ leads_back repeats toward }
{
    match (toward, repeats) {
        (Toward::Own, _) => true,
        (_, None) => false,
        (_, Some((nx, ny))) => leads_to_itself(nx, ny, toward),
    }
}

/// A row joins a site to itself.
fn joins_itself(repeats: Option<(u64, u64)>, row: JoinRow) -> bool
    requires { IfSome repeats AreRepeats }
    ensures { result ≡ joins_itself repeats row }
{
    row.from == row.to && leads_back(repeats, row.toward)
}

/// The earliest fault of rows that join a site to itself.
fn itself_faults(repeats: Option<(u64, u64)>, rows: &[JoinRow]) -> Option<LineFault>
    requires { IfSome repeats AreRepeats }
    ensures { result ≡ least (map (itself_fault repeats) rows.now) }
{
    let mut fault = None;
    for row in rows {
        let is_own = joins_itself(repeats, *row);
        fault = earliest(fault, fault_if(is_own, row.line, SELF_NEIGHBOUR));
    }
    fault
}

/// The join of a row, with sites from 0.
fn join_from(sites: u64, row: JoinRow) -> Join
    requires few { sites ≤ MAX_SITES }
    requires ends { HasEnds (Some sites) row }
    ensures value { result ≡ join_from row }
    ensures ends { IsInCell sites result }
{
    Join {
        from: (row.from - 1) as u32,
        to: (row.to - 1) as u32,
        toward: row.toward,
    }
}

/// The joins of rows, with sites from 0.
pub(crate) fn joins_from(
    alloc: Global,
    sites: u64,
    rows: &[JoinRow],
) -> Result<Vec<Join>, OutOfMemory>
    requires few { sites ≤ MAX_SITES }
    requires ends { AreEnds (Some sites) rows.now }
    ensures value { IfOk result (λ joins. joins.items ≡ map join_from rows.now) }
    ensures ends { IfOk result (λ joins. All (IsInCell sites) joins.items) }
{
    let mut joins = Vec::new(alloc);
    for row in rows {
        joins.push(join_from(sites, *row))?;
    }
    Ok(joins)
}

/// Some site has more than 32 neighbours, where the number of sites and the repeats are known.
fn crowds(alloc: Global, sizes: &Sizes, rows: &[JoinRow]) -> Result<bool, OutOfMemory>
    requires sizes { IsSizes sizes.now }
    requires ends { AreEnds sizes.now.sites rows.now }
    ensures { IfOk result (λ b. b ≡ crowds sizes.now.sites sizes.now.repeats rows.now) }
{
    let (Some(sites), Some((nx, ny))) = (sizes.sites, sizes.repeats) else {
        return Ok(false);
    };
    let joins = joins_from(alloc, sites, rows)?;
    is_crowded(alloc, nx as u32, ny as u32, sites as u32, &joins)
}

/// The fault of a word with a site of too many neighbours, where every row has the right form and ends in the cell.
fn crowd_fault(
    alloc: Global,
    sizes: &Sizes,
    line: u32,
    of_rows: Option<LineFault>,
    rows: &[JoinRow],
) -> Result<Option<LineFault>, OutOfMemory>
    requires sizes { IsSizes sizes.now }
    requires ends { AreEnds sizes.now.sites rows.now }
    ensures { IfOk result (λ fault. fault ≡ crowd_fault sizes.now line of_rows rows.now) }
{
    match of_rows {
        Some(_) => Ok(None),
        None => Ok(fault_if(crowds(alloc, sizes, rows)?, line, TOO_MANY_NEIGHBOURS)),
    }
}

/// The rows that join sites, below a word, or the earliest of their faults.
fn joins_on(
    alloc: Global,
    sizes: &Sizes,
    bytes: &[u8],
    item: &Item,
) -> Result<Result<Vec<JoinRow>, LineFault>, OutOfMemory>
    requires { IsSizes sizes.now }
    ensures value { IfOk result (λ joins. value_map (λ rows. rows.items) joins ≡ joins_on sizes.now (item_at bytes.now item.now)) }
    ensures ends { IfOk result (λ joins. IfOk joins (λ rows. AreEnds sizes.now.sites rows.items)) }
{
    let read = read_joins(alloc, sizes.sites, bytes, item.rows.as_slice())?;
    let rows = read.values.as_slice();
    let crowd = crowd_fault(alloc, sizes, item.line.number, read.fault, rows)?;
    let fault = earliest(
        crowd,
        earliest(read.fault, itself_faults(sizes.repeats, rows)),
    );
    Ok(with_fault(fault, Ok(read.values)))
}

/// The rows that join the sites of a cell.
pub(crate) fn cell_joins(
    alloc: Global,
    sizes: &Sizes,
    bytes: &[u8],
    block: &Block,
) -> Result<Result<Vec<JoinRow>, LineFault>, OutOfMemory>
    requires { IsSizes sizes.now }
    ensures value { IfOk result (λ joins. value_map (λ rows. rows.items) joins
        ≡ required Keyword.NeighboringStructure (block_at bytes.now block.now) (joins_on sizes.now)) }
    ensures ends { IfOk result (λ joins. IfOk joins (λ rows. AreEnds sizes.now.sites rows.items)) }
{
    match block.item(bytes, Keyword::NeighboringStructure) {
        Some(item) => joins_on(alloc, sizes, bytes, item),
        None => Ok(Err(block.missing_word())),
    }
}
