ghost use Rattle.std.specs.Prelude.{◌≡◌, ◌*◌, map, nat_lt};
ghost use Rattle.dec_text.specs.Spans.{bytes_at};
ghost use Rattle.deck_shape.specs.BlockValues.{required};
ghost use Rattle.deck_shape.specs.Blocks.{block_at, item_at};
ghost use Rattle.deck_words.specs.Faults.{when_read};
ghost use Rattle.lattice_deck.specs.Sizes.{default_on, default_repeats, gives_too_many, is_narrow, repeats_on, two_repeats, wide_enough, within_limit};

use crate::ranges::REPEAT;
use dec_text::Span;
use deck_shape::{Block, Item, Keyword};
use deck_values::{any_decimal, fault_if, whole_in};
use deck_words::kind::{ARGUMENT_COUNT, SELF_NEIGHBOUR, TOO_MANY_SITES};
use deck_words::{LineFault, at_line, both, fault_of, with_fault};
use kmc_base::MAX_SITES;

/// The numbers of a periodic cell that other lines depend on; `None` where the line that states one has a fault.
#[derive(Clone, Copy, Debug)]
pub(crate) struct Sizes {
    /// How many sites the cell has.
    pub(crate) sites: Option<u64>,
    /// How often it is repeated in its two directions.
    pub(crate) repeats: Option<(u64, u64)>,
}

/// The repeats in the two directions, each at least 1.
fn two_repeats(line: u32, bytes: &[u8], words: &[Span]) -> Result<(u64, u64), LineFault>
    ensures { result ≡ two_repeats line (map (bytes_at bytes.now) words.now) }
{
    match words {
        [x, y] => both(
            at_line(line, whole_in(REPEAT, x.bytes(bytes))),
            at_line(line, whole_in(REPEAT, y.bytes(bytes))),
        ),
        [] | [_] | [_, _, _, ..] => Err(LineFault {
            line,
            kind: ARGUMENT_COUNT,
        }),
    }
}

/// So many repeats of a cell of so many sites give more than 65,536 sites.
fn is_past_limit(nx: u64, ny: u64, sites: u64) -> bool
    ensures { result ≡ nat_lt MAX_SITES (nx * ny * sites) }
{
    let cells = u128::from(nx) * u128::from(ny);
    match cells.checked_mul(u128::from(sites)) {
        Some(count) => u128::from(MAX_SITES) < count,
        None => true,
    }
}

/// Repeats of a cell of so many sites give more than 65,536 sites, where that number is known.
fn gives_too_many(sites: Option<u64>, repeats: (u64, u64)) -> bool
    ensures { result ≡ gives_too_many sites repeats }
{
    match sites {
        Some(sites) => is_past_limit(repeats.0, repeats.1, sites),
        None => false,
    }
}

/// Repeats of a cell of so many sites, unless they give too many.
fn within_limit(sites: Option<u64>, line: u32, repeats: (u64, u64)) -> Result<(u64, u64), LineFault>
    ensures { result ≡ within_limit sites line repeats }
{
    let too_many = gives_too_many(sites, repeats);
    with_fault(fault_if(too_many, line, TOO_MANY_SITES), Ok(repeats))
}

/// The repeats on a line, for a cell of so many sites.
fn repeats_on(sites: Option<u64>, bytes: &[u8], item: &Item) -> Result<(u64, u64), LineFault>
    ensures { result ≡ repeats_on sites (item_at bytes.now item.now) }
{
    let line = item.line.number;
    match two_repeats(line, bytes, item.arguments()) {
        Ok(repeats) => within_limit(sites, line, repeats),
        Err(fault) => Err(fault),
    }
}

/// The repeats of a cell of so many sites.
pub(crate) fn cell_repeats(
    block: &Block,
    bytes: &[u8],
    sites: Option<u64>,
) -> Result<(u64, u64), LineFault>
    ensures { result ≡ required Keyword.RepeatCell (block_at bytes.now block.now) (repeats_on sites) }
{
    match block.item(bytes, Keyword::RepeatCell) {
        Some(item) => repeats_on(sites, bytes, item),
        None => Err(block.missing_word()),
    }
}

/// A direction with one cell makes each site of a default lattice its own neighbour.
fn is_narrow(repeats: (u64, u64)) -> bool
    ensures { result ≡ is_narrow repeats }
{
    repeats.0 == 1 || repeats.1 == 1
}

/// Repeats of a cell of one site, each direction of which should have two cells.
fn wide_enough(line: u32, repeats: (u64, u64)) -> Result<(u64, u64), LineFault>
    ensures { result ≡ wide_enough line repeats }
{
    let narrow = fault_if(is_narrow(repeats), line, SELF_NEIGHBOUR);
    with_fault(narrow, within_limit(Some(1), line, repeats))
}

/// Repeats that are read, where each direction should have two cells.
fn all_wide_enough(
    line: u32,
    repeats: Result<(u64, u64), LineFault>,
) -> Result<(u64, u64), LineFault>
    ensures { result ≡ when_read (wide_enough line) repeats }
{
    match repeats {
        Ok(repeats) => wide_enough(line, repeats),
        Err(fault) => Err(fault),
    }
}

/// The repeats of a default lattice, behind its lattice constant, which is used for nothing.
fn default_repeats(line: u32, bytes: &[u8], words: &[Span]) -> Result<(u64, u64), LineFault>
    ensures { result ≡ default_repeats line (map (bytes_at bytes.now) words.now) }
{
    let [constant, repeats @ ..] = words else {
        return Err(LineFault {
            line,
            kind: ARGUMENT_COUNT,
        });
    };
    let constant = fault_of(at_line(line, any_decimal(constant.bytes(bytes))));
    let repeats = all_wide_enough(line, two_repeats(line, bytes, repeats));
    with_fault(constant, repeats)
}

/// The repeats of the default lattice on a line.
pub(crate) fn default_on(bytes: &[u8], item: &Item) -> Result<(u64, u64), LineFault>
    ensures { result ≡ default_on (item_at bytes.now item.now) }
{
    default_repeats(item.line.number, bytes, item.arguments())
}
