//! The species of the simulation file.

ghost use Rattle.std.specs.Prelude.{◌≡◌, ℕ, IfOk, List, map};
ghost use Rattle.deck_shape.specs.Blocks.{block_at};
ghost use Rattle.deck_shape.specs.Names.{name_at};
ghost use Rattle.deck_words.specs.Faults.{value_map};
ghost use Rattle.deck_values.specs.Numbers.{any_decimal};
ghost use Rattle.std.specs.Result.{result_err};
ghost use Rattle.sim_deck.specs.Species.{count_in, gas_in, gas_lists, gas_with, surface_in, surface_lists, surface_with, weights_in};
ghost use Rattle.sim_deck.specs.Views.{gas_at, surface_at};

use crate::lines::{list_or, names_in, numbers_in};
use crate::ranges::{FRACTION, SPECIES_COUNT};
use crate::words::{Dentates, Energy};
use dec_text::Decimal;
use deck_shape::{Block, Keyword, Name};
use deck_values::AnyDecimal;
use deck_words::{LineFault, both, with_fault};
use kmc_base::OutOfMemory;
use std::alloc::Global;

/// The gas species: a name, an energy in neV and a molar fraction for each.
#[derive(Debug, Drop)]
pub(crate) struct Gas {
    pub(crate) names: Vec<Name>,
    pub(crate) energies: Vec<i64>,
    pub(crate) fractions: Vec<Decimal>,
}

/// The surface species: a name and a number of dentates for each.
#[derive(Debug, Drop)]
pub(crate) struct Surface {
    pub(crate) names: Vec<Name>,
    pub(crate) dentates: Vec<u8>,
}

/// A number of species.
fn count_in(bytes: &[u8], block: &Block, keyword: Keyword) -> Result<u64, LineFault>
    ensures { result ≡ count_in keyword (block_at bytes.now block.now) }
{
    block.value_or(bytes, keyword, &SPECIES_COUNT, Ok(0))
}

/// The gas species of these lists.
fn gas_with(
    names: Result<Vec<Name>, LineFault>,
    energies: Result<Vec<i64>, LineFault>,
    fractions: Result<Vec<Decimal>, LineFault>,
) -> Result<Gas, LineFault>
    ensures { (text : List ℕ) → value_map (gas_at text) result
        ≡ gas_with (value_map (λ list. map (name_at text) list.items) names)
        (value_map (λ list. list.items) energies) (value_map (λ list. list.items) fractions) }
{
    let ((names, energies), fractions) = both(both(names, energies), fractions)?;
    Ok(Gas {
        names,
        energies,
        fractions,
    })
}

/// The lists of so many gas species.
fn gas_lists(
    alloc: Global,
    count: Option<u64>,
    bytes: &[u8],
    block: &Block,
) -> Result<Result<Gas, LineFault>, OutOfMemory>
    ensures { IfOk result (λ gas. value_map (gas_at bytes.now) gas ≡ gas_lists count (block_at bytes.now block.now)) }
{
    let names = names_in(alloc, count, bytes, block, Keyword::GasSpecsNames)?;
    let energies = numbers_in(alloc, &Energy, count, bytes, block, Keyword::GasEnergies)?;
    let fractions = numbers_in(
        alloc,
        &FRACTION,
        count,
        bytes,
        block,
        Keyword::GasMolarFracs,
    )?;
    Ok(gas_with(names, energies, fractions))
}

/// The fault of the molecular weights, which are used for nothing.
fn weights_fault(
    alloc: Global,
    count: Option<u64>,
    bytes: &[u8],
    block: &Block,
) -> Result<Option<LineFault>, OutOfMemory>
    ensures { IfOk result (λ fault. fault ≡ result_err (weights_in count (block_at bytes.now block.now))) }
{
    let weights = list_or(
        alloc,
        Ok(Vec::new(alloc)),
        &AnyDecimal,
        count,
        bytes,
        block,
        Keyword::GasMolecWeights,
    )?;
    Ok(weights.err())
}

/// The gas species.
pub(crate) fn gas_in(
    alloc: Global,
    bytes: &[u8],
    block: &Block,
) -> Result<Result<Gas, LineFault>, OutOfMemory>
    ensures { IfOk result (λ gas. value_map (gas_at bytes.now) gas ≡ gas_in (block_at bytes.now block.now)) }
{
    let count = count_in(bytes, block, Keyword::NGasSpecies);
    let weights = weights_fault(alloc, count.ok(), bytes, block)?;
    let lists = gas_lists(alloc, count.ok(), bytes, block)?;
    Ok(with_fault(count.err(), with_fault(weights, lists)))
}

/// The surface species of these lists.
fn surface_with(
    names: Result<Vec<Name>, LineFault>,
    dentates: Result<Vec<u8>, LineFault>,
) -> Result<Surface, LineFault>
    ensures { (text : List ℕ) → value_map (surface_at text) result
        ≡ surface_with (value_map (λ list. map (name_at text) list.items) names) (value_map (λ list. list.items) dentates) }
{
    let (names, dentates) = both(names, dentates)?;
    Ok(Surface { names, dentates })
}

/// The lists of so many surface species.
fn surface_lists(
    alloc: Global,
    count: Option<u64>,
    bytes: &[u8],
    block: &Block,
) -> Result<Result<Surface, LineFault>, OutOfMemory>
    ensures { IfOk result (λ surface. value_map (surface_at bytes.now) surface ≡ surface_lists count (block_at bytes.now block.now)) }
{
    let names = names_in(alloc, count, bytes, block, Keyword::SurfSpecsNames)?;
    let dentates = numbers_in(
        alloc,
        &Dentates,
        count,
        bytes,
        block,
        Keyword::SurfSpecsDent,
    )?;
    Ok(surface_with(names, dentates))
}

/// The surface species.
pub(crate) fn surface_in(
    alloc: Global,
    bytes: &[u8],
    block: &Block,
) -> Result<Result<Surface, LineFault>, OutOfMemory>
    ensures { IfOk result (λ surface. value_map (surface_at bytes.now) surface ≡ surface_in (block_at bytes.now block.now)) }
{
    let count = count_in(bytes, block, Keyword::NSurfSpecies);
    let lists = surface_lists(alloc, count.ok(), bytes, block)?;
    Ok(with_fault(count.err(), lists))
}
