//! What each variant of a cluster has of its own, or else takes from the cluster around it.

ghost use Rattle.std.specs.Prelude.{◌≡◌, ℕ, IfOk, List, map};
ghost use Rattle.deck_shape.specs.Blocks.{block_at};
ghost use Rattle.deck_shape.specs.Names.{name_at};
ghost use Rattle.deck_words.specs.Faults.{fault_of, value_map};
ghost use Rattle.energetics_deck.specs.Clusters.{common_values, energy_or, multiplicity_or, own_fault, variant_of, variant_within};
ghost use Rattle.energetics_deck.specs.Views.{common_at, variant_at};

use crate::ranges::MULTIPLICITY;
use deck_shape::{Block, Keyword, Name};
use deck_values::ENERGY;
use deck_words::{LineFault, both, earliest};
use kmc_base::OutOfMemory;
use pattern_rows::types_or;
use std::alloc::Global;

/// What a cluster states for its variants.
#[derive(Debug, Drop)]
pub(crate) struct CommonWords {
    types: Result<Vec<Name>, LineFault>,
    multiplicity: Result<u64, LineFault>,
    energy: Result<i128, LineFault>,
}

/// What a variant has of its own: the type words of its sites, its graph multiplicity, and its energy in neV.
#[derive(Debug, Drop)]
pub(crate) struct Variant {
    pub(crate) types: Vec<Name>,
    pub(crate) multiplicity: u64,
    pub(crate) energy: i128,
}

/// The graph multiplicity of a block, or another one where it states none.
fn multiplicity_or(
    bytes: &[u8],
    block: &Block,
    absent: Result<u64, LineFault>,
) -> Result<u64, LineFault>
    ensures { result ≡ multiplicity_or absent (block_at bytes.now block.now) }
{
    block.value_or(bytes, Keyword::GraphMultiplicity, &MULTIPLICITY, absent)
}

/// The energy in neV of a block, or another one where it states none.
fn energy_or(
    bytes: &[u8],
    block: &Block,
    absent: Result<i128, LineFault>,
) -> Result<i128, LineFault>
    ensures { result ≡ energy_or absent (block_at bytes.now block.now) }
{
    block.value_or(bytes, Keyword::ClusterEng, &ENERGY, absent)
}

/// What a cluster of so many sites states for its variants.
pub(crate) fn common_words(
    alloc: Global,
    bytes: &[u8],
    cluster: &Block,
    sites: Option<u64>,
) -> Result<CommonWords, OutOfMemory>
    ensures { IfOk result (λ common. common_at bytes.now common ≡ common_values sites (block_at bytes.now cluster.now)) }
{
    Ok(CommonWords {
        types: types_or(alloc, bytes, cluster, sites, Ok(Vec::new(alloc)))?,
        multiplicity: multiplicity_or(bytes, cluster, Ok(1)),
        energy: energy_or(bytes, cluster, Err(cluster.missing_word())),
    })
}

/// The fault of some type words.
fn types_fault(types: &Result<Vec<Name>, LineFault>) -> Option<LineFault>
    ensures { (text : List ℕ) → result ≡ fault_of (value_map (λ list. map (name_at text) list.items) types.now) }
{
    match types {
        Ok(_) => None,
        Err(fault) => Some(*fault),
    }
}

/// The earliest fault of the cluster's own words, also of those that no variant needs.
pub(crate) fn own_fault(
    bytes: &[u8],
    cluster: &Block,
    common: &CommonWords,
    sites: Option<u64>,
) -> Option<LineFault>
    requires { common_at bytes.now common.now ≡ common_values sites (block_at bytes.now cluster.now) }
    ensures { result ≡ own_fault sites (block_at bytes.now cluster.now) }
{
    let energy = energy_or(bytes, cluster, Ok(0));
    earliest(
        types_fault(&common.types),
        earliest(common.multiplicity.err(), energy.err()),
    )
}

/// A copy of type words, of which there are few.
fn copied(
    alloc: Global,
    types: &Result<Vec<Name>, LineFault>,
) -> Result<Result<Vec<Name>, LineFault>, OutOfMemory>
    ensures { IfOk result (λ copy. value_map (λ list. list.items) copy ≡ value_map (λ list. list.items) types.now) }
{
    match types {
        Ok(types) => Ok(Ok(Vec::from_slice(alloc, types)?)),
        Err(fault) => Ok(Err(*fault)),
    }
}

/// The variant that has these values.
fn variant_of(
    types: Result<Vec<Name>, LineFault>,
    multiplicity: Result<u64, LineFault>,
    energy: Result<i128, LineFault>,
) -> Result<Variant, LineFault>
    ensures { (text : List ℕ) → value_map (variant_at text) result ≡ variant_of (value_map (λ list. map (name_at text) list.items) types) multiplicity energy }
{
    let (types, (multiplicity, energy)) = both(types, both(multiplicity, energy))?;
    Ok(Variant {
        types,
        multiplicity,
        energy,
    })
}

/// The values of a variant: each is that of its own word, or else that which the cluster states.
pub(crate) fn variant_values(
    alloc: Global,
    bytes: &[u8],
    variant: &Block,
    common: &CommonWords,
    sites: Option<u64>,
) -> Result<Result<Variant, LineFault>, OutOfMemory>
    ensures { IfOk result (λ values. value_map (variant_at bytes.now) values
        ≡ variant_within (common_at bytes.now common.now) sites (block_at bytes.now variant.now)) }
{
    let absent = copied(alloc, &common.types)?;
    let types = types_or(alloc, bytes, variant, sites, absent)?;
    let multiplicity = multiplicity_or(bytes, variant, common.multiplicity);
    let energy = energy_or(bytes, variant, common.energy);
    Ok(variant_of(types, multiplicity, energy))
}
