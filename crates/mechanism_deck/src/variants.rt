//! What each variant of a step has of its own, or else takes from the step around it.

ghost use Rattle.std.specs.Prelude.{◌≡◌, ℕ, IfOk, List, map};
ghost use Rattle.std.specs.Option.{option_map};
ghost use Rattle.deck_shape.specs.Blocks.{block_at};
ghost use Rattle.deck_shape.specs.Names.{name_at};
ghost use Rattle.deck_words.specs.Faults.{fault_of, value_map};
ghost use Rattle.mechanism_deck.specs.Steps.{absent_ratio, activation_or, common_values, number_fault, own_fault};
ghost use Rattle.mechanism_deck.specs.Steps.{pe_ratio_or, pre_expon_or, proximity_or, variant_name, variant_of, variant_within};
ghost use Rattle.mechanism_deck.specs.Views.{common_at, variant_at};

use crate::body::is_reversible;
use crate::ranges::DEFAULT_PROXIMITY;
use crate::words::{Activation, PreExponential, Proximity, Ratio};
use dec_text::Decimal;
use deck_shape::{Block, Keyword, Name};
use deck_words::{LineFault, ReadWord, both, earliest};
use kmc_base::OutOfMemory;
use pattern_rows::types_or;
use std::alloc::Global;

/// What a step states for its variants.
#[derive(Debug, Drop)]
pub(crate) struct CommonWords {
    types: Result<Vec<Name>, LineFault>,
    pre_expon: Result<Decimal, LineFault>,
    pe_ratio: Result<Option<Decimal>, LineFault>,
    activation: Result<i64, LineFault>,
    proximity: Result<u32, LineFault>,
}

/// What a variant has of its own.
#[derive(Debug, Drop)]
pub(crate) struct Variant {
    pub(crate) name: Option<Name>,
    pub(crate) types: Vec<Name>,
    pub(crate) pre_expon: Decimal,
    pub(crate) pe_ratio: Option<Decimal>,
    pub(crate) activation: i64,
    pub(crate) proximity: u32,
}

/// The pre-exponential factor of a block, or another one where it states none.
fn pre_expon_or(
    bytes: &[u8],
    block: &Block,
    absent: Result<Decimal, LineFault>,
) -> Result<Decimal, LineFault>
    ensures { result ≡ pre_expon_or absent (block_at bytes.now block.now) }
{
    block.value_or(bytes, Keyword::PreExpon, &PreExponential, absent)
}

/// The ratio of pre-exponential factors of a block, or another one where it states none.
fn pe_ratio_or(
    bytes: &[u8],
    block: &Block,
    absent: Result<Option<Decimal>, LineFault>,
) -> Result<Option<Decimal>, LineFault>
    ensures { result ≡ pe_ratio_or absent (block_at bytes.now block.now) }
{
    block.value_or(bytes, Keyword::PeRatio, &Ratio, absent)
}

/// The activation energy in neV of a block, or another one where it states none.
fn activation_or(
    bytes: &[u8],
    block: &Block,
    absent: Result<i64, LineFault>,
) -> Result<i64, LineFault>
    ensures { result ≡ activation_or absent (block_at bytes.now block.now) }
{
    block.value_or(bytes, Keyword::ActivEng, &Activation, absent)
}

/// The proximity factor of a block, or another one where it states none.
fn proximity_or(
    bytes: &[u8],
    block: &Block,
    absent: Result<u32, LineFault>,
) -> Result<u32, LineFault>
    ensures { result ≡ proximity_or absent (block_at bytes.now block.now) }
{
    block.value_or(bytes, Keyword::ProxFactor, &Proximity, absent)
}

/// The ratio of a step that states none: a reversible step must have one.
fn absent_ratio(step: &Block) -> Result<Option<Decimal>, LineFault>
    ensures { (text : List ℕ) → result ≡ absent_ratio (block_at text step.now) }
{
    if is_reversible(step.form) {
        Err(step.missing_word())
    } else {
        Ok(None)
    }
}

/// What a step of so many sites states for its variants.
pub(crate) fn common_words(
    alloc: Global,
    bytes: &[u8],
    step: &Block,
    sites: Option<u64>,
) -> Result<CommonWords, OutOfMemory>
    ensures { IfOk result (λ common. common_at bytes.now common ≡ common_values sites (block_at bytes.now step.now)) }
{
    Ok(CommonWords {
        types: types_or(alloc, bytes, step, sites, Ok(Vec::new(alloc)))?,
        pre_expon: pre_expon_or(bytes, step, Err(step.missing_word())),
        pe_ratio: pe_ratio_or(bytes, step, absent_ratio(step)),
        activation: activation_or(bytes, step, Err(step.missing_word())),
        proximity: proximity_or(bytes, step, Ok(DEFAULT_PROXIMITY)),
    })
}

/// The fault of some type words.
fn types_fault(types: &Result<Vec<Name>, LineFault>) -> Option<LineFault>
    ensures { (text : List ℕ) → result ≡ fault_of (value_map (λ list. map (name_at text) list.items) types.now) }
{
    match types {
        Ok(_) => None,
        Err(fault) => Some(*fault),
    }
}

/// The fault of a number of a block itself.
fn number_fault<R: ReadWord>(
    bytes: &[u8],
    block: &Block,
    keyword: Keyword,
    reading: &R,
) -> Option<LineFault>
    requires { R.is_usable reading.now }
    ensures { result ≡ number_fault (R.value_of reading.now) keyword (block_at bytes.now block.now) }
{
    match block.item(bytes, keyword) {
        Some(item) => item.value(bytes, reading).err(),
        None => None,
    }
}

/// The earliest fault of the step's own words, also of those that no variant needs.
pub(crate) fn own_fault(
    bytes: &[u8],
    step: &Block,
    common: &CommonWords,
    sites: Option<u64>,
) -> Option<LineFault>
    requires { common_at bytes.now common.now ≡ common_values sites (block_at bytes.now step.now) }
    ensures { result ≡ own_fault sites (block_at bytes.now step.now) }
{
    let factors = earliest(
        number_fault(bytes, step, Keyword::PreExpon, &PreExponential),
        number_fault(bytes, step, Keyword::PeRatio, &Ratio),
    );
    let energies = earliest(
        number_fault(bytes, step, Keyword::ActivEng, &Activation),
        number_fault(bytes, step, Keyword::ProxFactor, &Proximity),
    );
    earliest(types_fault(&common.types), earliest(factors, energies))
}

/// A copy of type words, of which there are few.
fn copied(
    alloc: Global,
    types: &Result<Vec<Name>, LineFault>,
) -> Result<Result<Vec<Name>, LineFault>, OutOfMemory>
    ensures { IfOk result (λ copy. value_map (λ list. list.items) copy ≡ value_map (λ list. list.items) types.now) }
{
    match types {
        Ok(types) => Ok(Ok(Vec::from_slice(alloc, types)?)),
        Err(fault) => Ok(Err(*fault)),
    }
}

/// The name of a variant, where there is one.
fn variant_name(named: bool, variant: &Block) -> Option<Name>
    ensures { (text : List ℕ) → option_map (name_at text) result ≡ variant_name named (block_at text variant.now) }
{
    if named {
        Some(Name {
            span: variant.name,
            line: variant.line,
        })
    } else {
        None
    }
}

/// The variant that has these values.
fn variant_of(
    name: Option<Name>,
    types: Result<Vec<Name>, LineFault>,
    pre_expon: Result<Decimal, LineFault>,
    pe_ratio: Result<Option<Decimal>, LineFault>,
    activation: Result<i64, LineFault>,
    proximity: Result<u32, LineFault>,
) -> Result<Variant, LineFault>
    ensures { (text : List ℕ) → value_map (variant_at text) result
        ≡ variant_of (option_map (name_at text) name) (value_map (λ list. map (name_at text) list.items) types)
        pre_expon pe_ratio activation proximity }
{
    let numbers = both(pre_expon, both(pe_ratio, both(activation, proximity)));
    let (types, (pre_expon, (pe_ratio, (activation, proximity)))) = both(types, numbers)?;
    Ok(Variant {
        name,
        types,
        pre_expon,
        pe_ratio,
        activation,
        proximity,
    })
}

/// The values of a variant: each is that of its own word, or else that which the step states.
pub(crate) fn variant_values(
    alloc: Global,
    bytes: &[u8],
    variant: &Block,
    named: bool,
    common: &CommonWords,
    sites: Option<u64>,
) -> Result<Result<Variant, LineFault>, OutOfMemory>
    ensures { IfOk result (λ values. value_map (variant_at bytes.now) values
        ≡ variant_within (common_at bytes.now common.now) named sites (block_at bytes.now variant.now)) }
{
    let absent = copied(alloc, &common.types)?;
    let types = types_or(alloc, bytes, variant, sites, absent)?;
    let pre_expon = pre_expon_or(bytes, variant, common.pre_expon);
    let pe_ratio = pe_ratio_or(bytes, variant, common.pe_ratio);
    let activation = activation_or(bytes, variant, common.activation);
    let proximity = proximity_or(bytes, variant, common.proximity);
    let name = variant_name(named, variant);
    Ok(variant_of(name, types, pre_expon, pe_ratio, activation, proximity))
}
