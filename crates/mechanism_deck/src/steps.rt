//! The steps of a file, one after another. Once a fault is found none is kept.

ghost use Rattle.std.specs.Prelude.{◌≡◌, ◌∷◌, ◌++◌, ℕ, [], IfOk, List, map};
ghost use Rattle.std.specs.List.{flat_map};
ghost use Rattle.deck_shape.specs.Blocks.{block_at, section_at};
ghost use Rattle.deck_words.specs.Faults.{all_of, value_map};
ghost use Rattle.mechanism_deck.specs.Steps.{has_variants, step_with, steps_of, variant_within};
ghost use Rattle.mechanism_deck.specs.Views.{body_at, common_at, listing_at, step_at, steps_at, variant_at};
ghost use Rattle.pattern_rows.specs.Listings.{joined, with_next, with_variants};

use crate::body::{Body, body_in};
use crate::part::StepPart;
use crate::variants::{CommonWords, Variant, common_words, own_fault, variant_values};
use deck_shape::{Block, Section};
use deck_words::{LineFault, both, with_fault};
use kmc_base::{OutOfMemory, Sequence};
use pattern_rows::{sites_in, variants_of};
use std::alloc::Global;

/// The steps so far, and the body of those that follow.
type Listing = (Vec<StepPart>, Body);

/// The step of a variant.
fn step_with(alloc: Global, body: &Body, variant: Variant) -> Result<StepPart, OutOfMemory>
    ensures { IfOk result (λ step. (text : List ℕ) → step_at text step ≡ step_with (body_at text body.now) (variant_at text variant)) }
{
    Ok(StepPart {
        name: body.name,
        variant: variant.name,
        reversible: body.reversible,
        gas: Sequence::new(Vec::from_slice(alloc, &body.gas)?),
        sites: body.sites,
        edges: Sequence::new(Vec::from_slice(alloc, &body.edges)?),
        before: Sequence::new(Vec::from_slice(alloc, &body.before)?),
        after: Sequence::new(Vec::from_slice(alloc, &body.after)?),
        initial_line: body.initial_line,
        final_line: body.final_line,
        types: Sequence::new(variant.types),
        pre_expon: variant.pre_expon,
        pe_ratio: variant.pe_ratio,
        activation: variant.activation,
        proximity: variant.proximity,
    })
}

/// The steps so far, and one more.
fn pushed(mut steps: Vec<StepPart>, step: StepPart) -> Result<Vec<StepPart>, OutOfMemory>
    ensures { IfOk result (λ all. all.items ≡ steps.items ++ step ∷ []) }
{
    steps.push(step)?;
    Ok(steps)
}

/// The steps so far, and that of one variant more.
fn with_next(
    alloc: Global,
    listing: Result<Listing, LineFault>,
    variant: Result<Variant, LineFault>,
) -> Result<Result<Listing, LineFault>, OutOfMemory>
    ensures { IfOk result (λ all. (text : List ℕ) → value_map (listing_at text) all
        ≡ with_next step_with (value_map (listing_at text) listing) (value_map (variant_at text) variant)) }
{
    match both(listing, variant) {
        Ok(((steps, body), variant)) => {
            let step = step_with(alloc, &body, variant)?;
            Ok(Ok((pushed(steps, step)?, body)))
        }
        Err(fault) => Ok(Err(fault)),
    }
}

/// The steps so far, and those of some variants of a step.
fn with_variants(
    alloc: Global,
    bytes: &[u8],
    variants: &[Block],
    named: bool,
    common: &CommonWords,
    sites: Option<u64>,
    mut listing: Result<Listing, LineFault>,
) -> Result<Result<Listing, LineFault>, OutOfMemory>
    ensures { IfOk result (λ all. value_map (λ found. steps_at bytes.now found.0.items) all
        ≡ with_variants step_with (value_map (listing_at bytes.now) listing)
        (all_of (map (variant_within (common_at bytes.now common.now) named sites) (map (block_at bytes.now) variants.now)))) }
{
    for variant in variants {
        let values = variant_values(alloc, bytes, variant, named, common, sites)?;
        listing = with_next(alloc, listing, values)?;
    }
    Ok(listing)
}

/// The steps so far.
fn without_body(listing: Result<Listing, LineFault>) -> Result<Vec<StepPart>, LineFault>
    ensures { result ≡ value_map (λ found. found.0) listing }
{
    match listing {
        Ok((steps, _)) => Ok(steps),
        Err(fault) => Err(fault),
    }
}

/// The block has variants.
fn has_variants(section: &Section) -> bool
    ensures { (text : List ℕ) → result ≡ has_variants (section_at text section.now) }
{
    !section.variants.is_empty()
}

/// The steps so far, and those of a block and its variants.
fn with_section(
    alloc: Global,
    bytes: &[u8],
    section: &Section,
    steps: Result<Vec<StepPart>, LineFault>,
) -> Result<Result<Vec<StepPart>, LineFault>, OutOfMemory>
    ensures { IfOk result (λ all. value_map (λ list. steps_at bytes.now list.items) all
        ≡ joined (value_map (λ list. steps_at bytes.now list.items) steps) (steps_of (section_at bytes.now section.now))) }
{
    let block = &section.block;
    let sites = sites_in(bytes, block);
    let body = body_in(alloc, bytes, block, sites)?;
    let common = common_words(alloc, bytes, block, sites.ok())?;
    let own = own_fault(bytes, block, &common, sites.ok());
    let listing = both(steps, with_fault(own, body));
    let named = has_variants(section);
    let variants = variants_of(section);
    let all = with_variants(alloc, bytes, variants, named, &common, sites.ok(), listing)?;
    Ok(without_body(all))
}

/// The steps so far, and those of some blocks.
pub(crate) fn with_sections(
    alloc: Global,
    bytes: &[u8],
    sections: &[Section],
    mut steps: Result<Vec<StepPart>, LineFault>,
) -> Result<Result<Vec<StepPart>, LineFault>, OutOfMemory>
    ensures { IfOk result (λ all. value_map (λ list. steps_at bytes.now list.items) all
        ≡ joined (value_map (λ list. steps_at bytes.now list.items) steps)
        (value_map (flat_map (λ found. found)) (all_of (map steps_of (map (section_at bytes.now) sections.now))))) }
{
    for section in sections {
        steps = with_section(alloc, bytes, section, steps)?;
    }
    Ok(steps)
}
