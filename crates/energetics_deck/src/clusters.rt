//! The clusters of a file, one after another. Once a fault is found none is kept.

ghost use Rattle.std.specs.Prelude.{◌≡◌, ◌∷◌, ◌++◌, ℕ, [], IfOk, List, map};
ghost use Rattle.std.specs.List.{flat_map};
ghost use Rattle.deck_shape.specs.Blocks.{block_at, section_at};
ghost use Rattle.deck_words.specs.Faults.{all_of, value_map};
ghost use Rattle.energetics_deck.specs.Clusters.{cluster_with, clusters_of, variant_within};
ghost use Rattle.energetics_deck.specs.Shares.{AreInRange, IsEnergy, IsMultiplicity};
ghost use Rattle.energetics_deck.specs.Views.{cluster_at, clusters_at, common_at, listing_at, pattern_at, variant_at};
ghost use Rattle.pattern_rows.specs.Listings.{joined, with_next, with_variants};

use crate::part::ClusterPart;
use crate::pattern::{Pattern, pattern_in};
use crate::shares::share_of;
use crate::variants::{CommonWords, Variant, common_words, own_fault, variant_values};
use deck_shape::{Block, Section};
use deck_words::{LineFault, both, with_fault};
use kmc_base::{OutOfMemory, Sequence};
use pattern_rows::{sites_in, variants_of};
use std::alloc::Global;

/// The clusters so far, and the pattern of those that follow.
type Listing = (Vec<ClusterPart>, Pattern);

/// The cluster of a variant.
fn cluster_with(
    alloc: Global,
    pattern: &Pattern,
    variant: Variant,
) -> Result<ClusterPart, OutOfMemory>
    requires { AreInRange variant.energy variant.multiplicity }
    ensures { IfOk result (λ cluster. (text : List ℕ) → cluster_at text cluster ≡ cluster_with (pattern_at text pattern.now) (variant_at text variant)) }
{
    Ok(ClusterPart {
        sites: pattern.sites,
        edges: Sequence::new(Vec::from_slice(alloc, &pattern.edges)?),
        rows: Sequence::new(Vec::from_slice(alloc, &pattern.rows)?),
        types: Sequence::new(variant.types),
        share: share_of(variant.energy, variant.multiplicity),
    })
}

/// The clusters so far, and one more.
fn pushed(
    mut clusters: Vec<ClusterPart>,
    cluster: ClusterPart,
) -> Result<Vec<ClusterPart>, OutOfMemory>
    ensures { IfOk result (λ all. all.items ≡ clusters.items ++ cluster ∷ []) }
{
    clusters.push(cluster)?;
    Ok(clusters)
}

/// The clusters so far, and that of one variant more.
fn with_next(
    alloc: Global,
    listing: Result<Listing, LineFault>,
    variant: Result<Variant, LineFault>,
) -> Result<Result<Listing, LineFault>, OutOfMemory>
    requires { IfOk variant (λ values. AreInRange values.energy values.multiplicity) }
    ensures { IfOk result (λ all. (text : List ℕ) → value_map (listing_at text) all
        ≡ with_next cluster_with (value_map (listing_at text) listing) (value_map (variant_at text) variant)) }
{
    match both(listing, variant) {
        Ok(((clusters, pattern), variant)) => {
            let cluster = cluster_with(alloc, &pattern, variant)?;
            Ok(Ok((pushed(clusters, cluster)?, pattern)))
        }
        Err(fault) => Ok(Err(fault)),
    }
}

/// The clusters so far, and those of some variants of a cluster.
fn with_variants(
    alloc: Global,
    bytes: &[u8],
    variants: &[Block],
    common: &CommonWords,
    sites: Option<u64>,
    mut listing: Result<Listing, LineFault>,
) -> Result<Result<Listing, LineFault>, OutOfMemory>
    requires multiplicity { IfOk common.now.multiplicity IsMultiplicity }
    requires energy { IfOk common.now.energy IsEnergy }
    ensures { IfOk result (λ all. value_map (λ found. clusters_at bytes.now found.0.items) all
        ≡ with_variants cluster_with (value_map (listing_at bytes.now) listing)
        (all_of (map (variant_within (common_at bytes.now common.now) sites) (map (block_at bytes.now) variants.now)))) }
{
    for variant in variants {
        let values = variant_values(alloc, bytes, variant, common, sites)?;
        listing = with_next(alloc, listing, values)?;
    }
    Ok(listing)
}

/// The clusters so far.
fn without_pattern(listing: Result<Listing, LineFault>) -> Result<Vec<ClusterPart>, LineFault>
    ensures { result ≡ value_map (λ found. found.0) listing }
{
    match listing {
        Ok((clusters, _)) => Ok(clusters),
        Err(fault) => Err(fault),
    }
}

/// The clusters so far, and those of a block and its variants.
fn with_section(
    alloc: Global,
    bytes: &[u8],
    section: &Section,
    clusters: Result<Vec<ClusterPart>, LineFault>,
) -> Result<Result<Vec<ClusterPart>, LineFault>, OutOfMemory>
    ensures { IfOk result (λ all. value_map (λ list. clusters_at bytes.now list.items) all
        ≡ joined (value_map (λ list. clusters_at bytes.now list.items) clusters) (clusters_of (section_at bytes.now section.now))) }
{
    let block = &section.block;
    let sites = sites_in(bytes, block);
    let pattern = pattern_in(alloc, bytes, block, sites)?;
    let common = common_words(alloc, bytes, block, sites.ok())?;
    let own = own_fault(bytes, block, &common, sites.ok());
    let listing = both(clusters, with_fault(own, pattern));
    let variants = variants_of(section);
    let all = with_variants(alloc, bytes, variants, &common, sites.ok(), listing)?;
    Ok(without_pattern(all))
}

/// The clusters so far, and those of some blocks.
pub(crate) fn with_sections(
    alloc: Global,
    bytes: &[u8],
    sections: &[Section],
    mut clusters: Result<Vec<ClusterPart>, LineFault>,
) -> Result<Result<Vec<ClusterPart>, LineFault>, OutOfMemory>
    ensures { IfOk result (λ all. value_map (λ list. clusters_at bytes.now list.items) all
        ≡ joined (value_map (λ list. clusters_at bytes.now list.items) clusters)
        (value_map (flat_map (λ found. found)) (all_of (map clusters_of (map (section_at bytes.now) sections.now))))) }
{
    for section in sections {
        clusters = with_section(alloc, bytes, section, clusters)?;
    }
    Ok(clusters)
}
