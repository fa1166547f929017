//! The clusters of an energetics file, with species and site types by their numbers.

ghost use Rattle.std.specs.Prelude.{◌≡◌, ◌≤◌, IfOk, length, map};
ghost use Rattle.std.specs.List.{AllByRecursion};
ghost use Rattle.deck_words.specs.Faults.{all_of, value_map};
ghost use Rattle.energetics_deck.specs.Soundness.{IsSoundCluster, IsSoundPart};
ghost use Rattle.energetics_deck.specs.Views.{cluster_at, values_at};
ghost use Rattle.site_rows.specs.declared.type_word.TheConstants.{MAX_SITE_TYPES};
ghost use Rattle.deck_join.specs.Clusters.{cluster_in, cluster_with, clusters_in};
ghost use Rattle.deck_join.specs.SoundValues.{IsPatternFor};

use crate::pattern::pattern_with;
use deck_values::with_next;
use deck_words::{LineFault, with_fault};
use energetics_deck::{ClusterPart, EnergeticsPart};
use kmc_base::OutOfMemory;
use lattice_deck::unknown_type;
use pattern_names::all_wanted;
use pattern_types::Wanted;
use rate_rules::Cluster;
use site_rows::TypeIndex;
use species_book::SpeciesBook;
use std::alloc::Global;

/// The cluster of a deck, by what it wants of its sites.
fn cluster_with(
    alloc: Global,
    bytes: &[u8],
    index: &TypeIndex,
    cluster: &ClusterPart,
    wanted: &[Wanted],
) -> Result<Cluster, OutOfMemory>
    requires few_types { length index.now ≤ MAX_SITE_TYPES }
    requires pattern { let values = cluster_at bytes.now cluster.now
        in IsPatternFor values.pattern.sites values.pattern.edges values.types wanted.now }
    ensures { IfOk result (λ found. found ≡ cluster_with index.now (cluster_at bytes.now cluster.now) wanted.now) }
{
    let edges = cluster.edges.as_slice();
    let types = cluster.types.as_slice();
    Ok(Cluster {
        pattern: pattern_with(alloc, bytes, index, cluster.sites, edges, types, wanted)?,
        share: cluster.share,
    })
}

/// The cluster of a deck, or the earliest fault of its rows.
fn cluster_in(
    alloc: Global,
    bytes: &[u8],
    book: &SpeciesBook,
    index: &TypeIndex,
    cluster: &ClusterPart,
) -> Result<Result<Cluster, LineFault>, OutOfMemory>
    requires few_types { length index.now ≤ MAX_SITE_TYPES }
    requires sound { IsSoundCluster (cluster_at bytes.now cluster.now) }
    ensures { IfOk result (λ found. found ≡ cluster_in book.now index.now (cluster_at bytes.now cluster.now)) }
{
    match all_wanted(alloc, bytes, book, cluster.rows.as_slice())? {
        Ok(wanted) => Ok(Ok(cluster_with(alloc, bytes, index, cluster, wanted.as_slice())?)),
        Err(fault) => Ok(Err(fault)),
    }
}

/// All clusters, or the earliest fault of their rows.
fn all_clusters(
    alloc: Global,
    bytes: &[u8],
    book: &SpeciesBook,
    index: &TypeIndex,
    clusters: &[ClusterPart],
) -> Result<Result<Vec<Cluster>, LineFault>, OutOfMemory>
    requires few_types { length index.now ≤ MAX_SITE_TYPES }
    requires sound { AllByRecursion IsSoundCluster (map (cluster_at bytes.now) clusters.now) }
    ensures { IfOk result (λ found. value_map (λ all. all.items) found ≡ all_of (map (cluster_in book.now index.now) (map (cluster_at bytes.now) clusters.now))) }
{
    let mut all = Ok(Vec::new(alloc));
    for cluster in clusters {
        all = with_next(all, cluster_in(alloc, bytes, book, index, cluster)?)?;
    }
    Ok(all)
}

/// The clusters of a file, or the earliest fault of a name in it.
pub(crate) fn clusters_in(
    alloc: Global,
    bytes: &[u8],
    book: &SpeciesBook,
    type_names: &[Vec<u8>],
    part: &EnergeticsPart,
) -> Result<Result<Vec<Cluster>, LineFault>, OutOfMemory>
    requires few_types { length type_names.now ≤ MAX_SITE_TYPES }
    requires sound { IsSoundPart (values_at bytes.now part.now) }
    ensures { IfOk result (λ found. value_map (λ all. all.items) found
        ≡ clusters_in book.now (map (λ name. name.items) type_names.now) (values_at bytes.now part.now)) }
{
    let index = TypeIndex::new(alloc, type_names)?;
    let clusters = all_clusters(alloc, bytes, book, &index, part.clusters.as_slice())?;
    let unknown = unknown_type(alloc, bytes, type_names, part.type_words.as_slice())?;
    Ok(with_fault(unknown, clusters))
}
