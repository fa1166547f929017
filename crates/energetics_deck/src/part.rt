use deck_shape::Name;
use kmc_base::Sequence;
use pattern_rows::StateRow;

/// A cluster of an energetics file: a block without variants, or a variant.
#[derive(Debug, Drop)]
pub struct ClusterPart {
    /// How many sites it has, from 1 to 8.
    pub sites: u8,
    /// The edges between its sites, which are numbered from 1: each once, the lesser site first, in rising order.
    pub edges: Sequence<(u8, u8)>,
    /// What it wants of each site.
    pub rows: Sequence<StateRow>,
    /// The type of each site, by its number or its name; none where any types will do.
    pub types: Sequence<Name>,
    /// What each placement adds to the energy, in neV: `cluster_eng` over `graph_multiplicity`, rounded half away from zero.
    pub share: i64,
}

/// The values of an energetics file.
#[derive(Debug, Drop)]
pub struct EnergeticsPart {
    /// The clusters in the order of the file, one for each variant; at most 256.
    pub clusters: Sequence<ClusterPart>,
    /// The type words of the file, in order, also those that no variant needs.
    pub type_words: Sequence<Name>,
}
