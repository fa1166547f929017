use deck_shape::Name;
use kmc_base::Sequence;
use lattice_core::Graph;

/// The values of a lattice file.
#[derive(Debug, Drop)]
pub struct LatticePart {
    /// The sites with their types and neighbours.
    pub graph: Graph,
    /// The names of the site types, in order; the first is that of type 1.
    pub type_names: Sequence<Vec<u8>>,
    /// The type words of the file, in order. A site whose type word is no type has type 0 in the graph.
    pub type_words: Sequence<Name>,
}
