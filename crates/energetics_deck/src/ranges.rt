//! The range of the graph multiplicity: the definitions and the reader go by it.

use deck_values::WholeRange;

/// The graph multiplicity of a cluster, from 1 to 1,000.
pub const MULTIPLICITY: WholeRange = WholeRange {
    least: 1,
    most: 1000,
};
