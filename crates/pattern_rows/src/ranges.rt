//! The ranges of the numbers of patterns: the definitions and the reader go by these.

use deck_values::WholeRange;
use pattern_types::MAX_VERTICES;

/// A number of sites of a cluster or a step, from 1 to 8.
pub const VERTEX_COUNT: WholeRange = WholeRange {
    least: 1,
    most: MAX_VERTICES as u64,
};

/// The number of an entity within a pattern, from 1 to 8.
pub const ENTITY: WholeRange = WholeRange {
    least: 1,
    most: MAX_VERTICES as u64,
};
