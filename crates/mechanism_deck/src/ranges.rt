//! The ranges of the numbers of a mechanism file: the definitions and the reader go by these.

use deck_values::{ScaledRange, WholeRange};
use kmc_base::MAX_SPECIES;

/// The magnitude of a change of a gas species, from 1 to 8.
pub const GAS_CHANGE: WholeRange = WholeRange { least: 1, most: 8 };

/// The greatest number of changes that are kept of a step: one more than there can be gas species.
pub const MOST_CHANGES: usize = MAX_SPECIES + 1;

/// A proximity factor in units of 10^-9, from 0 to 1.
pub const PROXIMITY: ScaledRange = ScaledRange {
    places: 9,
    least: 0,
    most: 1_000_000_000,
};

/// The proximity factor of a step that states none, in units of 10^-9: one half.
pub const DEFAULT_PROXIMITY: u32 = 500_000_000;
