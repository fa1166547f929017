//! The ranges of the numbers of the lattice file: the definitions and the reader go by these.

use deck_values::WholeRange;
use kmc_base::MAX_SITES;
use site_rows::MAX_SITE_TYPES;

/// A number of sites, of a cell or of a lattice: 1 to 65,536.
pub const SITE_COUNT: WholeRange = WholeRange {
    least: 1,
    most: MAX_SITES as u64,
};

/// A number of site types, from 1 to 1,000.
pub const TYPE_COUNT: WholeRange = WholeRange {
    least: 1,
    most: MAX_SITE_TYPES as u64,
};

/// How often a cell is repeated in one direction; the limit on sites bounds it further.
pub const REPEAT: WholeRange = WholeRange {
    least: 1,
    most: 18_446_744_073_709_551_615,
};
