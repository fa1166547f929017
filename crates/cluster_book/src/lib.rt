//! The book of the cluster instances on a lattice (Nielsen et al. 2013): which are at each anchor, the site of vertex 1 of
//! their clusters, and the sum of their shares, which is the energy of the configuration that they were found in.
//!
//! `ClusterBook::replace` puts the list of one anchor in the place of the old one. The total is kept by the type: it is
//! the sum over all lists, and reading it costs nothing. Replacing costs what the two lists cost, whatever the size of the
//! lattice.
//!
//! The crate builds on `pattern_types` for placements.
#![tactic(auto)]

mod book;
mod found;
mod sum;

pub use book::ClusterBook;
pub use found::{AnchorFound, Found};
