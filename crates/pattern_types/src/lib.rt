//! The patterns of sites that energetic clusters and elementary steps are made of: vertices that ask
//! for a type of site and want a state of it, and edges between them; and placements, the sites on
//! which the vertices of a pattern may fall.
//!
//! A pattern is sound by its type: it has one to eight vertices, is connected, and no entity of it
//! names a dentate twice or two species. Its vertices have one order, in which each but the first has
//! a parent, an earlier vertex that it is adjacent to: an edge joins the two.
//!
//! Two calls need no pattern: whether edges connect the vertices, and the list of the edges, each once.
//!
//! `kmc_base` has the numbers of sites and species.
#![tactic(auto)]

mod connected;
mod edges;
mod fault;
mod limits;
mod order;
mod pattern;
mod placement;
mod wanted;

pub use connected::is_connected;
pub use edges::distinct_edges;
pub use fault::PatternFault;
pub use limits::{MAX_CLUSTERS, MAX_PROCESSES, MAX_VERTICES};
pub use pattern::Pattern;
pub use placement::Placement;
pub use wanted::Wanted;
