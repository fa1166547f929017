use kmc_base::{ClusterId, Sequence, SiteId};
use pattern_types::Placement;

/// An instance of a cluster: the cluster at a placement that matches.
#[derive(Clone, Copy, Debug, PartialEq, Eq)]
pub struct Found {
    /// The cluster.
    pub cluster: ClusterId,
    /// The sites of its vertices.
    pub placement: Placement,
}

/// All cluster instances with one anchor.
#[derive(Debug, Drop)]
pub struct AnchorFound {
    /// The anchor: the site of vertex 1.
    pub anchor: SiteId,
    /// The instances.
    pub found: Sequence<Found>,
}
