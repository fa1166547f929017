use kmc_base::{Entry, Sequence, SiteId};

/// The entries of all instances with one anchor: the site of vertex 1 of their placements.
#[derive(Debug, Drop)]
pub struct AnchorEntries {
    /// The anchor.
    pub anchor: SiteId,
    /// The entries, in rising order of their codes.
    pub entries: Sequence<Entry>,
}
