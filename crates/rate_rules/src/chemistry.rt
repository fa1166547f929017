use kmc_base::Sequence;
use lattice_core::Graph;
use pattern_types::Pattern;

/// A cluster of the cluster expansion of the energy (Nielsen et al. 2013).
#[derive(Debug, Drop)]
pub struct Cluster {
    /// What the cluster asks of the sites that it is on.
    pub pattern: Pattern,
    /// What each placement adds to the energy, in neV: the energy of the cluster over its graph multiplicity.
    pub share: i64,
}

/// A process: an elementary step in one direction (Stamatakis and Vlachos 2011).
#[derive(Debug, Drop)]
pub struct Process {
    /// What it asks of the sites of an instance.
    pub before: Pattern,
    /// What is on them afterwards.
    pub after: Pattern,
    /// Whether it is the forward direction of its step.
    pub forward: bool,
    /// The energy in neV of the gas molecules that the forward step produces, less that of those it consumes.
    pub gas: i64,
    /// By how much it changes the number of molecules of gas species, by their places in `gas_specs_names`.
    pub gas_change: Sequence<(u8, i8)>,
    /// The base-2 logarithm of its factor in 1/s, in units of 2^-30; `None` where it has no rate.
    pub factor: Option<i64>,
    /// The activation energy of the forward step, in neV.
    pub activation: i64,
    /// The proximity factor, in 10^-9.
    pub proximity: u32,
}

/// A lattice, with the processes and the cluster expansion that rule what happens on it.
#[derive(Debug, Drop)]
pub struct Chemistry {
    /// The lattice.
    pub graph: Graph,
    /// The processes, in deck order.
    pub processes: Sequence<Process>,
    /// The clusters, in deck order.
    pub clusters: Sequence<Cluster>,
    /// The temperature, in mK.
    pub temperature: u32,
    /// How far from the sites of a fired instance the anchors are of instances whose rates may have changed.
    pub radius: u32,
}
