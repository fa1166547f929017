use kmc_base::Sequence;
use kmc_core::Stop;

/// What a run came to.
#[derive(Debug, Drop)]
pub struct Summary {
    /// The number of its last event, which is how many have fired.
    pub events: u64,
    /// The time of that event, in attoseconds.
    pub time: u128,
    /// The energy of the lattice at the end, in neV.
    pub energy: i128,
    /// The number of adsorbates of each surface species at the end.
    pub surface: Sequence<u64>,
    /// The gas molecules of each species produced since the start, less those consumed.
    pub gas: Sequence<i64>,
    /// Why the run ended.
    pub stop: Stop,
}
