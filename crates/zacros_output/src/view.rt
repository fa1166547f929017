use lattice_core::Config;

/// What a sample shows beside its number and its time: the state of the run after an event.
#[derive(Clone, Copy)]
pub struct View<'a> {
    /// The number of the event.
    pub event: u64,
    /// The energy of the lattice, in neV.
    pub energy: i128,
    /// What is on the sites.
    pub config: &'a Config,
    /// The gas molecules of each species produced since the start, less those consumed.
    pub gas: &'a [i64],
    /// How often each process has fired.
    pub counts: &'a [u64],
}
