use kmc_base::{Sequence, SiteId, SpeciesId};
use rate_rules::Chemistry;
use run_plan::Plan;
use species_book::SpeciesBook;

/// An adsorbate that is on the lattice at the opening of a run.
#[derive(Debug, Drop)]
pub struct Seeded {
    /// Its species.
    pub species: SpeciesId,
    /// Its sites, in the order of its dentates.
    pub sites: Sequence<SiteId>,
}

/// All that a run is made from.
#[derive(Debug, Drop)]
pub struct Deck {
    /// The lattice, the processes and the cluster expansion, and the temperature.
    pub chem: Chemistry,
    /// The random seed, the end of the run, and when it is sampled.
    pub plan: Plan,
    /// The names of the gas species and the surface species, and the dentates of the latter.
    pub book: SpeciesBook,
    /// The name of each process, in the order of the processes.
    pub process_names: Sequence<Sequence<u8>>,
    /// The adsorbates at the opening. So far there are none: every run opens on a vacant lattice.
    pub opening: Sequence<Seeded>,
}
