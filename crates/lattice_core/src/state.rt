ghost use Rattle.std.specs.Prelude.{◌≡◌};
ghost use Rattle.lattice_core.specs.Config.{class_of};

use kmc_base::{SiteId, SpeciesId};

/// The state of a site.
#[derive(Clone, Copy, Debug, PartialEq, Eq, Hash)]
pub enum State {
    /// No adsorbate is there.
    Vacant,
    /// A dentate of an adsorbate is there.
    Holds {
        /// The species of the adsorbate.
        species: SpeciesId,
        /// Which dentate of it, from 1.
        dentate: u8,
        /// The site of its dentate 1. Two sites of one home hold the same adsorbate.
        home: SiteId,
    },
}

/// The class of a state: 0 where it is vacant, else 8 times the species plus the dentate.
pub(crate) fn class_of(state: State) -> u32
    ensures { result ≡ class_of state }
{
    match state {
        State::Vacant => 0,
        State::Holds {
            species,
            dentate,
            home: _,
        } => u32::from(species.0) * 8 + u32::from(dentate),
    }
}
