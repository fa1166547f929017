ghost use Rattle.std.specs.Prelude.{◌≡◌};

use kmc_base::{SiteId, SpeciesId};
use lattice_core::State;
use pattern_types::Wanted;

/// What a vertex wants that asks for a dentate of an adsorbate.
pub fn holds(entity: u8, species: u16, dentate: u8) -> Wanted
    ensures { result ≡ Wanted.Holds entity (record { 0 = species }) dentate }
{
    Wanted::Holds {
        entity,
        species: SpeciesId(species),
        dentate,
    }
}

/// The state of a site that holds a dentate of an adsorbate.
pub fn held(species: u16, dentate: u8, home: u32) -> State
    ensures { result ≡ State.Holds (record { 0 = species }) dentate (record { 0 = home }) }
{
    State::Holds {
        species: SpeciesId(species),
        dentate,
        home: SiteId(home),
    }
}
