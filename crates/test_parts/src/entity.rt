ghost use Rattle.std.specs.Prelude.{◌≡◌, ◌≤◌, ℕ, Contains, IsTrue};
ghost use Rattle.firing.specs.Entities.{is_of, size_of};

use kmc_base::SpeciesId;
use pattern_types::Wanted;

/// Whether a vertex wants a dentate of an entity.
fn is_dentate(vertex: Wanted, entity: u8, species: SpeciesId, dentate: u8) -> bool
    ensures { IsTrue result → vertex ≡ Wanted.Holds entity species dentate }
{
    match vertex {
        Wanted::Holds {
            entity: e,
            species: s,
            dentate: d,
        } => e == entity && s.0 == species.0 && d == dentate,
        Wanted::Any | Wanted::Vacant => false,
    }
}

/// Whether some vertex wants a dentate of an entity.
fn wants(wanted: &[Wanted], entity: u8, species: SpeciesId, dentate: u8) -> bool
    ensures { IsTrue result → Contains wanted.now (Wanted.Holds entity species dentate) }
{
    for vertex in wanted {
        if is_dentate(*vertex, entity, species, dentate) {
            return true;
        }
    }
    false
}

/// Whether some vertex wants each dentate of an entity, of so many.
pub(crate) fn wants_each(wanted: &[Wanted], entity: u8, species: SpeciesId, dentates: u8) -> bool
    ensures { IsTrue result → (d : ℕ) → 1 ≤ d → d ≤ dentates → Contains wanted.now (Wanted.Holds entity species d) }
{
    for place in 0..dentates {
        if !wants(wanted, entity, species, place + 1) {
            return false;
        }
    }
    true
}

/// Whether a vertex names an entity.
fn is_of(vertex: Wanted, entity: u8) -> bool
    ensures { result ≡ is_of entity vertex }
{
    match vertex {
        Wanted::Holds { entity: e, .. } => e == entity,
        Wanted::Any | Wanted::Vacant => false,
    }
}

/// How many vertices name an entity.
pub(crate) fn size_of(wanted: &[Wanted], entity: u8) -> usize
    ensures { result ≡ size_of entity wanted.now }
{
    let mut size = 0;
    for vertex in wanted {
        if is_of(*vertex, entity) {
            size += 1;
        }
    }
    size
}
