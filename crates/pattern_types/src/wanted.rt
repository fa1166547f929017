ghost use Rattle.std.specs.Prelude.{◌≡◌};
ghost use Rattle.std.specs.List.{list_any};
ghost use Rattle.pattern_types.specs.Wants.{same_dentate, different_species, some_two};

use kmc_base::SpeciesId;

/// The state of a site that a vertex of a pattern wants (the rows of `lattice_state`, `initial` and
/// `final` in the Zacros manual).
#[derive(Clone, Copy, Debug, PartialEq, Eq, Hash)]
pub enum Wanted {
    /// Any state. It is written `& & &`, and no side of an elementary step has it.
    Any,
    /// A vacant site.
    Vacant,
    /// A site that holds a dentate of an adsorbate. Vertices that name one entity want one adsorbate,
    /// and vertices that name different entities want different ones.
    Holds {
        /// The name of the adsorbate within the pattern.
        entity: u8,
        /// The species of the adsorbate.
        species: SpeciesId,
        /// Which dentate of it, from 1.
        dentate: u8,
    },
}

// Whether two vertices want the same dentate of one entity.
fn is_same_dentate(a: &Wanted, b: &Wanted) -> bool
    ensures { result ≡ same_dentate a.now b.now }
{
    match (*a, *b) {
        (
            Wanted::Holds {
                entity,
                dentate,
                ..
            },
            Wanted::Holds {
                entity: other_entity,
                dentate: other_dentate,
                ..
            },
        ) => entity == other_entity && dentate == other_dentate,
        _ => false,
    }
}

// Whether two vertices want different species of one entity.
fn is_different_species(a: &Wanted, b: &Wanted) -> bool
    ensures { result ≡ different_species a.now b.now }
{
    match (*a, *b) {
        (
            Wanted::Holds {
                entity,
                species,
                ..
            },
            Wanted::Holds {
                entity: other_entity,
                species: other_species,
                ..
            },
        ) => entity == other_entity && species.0 != other_species.0,
        _ => false,
    }
}

// Whether a later vertex wants the same dentate of the first one's entity.
fn has_same_dentate(first: &Wanted, rest: &[Wanted]) -> bool
    ensures { result ≡ list_any (same_dentate first.now) rest.now }
{
    rest.iter().any(|later| is_same_dentate(first, later))
}

// Whether a later vertex wants another species of the first one's entity.
fn has_different_species(first: &Wanted, rest: &[Wanted]) -> bool
    ensures { result ≡ list_any (different_species first.now) rest.now }
{
    rest.iter().any(|later| is_different_species(first, later))
}

/// Whether an entity names a dentate at two vertices.
pub(crate) fn names_dentate_twice(wanted: &[Wanted]) -> bool
    ensures { result ≡ some_two same_dentate wanted.now }
{
    for (i, first) in wanted.iter().enumerate() {
        if has_same_dentate(first, &wanted[i + 1..]) {
            return true;
        }
    }
    false
}

/// Whether an entity names two species.
pub(crate) fn names_two_species(wanted: &[Wanted]) -> bool
    ensures { result ≡ some_two different_species wanted.now }
{
    for (i, first) in wanted.iter().enumerate() {
        if has_different_species(first, &wanted[i + 1..]) {
            return true;
        }
    }
    false
}
