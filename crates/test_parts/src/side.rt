ghost use Rattle.std.specs.Prelude.{◌≡◌, IfSome, IsTrue, slice_index};
ghost use Rattle.std.specs.List.{All};
ghost use Rattle.firing.specs.Soundness.{HasDentates, HasItsDentates, IsSoundSide, IsWholeWant};
ghost use Rattle.pattern_types.specs.Edges.{edge_set, are_adjacent};

use crate::entity::{size_of, wants_each};
use pattern_types::{Pattern, Wanted};

/// Whether a vertex wants a vacant site, or a dentate of a whole entity, by the dentates of each species.
fn is_whole_at(wanted: &[Wanted], dentates: &[u8], vertex: Wanted) -> bool
    ensures whole { IsTrue result → IsWholeWant wanted.now vertex }
    ensures dentates { IsTrue result → HasItsDentates (λ s. slice_index dentates.now s) wanted.now vertex }
{
    match vertex {
        Wanted::Any => false,
        Wanted::Vacant => true,
        Wanted::Holds {
            entity,
            species,
            dentate,
        } => {
            let place = usize::from(species.0);
            if place >= dentates.len() {
                return false;
            }
            let size = dentates[place];
            size_of(wanted, entity) == usize::from(size)
                && 1 <= dentate
                && dentate <= size
                && wants_each(wanted, entity, species, size)
        }
    }
}

/// Whether the entities of a side are whole.
fn is_whole(wanted: &[Wanted], dentates: &[u8]) -> bool
    ensures whole { IsTrue result → All (IsWholeWant wanted.now) wanted.now }
    ensures dentates { IsTrue result → All (HasItsDentates (λ s. slice_index dentates.now s) wanted.now) wanted.now }
{
    for vertex in wanted {
        if !is_whole_at(wanted, dentates, *vertex) {
            return false;
        }
    }
    true
}

/// A side of a step whose entities are whole, of species with these numbers of dentates; `None` where they are not, or
/// where it is no pattern.
pub fn whole_side(
    edges: &[(u8, u8)],
    types: &[Option<u16>],
    wanted: &[Wanted],
    dentates: &[u8],
) -> Option<Pattern>
    ensures edges { IfSome result (λ side. side.edges ≡ edge_set (are_adjacent edges.now)) }
    ensures types { IfSome result (λ side. side.types ≡ types.now) }
    ensures wanted { IfSome result (λ side. side.wanted ≡ wanted.now) }
    ensures sound { IfSome result IsSoundSide }
    ensures dentates { IfSome result (HasDentates (λ s. slice_index dentates.now s)) }
{
    if types.len() != wanted.len() || !is_whole(wanted, dentates) {
        return None;
    }
    let Ok(side) = Pattern::new(edges, types, wanted) else {
        return None;
    };
    prove!(0 < side.len());
    Some(side)
}
