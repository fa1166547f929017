ghost use Rattle.std.specs.Prelude.{◌≡◌, ◌≤◌, length};
ghost use Rattle.firing.specs.Entities.{entity_sites, first_of, is_of, size_of};
ghost use Rattle.firing.specs.Sides.{is_dentate, site_of};
ghost use Rattle.lattice_core.specs.SiteList.{site_numbers};
ghost use Rattle.pattern_types.specs.Parts.{vertex_count};

use kmc_base::{SiteId, SpeciesId};
use pattern_types::{MAX_VERTICES, Pattern, Placement, Wanted};

/// Whether a vertex wants this dentate of an entity.
fn is_dentate(wanted: Wanted, entity: u8, dentate: u8) -> bool
    ensures { result ≡ is_dentate entity dentate wanted }
{
    match wanted {
        Wanted::Any | Wanted::Vacant => false,
        Wanted::Holds {
            entity: e,
            dentate: d,
            ..
        } => e == entity && d == dentate,
    }
}

/// Whether a vertex names an entity.
fn is_of(wanted: Wanted, entity: u8) -> bool
    ensures { result ≡ is_of entity wanted }
{
    match wanted {
        Wanted::Any | Wanted::Vacant => false,
        Wanted::Holds { entity: e, .. } => e == entity,
    }
}

/// The entity, with its species, of which a vertex wants dentate 1, if it wants one.
pub(crate) fn first_of(wanted: Wanted) -> Option<(u8, SpeciesId)>
    ensures { result ≡ first_of wanted }
{
    match wanted {
        Wanted::Any | Wanted::Vacant => None,
        Wanted::Holds {
            entity,
            species,
            dentate,
        } => {
            if dentate == 1 {
                Some((entity, species))
            } else {
                None
            }
        }
    }
}

/// The site of the vertex that wants this dentate of an entity, and site 0 where none does.
pub(crate) fn site_of(side: &Pattern, sites: &[SiteId], entity: u8, dentate: u8) -> SiteId
    requires { length sites.now ≡ vertex_count side.now }
    ensures { result.0 ≡ site_of entity dentate side.now.wanted (site_numbers sites.now) }
{
    for vertex in 1..side.len() + 1 {
        if is_dentate(side.wanted(vertex), entity, dentate) {
            return sites[usize::from(vertex) - 1];
        }
    }
    SiteId(0)
}

/// How many vertices name an entity.
fn size_of(side: &Pattern, entity: u8) -> u8
    ensures value { result ≡ size_of entity side.now.wanted }
    ensures few { result ≤ MAX_VERTICES }
{
    let mut size = 0;
    for vertex in 1..side.len() + 1 {
        if is_of(side.wanted(vertex), entity) {
            size += 1;
        }
    }
    size
}

/// The sites of an entity, in the order of its dentates.
pub(crate) fn entity_sites(side: &Pattern, sites: &[SiteId], entity: u8) -> Placement
    requires { length sites.now ≡ vertex_count side.now }
    ensures { site_numbers result ≡ entity_sites entity side.now.wanted (site_numbers sites.now) }
{
    let size = usize::from(size_of(side, entity));
    let mut own = [SiteId(0); MAX_VERTICES];
    for place in 0..size {
        own[place] = site_of(side, sites, entity, place as u8 + 1);
    }
    Placement::new(&own[..size])
}
