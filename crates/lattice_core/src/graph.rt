ghost use Rattle.std.specs.Prelude.{◌≡◌, ◌<◌, ◌≤◌, None, Some, IfOk, IfErr, IfSome, length, vec_len, is_some, slice_index};
ghost use Rattle.std.specs.Option.{option_map};
ghost use Rattle.std.specs.List.Sorted.{IsStrictlyIncreasing};
ghost use Rattle.lattice_core.specs.Fault.{first_fault, lattice_from};
ghost use Rattle.lattice_core.specs.Lattice.{site_count, neighbours_of, is_neighbour, slot_in, site_in_slot, IsLattice};
ghost use Rattle.lattice_core.specs.SiteList.{site_numbers, number_lists, AreMerged};

use crate::check::first_fault;
use crate::fault::GraphFault;
use crate::site_list::{list_at, place_of, site_in, sort_sites};
use kmc_base::{MAX_SITES, SiteId};
use std::marker::Model;

/// The greatest number of neighbours of a site.
pub const MAX_NEIGHBOURS: usize = 32;

/// A lattice: sites with types, and for each site its neighbours.
///
/// Neighbourhood is symmetric, no site is its own neighbour, and each list of neighbours rises.
#[derive(Debug, Drop)]
pub struct Graph {
    types: Vec<u16>,
    neighbours: Vec<Vec<SiteId>>,
}

impl Model for Graph {
    ghost use Rattle.lattice_core.specs.Lattice.{Lattice, IsLattice};
    ghost use Rattle.lattice_core.specs.SiteList.{number_lists};

    ghost Value = { Lattice };

    ghost view = { λ g. record { types = g.types.items; neighbours = number_lists g.neighbours.items } };

    ghost invariant = { λ g. IsLattice (record { types = g.types.items; neighbours = number_lists g.neighbours.items }) };
}

/// Puts each list into rising order, each site once.
fn sort_lists(lists: &mut [Vec<SiteId>])
    ensures { AreMerged (number_lists lists.old) (number_lists lists.new) }
{
    for i in 0..lists.len() {
        sort_sites(&mut lists[i]);
    }
}

impl Graph {
    /// The lattice of these types and neighbours, one of each for each site, or its first fault.
    ///
    /// A neighbour that is listed twice counts once. It takes no memory, and never answers `OutOfMemory`.
    pub fn new(types: Vec<u16>, mut neighbours: Vec<Vec<SiteId>>) -> Result<Graph, GraphFault>
        requires same_length { vec_len types ≡ vec_len neighbours }
        requires has_a_site { 1 ≤ vec_len types }
        requires within_limit { vec_len types ≤ MAX_SITES }
        ensures sound { IfOk result (λ _. first_fault (number_lists neighbours.items) ≡ None) }
        ensures graph { IfOk result (λ g. g ≡ lattice_from types.items (number_lists neighbours.items)) }
        ensures fault { IfErr result (λ e. first_fault (number_lists neighbours.items) ≡ Some e) }
    {
        sort_lists(&mut neighbours);
        match first_fault(&neighbours) {
            Some(fault) => Err(fault),
            None => Ok(Graph { types, neighbours }),
        }
    }

    /// How many sites it has, from 1 to `MAX_SITES`.
    pub fn len(&self) -> u32
        ensures count { result ≡ site_count self.now }
        ensures lattice { IsLattice self.now }
    {
        self.types.len() as u32
    }

    /// The neighbours of a site, in rising order.
    pub fn neighbours(&self, s: SiteId) -> &[SiteId]
        requires { s.0 < site_count self.now }
        ensures value { site_numbers result.now ≡ neighbours_of self.now s.0 }
        ensures rising { IsStrictlyIncreasing (site_numbers result.now) }
        ensures few { length result.now ≤ MAX_NEIGHBOURS }
    {
        list_at(&self.neighbours, s)
    }

    /// The type of a site, as it was given to `new`.
    pub fn site_type(&self, s: SiteId) -> u16
        requires { s.0 < site_count self.now }
        ensures { result ≡ slice_index self.now.types s.0 }
    {
        self.types[s.0 as usize]
    }

    /// The slot of site `t` among the neighbours of site `s`: its place, from 0, in their rising order. None where it is
    /// no neighbour.
    pub fn slot_of(&self, s: SiteId, t: SiteId) -> Option<u8>
        requires site { s.0 < site_count self.now }
        ensures value { result ≡ slot_in self.now s.0 t.0 }
        ensures neighbour { is_some result ≡ is_neighbour self.now s.0 t.0 }
        ensures inverse { IfSome result (λ slot. site_in_slot self.now s.0 slot ≡ Some t.0) }
    {
        let place = place_of(self.neighbours(s), t)?;
        Some(place as u8)
    }

    /// The neighbour in a slot of a site, or None where the site has no more than `slot` neighbours.
    pub fn at_slot(&self, s: SiteId, slot: u8) -> Option<SiteId>
        requires site { s.0 < site_count self.now }
        ensures value { option_map (λ t. t.0) result ≡ site_in_slot self.now s.0 slot }
        ensures inverse { IfSome result (λ t. slot_in self.now s.0 t.0 ≡ Some slot) }
    {
        site_in(self.neighbours(s), slot as usize)
    }
}
