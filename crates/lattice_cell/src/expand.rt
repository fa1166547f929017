ghost use Rattle.std.specs.Prelude.{◌≡◌, ◌*◌, ◌≤◌, ◌⊎◌, All, IfOk, IfErr, Some, None, length, vec_len};
ghost use Rattle.lattice_core.specs.declared.fault.GraphFault.TheVariants.{OutOfMemory};
ghost use Rattle.lattice_core.specs.Fault.{first_fault, lattice_from};
ghost use Rattle.lattice_core.specs.SiteList.{number_lists};
ghost use Rattle.lattice_cell.specs.Cells.{IsInCell};
ghost use Rattle.lattice_cell.specs.Default.{default_lattice};
ghost use Rattle.lattice_cell.specs.Faultless.{IsFaultlessCell};
ghost use Rattle.lattice_cell.specs.Periodic.{periodic_lattice};

use crate::cell::{Join, Toward};
use crate::neighbours::neighbour_lists;
use crate::repeats::Repeats;
use kmc_base::{MAX_SITES, SiteId};
use lattice_core::{Graph, GraphFault};
use std::alloc::Global;

/// A default lattice, by its name in a deck. Each of its cells has one site, of type 1.
///
/// That there is one site in a cell is a rule of kmc, also where the Zacros manual has another cell.
#[derive(Clone, Copy, Debug, PartialEq, Eq, Hash)]
pub enum DefaultLattice {
    /// `rectangular_periodic`: each site is joined to those of the cells north and east of it, and so has four
    /// neighbours where there are at least three cells in each direction.
    Rectangular,
    /// `hexagonal_periodic`: it is joined to that of the northeast cell too, and so has six.
    Hexagonal,
}

const NORTH: Join = Join {
    from: 0,
    to: 0,
    toward: Toward::North,
};

const EAST: Join = Join {
    from: 0,
    to: 0,
    toward: Toward::East,
};

const NORTHEAST: Join = Join {
    from: 0,
    to: 0,
    toward: Toward::Northeast,
};

/// The lattice of a cell that is repeated `nx` times in the first direction and `ny` times in the second, with periodic
/// boundaries, or the first fault of the neighbours.
///
/// `types` has the type of each site of the cell. All is counted from 0: the cell at `a` in the first direction and `b`
/// in the second has number `a * ny + b`, and its site `k` has number `cell * types.len() + k`. `OutOfMemory` says
/// nothing about the neighbours; where no join joins a site to itself and no site is crowded, it is the only error.
///
/// Its work grows with the number of cells times the number of different joins.
pub fn expand_periodic(
    alloc: Global,
    nx: u32,
    ny: u32,
    types: &[u16],
    joins: &[Join],
) -> Result<Graph, GraphFault>
    requires has_a_site { 1 ≤ nx * ny * length types.now }
    requires within_limit { nx * ny * length types.now ≤ MAX_SITES }
    requires ends { All (IsInCell (length types.now)) joins.now }
    ensures sound { IfOk result (λ _. first_fault (periodic_lattice nx ny types.now joins.now).neighbours ≡ None) }
    ensures graph { IfOk result (λ g. g ≡ periodic_lattice nx ny types.now joins.now) }
    ensures fault { IfErr result (λ e. (e ≡ OutOfMemory)
        ⊎ (first_fault (periodic_lattice nx ny types.now joins.now).neighbours ≡ Some e)) }
    ensures faultless { IsFaultlessCell nx ny (length types.now) joins.now → IfErr result (λ e. e ≡ OutOfMemory) }
{
    let repeats = Repeats {
        nx,
        ny,
        sites: types.len() as u32,
    };
    let site_types = repeats.types(alloc, types)?;
    let lists = neighbour_lists(alloc, repeats, joins)?;
    Graph::new(site_types, lists)
}

/// A default lattice of `nx` times `ny` sites, or the first fault of the neighbours.
///
/// A direction with one site makes each site its own neighbour, which is a fault; with two or more in each direction there
/// is none. `OutOfMemory` says nothing of the neighbours.
pub fn expand_default(
    alloc: Global,
    kind: DefaultLattice,
    nx: u32,
    ny: u32,
) -> Result<Graph, GraphFault>
    requires has_a_site { 1 ≤ nx * ny }
    requires within_limit { nx * ny ≤ MAX_SITES }
    ensures sound { IfOk result (λ _. first_fault (default_lattice kind nx ny).neighbours ≡ None) }
    ensures graph { IfOk result (λ g. g ≡ default_lattice kind nx ny) }
    ensures fault { IfErr result (λ e. (e ≡ OutOfMemory)
        ⊎ (first_fault (default_lattice kind nx ny).neighbours ≡ Some e)) }
    ensures faultless { (2 ≤ nx) × (2 ≤ ny) → IfErr result (λ e. e ≡ OutOfMemory) }
{
    match kind {
        DefaultLattice::Rectangular => expand_periodic(alloc, nx, ny, &[1], &[NORTH, EAST]),
        DefaultLattice::Hexagonal => {
            expand_periodic(alloc, nx, ny, &[1], &[NORTH, EAST, NORTHEAST])
        }
    }
}

/// The lattice of these types and neighbours, one of each for each site, or its first fault.
///
/// A neighbour that is listed twice counts once. It takes no memory.
pub fn expand_explicit(types: Vec<u16>, neighbours: Vec<Vec<SiteId>>) -> Result<Graph, GraphFault>
    requires same_length { vec_len types ≡ vec_len neighbours }
    requires has_a_site { 1 ≤ vec_len types }
    requires within_limit { vec_len types ≤ MAX_SITES }
    ensures sound { IfOk result (λ _. first_fault (number_lists neighbours.items) ≡ None) }
    ensures graph { IfOk result (λ g. g ≡ lattice_from types.items (number_lists neighbours.items)) }
    ensures fault { IfErr result (λ e. first_fault (number_lists neighbours.items) ≡ Some e) }
{
    Graph::new(types, neighbours)
}
