//! The lattice of a cell that is repeated, a default lattice, or the lattice of lists that are given: the three forms of
//! a lattice in the Zacros manual.
//!
//! `expand_periodic` repeats a cell of sites in two directions, with periodic boundaries, and joins sites of each cell to
//! sites of a displaced one. `expand_default` does so for the rectangular and the hexagonal lattice. `expand_explicit`
//! takes the neighbours of each site. Each answers the lattice, or the first fault of its neighbours as `lattice_core`
//! names it. `is_crowded` says whether a repeated cell gives a site too many neighbours. The crate uses
//! `lattice_core` and `kmc_base`.
#![tactic(auto)]

mod cell;
mod crowding;
mod distinct;
mod expand;
mod neighbours;
mod repeats;

pub use cell::{Join, Toward};
pub use crowding::is_crowded;
pub use expand::{DefaultLattice, expand_default, expand_explicit, expand_periodic};
