//! What several crates of tests make their cases of: states of sites, and sides of steps that are whole adsorbates.
//!
//! `whole_side` looks whether the entities of a side are whole, of species with these numbers of dentates, and gives the
//! pattern. The deck readers are to find the same of what they read; here the cases of tests are looked at. The crate uses
//! firing, kmc_base, lattice_core and pattern_types.
#![tactic(auto)]

mod entity;
mod side;
mod state;

pub use side::whole_side;
pub use state::{held, holds};
