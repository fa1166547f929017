//! Firing an instance of an elementary step: its initial entities are taken off its sites, and its final ones are put on
//! the same sites (Stamatakis and Vlachos 2011).
//!
//! A side of a step is a pattern whose entities are whole adsorbates. The crate knows patterns and not species: the
//! number of dentates of an entity is the number of vertices that name it. `fire` changes a configuration, `set_side` puts
//! a side on vacant sites, and `given_states` gives the states that a side wants of its sites, for what shows them without
//! a configuration. `firing_keeps_well_formed` and `firing_clears_then_sets` do nothing: their contracts are laws.
//!
//! The crate builds on `kmc_base`, on `lattice_core` for configurations and on `pattern_types` for patterns.
#![tactic(auto)]

mod entity;
mod firing;
mod given;

pub use firing::{fire, firing_clears_then_sets, firing_keeps_well_formed, set_side};
pub use given::{GivenStates, given_states};
