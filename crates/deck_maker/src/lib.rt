//! Decks that are made from a number: the oxidation of CO on a square lattice.
//!
//! `make` gives exactly the four input files of its definition. The number decides the seed, the temperature, the size of
//! the lattice and the length of the run. The crate knows the texts alone, and not what they mean. It uses kmc_base for the
//! error.
#![tactic(auto)]

mod decks;
mod files;
mod numbers;

pub use decks::{MAX_DECK, make};
