//! The species of a deck by their names: which place a name has in the list of gas species or of
//! surface species, and how many dentates a surface species has.
//!
//! A look-up answers the one place that has the name, and `None` if and only if no place has it.
//! The crate uses `kmc_base` alone and takes no memory.
#![tactic(auto)]

mod book;

pub use book::SpeciesBook;
