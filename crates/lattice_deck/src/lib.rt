//! The values of the lattice file, `lattice_input.dat`: its lattice, the names of site types, and the type words.
//!
//! `read` gives exactly the values of a file, or exactly its first fault of a value, and `unknown_type` exactly the first
//! type word that is no type. Each value is read once, from the words of its line to the value or its fault. The keywords
//! are those of the Zacros manual; that a default lattice has one site in each cell is kmc's own rule. The rows of
//! explicit lattices are read by site_rows. It uses deck_shape, deck_values, deck_words, dec_text, kmc_base,
//! lattice_cell, lattice_core and site_rows.
#![tactic(auto)]

mod coordinates;
mod graphs;
mod joins;
mod names;
mod part;
mod ranges;
mod reader;
mod sizes;
mod types;
mod values;

pub use part::LatticePart;
pub use ranges::{REPEAT, SITE_COUNT, TYPE_COUNT};
pub use reader::read;
pub use types::unknown_type;
