//! A deck from its four files, or their first fault.
//!
//! `load_deck` gives exactly the deck of the texts of the files, or exactly their first fault; `read_deck` loads the files of
//! a folder first. The files are looked at in passes, over all files each: whether they are there and not too long; the
//! form of their lines; their values; and their names of species and site types. Each pass is a definition over what the
//! pass before gives. It uses `deck_shape`, the readers `sim_deck`, `lattice_deck`, `energetics_deck` and `mechanism_deck`,
//! and `pattern_names` for names, and knows no runs.
#![tactic(auto)]

mod clusters;
mod file_fault;
mod file_slices;
mod gas;
mod join;
mod loading;
mod names;
mod parts;
mod pattern;
mod process_names;
mod processes;
mod radius;
mod refusal;
mod shapes;
mod species;
mod steps;
mod text;

pub use join::load_deck;
pub use loading::read_deck;
pub use refusal::DeckRefusal;
pub use text::Text;
