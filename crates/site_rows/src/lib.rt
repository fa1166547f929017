//! The rows of `lattice_structure` in a lattice file: each is a site of an explicit lattice, with its type and its
//! neighbours.
//!
//! `read_rows` gives exactly the rows, or exactly the earliest of their faults; each line is read once. `graph_of` gives
//! the lattice of such rows, where there is one for each site. `type_of` gives the type of a type word, and a `TypeIndex`
//! the types of many. `is_no_site` says whether a number is that of no site, of a list or of a cell. The form of a row is
//! that of the Zacros manual; the faults and the limits are kmc's own. It uses dec_text, deck_values, deck_words, kmc_base
//! and lattice_core, and knows nothing of blocks.
#![tactic(auto)]

mod faults;
mod index;
mod listed;
mod row;
mod site_number;
mod type_index;
mod type_word;

pub use faults::read_rows;
pub use listed::graph_of;
pub use row::ReadRow;
pub use site_number::is_no_site;
pub use type_index::TypeIndex;
pub use type_word::{MAX_SITE_TYPES, type_of};
