//! What clusters and elementary steps have in common in their files: the number of sites, the edges between them, the rows of
//! states, the site types, and the names.
//!
//! Each reading gives exactly its values or exactly the earliest of their faults; a word is read once. What is read without
//! a fault makes a pattern, which is a law. The keywords are those of the Zacros manual; the limits and the faults are kmc's
//! own. It uses dec_text, deck_shape, deck_values, deck_words, kmc_base and pattern_types, and knows no species and no
//! site types.
#![tactic(auto)]

mod edges;
mod laws;
mod lines;
mod names;
mod ranges;
mod row_form;
mod rows_above;
mod site_types;
mod sites;
mod state;
mod types;
mod variants;

pub use edges::edges_in;
pub use laws::what_is_read_is_a_pattern;
pub use lines::word_line;
pub use names::repeated_name;
pub use ranges::{ENTITY, VERTEX_COUNT};
pub use site_types::type_words;
pub use sites::sites_in;
pub use state::{StateRow, states_in};
pub use types::types_or;
pub use variants::variants_of;
