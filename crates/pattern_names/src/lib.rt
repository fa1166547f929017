//! The names in clusters and elementary steps, species and site types, by their numbers in a deck.
//!
//! `all_wanted` gives what the rows of a cluster want of their sites, and `side_in` the same of a side of a step, in which
//! each adsorbate is there as a whole; or the earliest fault: an unknown species, a dentate that the species does not have,
//! or one that is missing. `types_for` gives the site types of a pattern. It uses `pattern_rows` for the rows, `site_rows`
//! for type words and `species_book` for the species, and knows no clusters and no steps.
#![tactic(auto)]

mod sides;
mod species;
mod types;

pub use sides::side_in;
pub use species::all_wanted;
pub use types::types_for;
