//! The values of the energetics file, `energetics_input.dat`: the clusters of the cluster expansion of the energy.
//!
//! `read` gives exactly the values of a file, or exactly its first fault of a value. A block `cluster` is one cluster, or one
//! for each of its variants; a word that a variant lacks is that of the block around it. The keywords are those of the
//! Zacros manual; the limits and the faults are kmc's own. It uses deck_shape, deck_values, deck_words, dec_text, kmc_base,
//! pattern_rows and pattern_types, and knows no species and no site types.
#![tactic(auto)]

mod clusters;
mod part;
mod parts;
mod pattern;
mod ranges;
mod reader;
mod shares;
mod variants;

pub use part::{ClusterPart, EnergeticsPart};
pub use ranges::MULTIPLICITY;
pub use reader::read;
