//! The values of the mechanism file, `mechanism_input.dat`: the elementary steps.
//!
//! `read` gives exactly the values of a file, or exactly its first fault of a value. A block `step` or `reversible_step` is
//! one step, or one for each of its variants; a word that a variant lacks is that of the block around it. The keywords are
//! those of the Zacros manual; the limits and the faults are kmc's own. It uses deck_shape, deck_values, deck_words,
//! dec_text, kmc_base, pattern_rows and pattern_types, and knows no species and no site types.
#![tactic(auto)]

mod body;
mod changes;
mod part;
mod parts;
mod ranges;
mod reader;
mod steps;
mod variants;
mod words;

pub use part::{MechanismPart, StepPart};
pub use ranges::{DEFAULT_PROXIMITY, GAS_CHANGE, MOST_CHANGES, PROXIMITY};
pub use reader::read;
