//! The values of the simulation file, `simulation_input.dat`.
//!
//! `read` gives exactly the values of a file of the right shape, or exactly its first fault of a value. Each value has one
//! definition, from the words of its line to the value or the kind of its fault. The keywords and their meanings are
//! those of the Zacros manual; the units, ranges and defaults are kmc's own. It uses deck_shape, deck_values, deck_words,
//! dec_text, kmc_base and run_plan.
#![tactic(auto)]

mod lines;
mod part;
mod plan;
mod ranges;
mod reader;
mod samplings;
mod species;
mod words;

pub use part::SimPart;
pub use ranges::{
    DENTATES, EVENT_LIMIT, EVENT_PERIOD, FRACTION, PRESSURE, SPECIES_COUNT, TEMPERATURE,
    TIME_LIMIT, TIME_PERIOD,
};
pub use reader::read;
