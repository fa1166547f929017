//! The plan of a run: its random seed, its limits, and when its outputs are sampled.
//!
//! The simulation file states it, a deck has it, and what stops a run and takes its samples goes by it. The crate uses
//! kmc_base for the limits.
#![tactic(auto)]

mod plan;

pub use plan::{Plan, Sampling};
