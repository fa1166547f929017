//! What stops a run, and which samples of its outputs are taken when.
//!
//! `stop_at` says whether and why a run stops after an event. A `Sampler` gives the numbers of the samples of each output in
//! order: those that are due at an event, and those whose time is before the next event, or at most the end of the run. Two
//! laws say what these make of a whole run: `each_sample_once`, that each sample that is due is given once and in order, and
//! `shown_while_current`, that it shows the state that is current at its time. No call takes memory.
//!
//! The crate builds on `run_plan` for the plan of a run, and on `kmc_base` for the numbers of outputs and the limits.
#![tactic(auto)]

mod laws;
mod sampler;
mod stop;

pub use laws::{each_sample_once, shown_while_current};
pub use sampler::{Given, Sampler, sample_time, sampling_of};
pub use stop::{MAX_SAMPLES, Stop, end_of_samples, stop_at};
