//! The core: which instances of processes a state of the lattice offers, and the trajectory from one
//! event to the next by rescanning the whole lattice.
//!
//! It runs a sound `Deck`. The state of a run is the lattice, and with it the molecules of each gas
//! species that were produced or consumed and the number of events of each process, which have no
//! effect on what is offered. A `Closed` is the state of its deck's trajectory at its event, by its
//! type; an `Unclosed` has fired the next event and cannot be fired itself. A run ends for the first
//! of four reasons that holds: an output has all its samples, the greatest number of events is
//! reached, nothing can fire any more, or what fires next comes after the greatest time.
//!
//! The crate builds on `deck` and `run_plan` for what is run, on `kmc_report` for what stops a run, on
//! `kmc_base` for entries and the rule by which they keep their times, on `lattice_core` for the lattice and its configuration, on
//! `pattern_types` and `pattern_list` for patterns and their instances, on `rate_rules` for energies
//! and rates, on `firing` for what an instance makes of the configuration, on `species_book` for the
//! species, on `trajectory` for systems of events, on `fixed_math` for waiting times and on
//! `named_draws` for random numbers.
#![tactic(auto)]

mod closed;
mod entries;
mod entry_lists;
mod fired;
mod laws;
mod listing;
mod renewal;
mod run_state;
mod total_energy;
mod unclosed;

pub use closed::Closed;
pub use fired::Fired;
pub use kmc_report::Stop;
pub use laws::time_never_falls;
pub use unclosed::{Unclosed, Undone};
