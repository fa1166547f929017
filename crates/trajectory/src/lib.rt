//! The rescanning trajectory over any system of events: fire what comes first, list the whole new state, keep or draw each
//! time, and go on.
//!
//! It knows nothing of chemistry: a system says which instances a state offers, each with its code and rate, and what the
//! state is after the instance of a code has fired. The crate uses kmc_base for entries and the rule by which they keep
//! their times, fixed_math for waiting times and named_draws for random numbers.
#![tactic(auto)]

mod instance;

pub use instance::Instance;
