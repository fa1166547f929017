//! Tests of what stops a run and of the samples of its outputs, through the public calls of `kmc_report`.
#![tactic(auto)]

#[cfg(test)]
mod plans;
#[cfg(test)]
mod samples;
#[cfg(test)]
mod stops;
