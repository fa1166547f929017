//! Tests of the crates that compute a run: logarithms and waiting times, draws, the board, and the core, through their
//! public calls.
#![tactic(auto)]

#[cfg(test)]
mod board_passes;
#[cfg(test)]
mod draws_by_name;
#[cfg(test)]
mod rates_and_waits;
