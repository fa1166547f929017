//! The logarithms, powers of two and waiting times of kmc, in whole numbers alone, so that a run is the
//! same on every machine. A logarithm is to base 2, in units of 2^-30; times are in attoseconds (10^-18 s).
//!
//! Each call is proved equal to its definition in `specs/` on its whole range, with no overflow and no
//! memory taken. `kmc_base` has the time at which an instance fires, and the end of time.
#![tactic(auto)]

mod exponential;
mod logarithm;
mod waiting_time;

pub use exponential::exp2;
pub use logarithm::{lg_decimal, log2};
pub use waiting_time::{gap, wait};
