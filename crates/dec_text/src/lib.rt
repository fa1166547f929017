//! Text for every layer that reads or writes files: a text's lines and words, decimals, whole
//! numbers, and numbers printed with a fixed number of decimals.
//!
//! `split` gives exactly the words of a text, each by its place, on numbered lines; `next_line` gives
//! the same lines one at a time. `read_decimal` and `read_whole` take exactly the words of their
//! grammar, and give the value of each.
//! `Decimal::scaled` rounds half away from zero. `print_fixed` appends exactly the printed number,
//! and what it printed is read back. The crate uses `kmc_base` alone.
#![tactic(auto)]

mod decimal;
mod digits;
mod faults;
mod fixed;
mod lines;
mod scaled;
mod significand;

pub use decimal::{Decimal, read_decimal};
pub use digits::read_whole;
pub use faults::{DecimalFault, NotWhole, OutOfRange};
pub use fixed::{print_fixed, printed_reads_back};
pub use lines::{FIRST_LINE, Line, LinePlace, Span, next_line, split};
