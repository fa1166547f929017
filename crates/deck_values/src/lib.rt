//! What the words of the input files mean: numbers in their ranges, lists of them, names and edges.
//!
//! Each reading gives the value of its words or the kind of their fault, exactly as its definition has it; a word is
//! read once. The faults on a line are combined by their order, in which the least kind counts. `Readings` keeps what was
//! read of several lines: the values, and the earliest fault. It uses dec_text, deck_words and kmc_base, and knows
//! nothing of blocks.
#![tactic(auto)]

mod edge;
mod list;
mod name;
mod number;
mod readings;
mod row;

pub use edge::edge_of;
pub use list::{absent_list, fault_if, has_other_length, list_on, with_next};
pub use name::{names_on, species_on, words_on};
pub use number::{
    ANY_WHOLE, Amount, AnyDecimal, ENERGY, ScaledRange, UpTo, WholeRange, amount_in, any_decimal,
    scaled_in, up_to, whole_in,
};
pub use readings::{Readings, with_reading};
pub use row::{or_form_fault, row_words};
