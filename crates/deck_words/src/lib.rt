//! The words of the input files, and the kinds of faults.
//!
//! The words of each block are tables of data: the definitions of later crates and their readers go by the same rows.
//! Beside them are the numbers of the kinds of faults, which of several faults of a file is its fault (the one of the
//! earliest line, and of one line the one of the least kind), and `ReadWord`, how a word is read to its value or the kind
//! of its fault. The crate uses no other.
#![tactic(auto)]

mod fault;
mod keyword;
pub mod kind;
mod read_word;
mod table;

pub use fault::{
    LineFault, at_line, both, earlier, earlier_is_least, earliest, fault_of, with_fault,
};
pub use keyword::Keyword;
pub use read_word::ReadWord;
pub use table::{
    Arguments, BlockForm, Need, Role, Rule, is_spelled, needs_of_blocks, repeatable_words_of_blocks,
};
