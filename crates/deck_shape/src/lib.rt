//! The shape of the input files: which words each block has, with their rows, and the first fault of form.
//!
//! `read_shape` gives exactly the blocks of a file, or exactly its first fault of form. The words of the blocks are the
//! tables of deck_words, which the definitions read too. Beside them is what the readers of all files share: the word
//! lines of a block, the words and names behind a keyword, and the value of the one word behind it. A name is known by
//! its place in the bytes of its file. The crate uses dec_text, deck_words and kmc_base.
#![tactic(auto)]

mod check;
mod fault;
mod laws;
mod line_words;
mod name;
mod reader;
mod reading;
mod shape;
mod value;

pub use deck_words::{Arguments, BlockForm, Keyword, Need, Role, Rule, kind};
pub use fault::{DeckFault, Fault};
pub use laws::{block_of_line_is_innermost, once_words_are_once};
pub use line_words::NO_WORD;
pub use name::{Name, names_of};
pub use reader::read_shape;
pub use shape::{Block, Item, Section, Shape};
