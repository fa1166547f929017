//! The texts that the program shows on the screen, and their printing.
//!
//! Each call that prints puts exactly the text of its definition on the screen, or the screen fails and has taken a front of
//! it. None of these takes memory, so that want of memory and any fault of a deck can always be told. The crate uses kmc_base
//! for the screen and the names of the files.
#![tactic(auto)]

mod printing;
mod texts;

pub use printing::print;
pub use texts::{
    deck_text, print_fault, print_no_memory, print_unread, print_unwritten, print_usage,
};
