//! What the words of a command line ask for: to run the deck, to check it, or to make a deck by its number and run that one,
//! with how many workers, and from how many anchors of an event on they share its work.
//!
//! The words are those after the program's name. `clap` reads them, by the one command that `specs/Grammar.antt` writes out
//! as plain data: a required word, a number that may follow it, and the options `--workers` and `--spread`, each with a whole
//! number. There is no help and no version to ask for. `read_words` answers `None` for words outside this grammar, and its
//! only error is that it is out of memory. The crate uses `kmc_base` for that error alone, and
//! `deck_maker` for the greatest number of a deck.
#![tactic(auto)]

mod line;
mod reading;
#[cfg(test)]
mod tests;

pub use deck_maker::MAX_DECK;
pub use line::{CommandLine, MAX_SPREAD, MAX_WORKERS, Mode};
pub use reading::read_words;
