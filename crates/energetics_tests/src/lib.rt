//! Tests of the energetics file: a whole text goes through `read_shape` of deck_shape and `read` of energetics_deck. The
//! expected values and faults follow from the rules of the file.
#![tactic(auto)]

#[cfg(test)]
mod decks;
#[cfg(test)]
mod faults;
#[cfg(test)]
mod good_decks;
#[cfg(test)]
mod limits;
