//! Tests of the decks that are made from a number: the texts of the first and the last one as written out here, and what is
//! read from each.
#![tactic(auto)]

#[cfg(test)]
mod decks;
#[cfg(test)]
mod texts;
