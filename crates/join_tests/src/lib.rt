//! Tests of deck_join through its public calls: the first fault of four files, and the deck of files without faults.
#![tactic(auto)]

#[cfg(test)]
mod decks;
#[cfg(test)]
mod first_faults;
#[cfg(test)]
mod mechanism_names;
#[cfg(test)]
mod oxidation;
