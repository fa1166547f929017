//! A deck: all that a run is made from, which the input files state.
//!
//! It is sound if its numbers are in their ranges, its patterns suit its species, and its lists have the lengths that belong
//! together; whoever runs a deck asks for a sound one. It is a type and its definitions: the crate has no calls.
#![tactic(auto)]

mod deck;

pub use deck::{Deck, Seeded};
