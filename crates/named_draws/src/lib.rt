//! The random numbers of a simulation, each asked for by its name: an event number and the code of
//! an instance of a process. A draw is two words of ChaCha8 (RFC 8439 with eight rounds) at the place
//! that the name gives, so it depends on the random seed and the name alone, in whatever order the names
//! are asked for.
//!
//! The cipher is that of `rand_chacha`, as seeded streams with places; `rand_core` has the interface by
//! which a generator is seeded and its words are read.
#![tactic(auto)]

mod draws;

pub use draws::Draws;
