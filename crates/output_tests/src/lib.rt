//! Tests of the texts of the outputs and of the end of a run, through the public calls of `zacros_output`.
#![tactic(auto)]

#[cfg(test)]
mod ends;
#[cfg(test)]
mod outputs;
#[cfg(test)]
mod samples;
#[cfg(test)]
mod small_decks;
