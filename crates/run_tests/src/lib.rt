//! Tests of the crates of a whole run: folders and screens in memory, and the program from files to outputs, through
//! their public calls.
#![tactic(auto)]

#[cfg(test)]
mod all_outputs;
#[cfg(test)]
mod decks;
#[cfg(test)]
mod errors_as_text;
#[cfg(test)]
mod failing_folders;
#[cfg(test)]
mod folders_in_memory;
#[cfg(test)]
mod gas_and_steps;
#[cfg(test)]
mod laws_of_runs;
#[cfg(test)]
mod refusals;
#[cfg(test)]
mod screens_in_memory;
#[cfg(test)]
mod sequences;
#[cfg(test)]
mod shown_at_the_end;
#[cfg(test)]
mod statuses;
#[cfg(test)]
mod whole_runs;
