//! The tests of the crates that read text: lines and numbers, the meaning of words, the kinds of faults and which of them
//! counts, the values of the simulation file, and the names of species. They call the public surface of those crates, and
//! what they expect is written here.
#![tactic(auto)]

#[cfg(test)]
mod fault_kinds;
#[cfg(test)]
mod faults_in_order;
#[cfg(test)]
mod lines_of_text;
#[cfg(test)]
mod numbers;
#[cfg(test)]
mod rows_of_words;
#[cfg(test)]
mod simulation_files;
#[cfg(test)]
mod simulation_ranges;
#[cfg(test)]
mod species_names;
#[cfg(test)]
mod word_values;
