//! Tests of the crates of lattices: graphs and configurations, repeated cells, the rows of explicit lattices, and the lattice file, through their public calls.
#![tactic(auto)]

#[cfg(test)]
mod configurations;
#[cfg(test)]
mod graphs;
#[cfg(test)]
mod large_cells;
#[cfg(test)]
mod lattice_files;
#[cfg(test)]
mod lattice_words;
#[cfg(test)]
mod repeated_cells;
#[cfg(test)]
mod rows_of_sites;
