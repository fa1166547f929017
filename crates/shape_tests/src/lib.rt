//! Tests of the words and the shapes of the input files: the tables of words, blocks within blocks, faults of form, and
//! what is behind a keyword. They call the public surface of deck_words and deck_shape, and what they expect is written
//! here.
#![tactic(auto)]

#[cfg(test)]
mod block_words;
#[cfg(test)]
mod file_shapes;
#[cfg(test)]
mod keyword_arguments;
#[cfg(test)]
mod nested_blocks;
#[cfg(test)]
mod nested_words;
