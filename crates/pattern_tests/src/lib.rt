//! Tests of the crates of patterns: sound patterns, placements, listings and the codes of instances, through their public
//! calls.
#![tactic(auto)]

#[cfg(test)]
mod instance_codes;
#[cfg(test)]
mod pattern_listings;
#[cfg(test)]
mod sound_patterns;
