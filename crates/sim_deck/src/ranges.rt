//! The ranges of the numbers of the simulation file, said once: the definitions and the reader both go by them. Those
//! that other files have too are in deck_values.

use deck_values::{ScaledRange, UpTo, WholeRange};
use kmc_base::{END_OF_TIME, MAX_DENTATES, MAX_EVENTS, MAX_SPECIES, MAX_TEMPERATURE};

/// A number of species.
pub const SPECIES_COUNT: WholeRange = WholeRange {
    least: 0,
    most: MAX_SPECIES as u64,
};

/// A temperature in K, kept in mK: from 1 mK to 10,000 K.
pub const TEMPERATURE: ScaledRange = ScaledRange {
    places: 3,
    least: 1,
    most: MAX_TEMPERATURE as i128,
};

/// A pressure in bar, from 0 to 10^9.
pub const PRESSURE: UpTo = UpTo { power: 9 };

/// A molar fraction, from 0 to 1.
pub const FRACTION: UpTo = UpTo { power: 0 };

/// A number of dentates, from 1 to 8.
pub const DENTATES: WholeRange = WholeRange {
    least: 1,
    most: MAX_DENTATES as u64,
};

/// The argument of `max_steps`.
pub const EVENT_LIMIT: WholeRange = WholeRange {
    least: 0,
    most: MAX_EVENTS,
};

/// The argument of `max_time` in s, kept in attoseconds (10^-18 s).
pub const TIME_LIMIT: ScaledRange = ScaledRange {
    places: 18,
    least: 0,
    most: END_OF_TIME as i128,
};

/// The period of a sampling in events.
pub const EVENT_PERIOD: WholeRange = WholeRange {
    least: 1,
    most: MAX_EVENTS,
};

/// The period of a sampling in s, kept in attoseconds: at least one.
pub const TIME_PERIOD: ScaledRange = ScaledRange {
    places: 18,
    least: 1,
    most: END_OF_TIME as i128,
};
