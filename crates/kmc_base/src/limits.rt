//! The limits that several crates share. A definition that has such a limit names the constant.

/// The greatest number of bytes of an input file.
pub const MAX_FILE_BYTES: usize = 16_777_216;

/// The greatest number of sites of a lattice.
pub const MAX_SITES: u32 = 65_536;

/// The greatest number of gas species, and of surface species.
pub const MAX_SPECIES: usize = 64;

/// The greatest number of dentates of a surface species, and so of sites of an adsorbate.
pub const MAX_DENTATES: usize = 8;

/// The greatest number of an event: 2^40 - 1.
pub const MAX_EVENTS: u64 = 1_099_511_627_775;

/// The greatest magnitude of an energy that a deck states, in neV (10^-9 eV): 1,000 eV.
pub const MAX_ENERGY: i128 = 1_000_000_000_000;

/// The greatest temperature, in mK (10^-3 K): 10,000 K.
pub const MAX_TEMPERATURE: u32 = 10_000_000;

/// The greatest time, in attoseconds (10^-18 s): 10^12 s.
pub const END_OF_TIME: u128 = 1_000_000_000_000_000_000_000_000_000_000;
