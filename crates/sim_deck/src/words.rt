//! What single words of the simulation file mean.

ghost use Rattle.deck_values.specs.Numbers.{amount_in, scaled_in, whole_in};
ghost use Rattle.sim_deck.specs.Values.{or_infinity};
ghost use Rattle.deck_values.specs.declared.number.TheConstants.{ENERGY as ENERGY_RANGE};
ghost use Rattle.sim_deck.specs.declared.ranges.TheConstants.{DENTATES as DENTATE_RANGE, TEMPERATURE as TEMPERATURE_RANGE};

use crate::ranges::{DENTATES, TEMPERATURE};
use deck_values::{ENERGY, amount_in, scaled_in, whole_in};
use deck_words::ReadWord;

/// A temperature, in mK.
pub(crate) struct Temperature;

impl ReadWord for Temperature {
    type Value = u32;

    ghost is_usable = { λ _. Unit {0} };

    ghost value_of = { λ _. amount_in TEMPERATURE_RANGE };

    fn read(&self, word: &[u8]) -> Result<u32, u8> {
        match amount_in(TEMPERATURE, word) {
            Ok(temperature) => Ok(temperature as u32),
            Err(kind) => Err(kind),
        }
    }
}

/// An energy, in neV.
pub(crate) struct Energy;

impl ReadWord for Energy {
    type Value = i64;

    ghost is_usable = { λ _. Unit {0} };

    ghost value_of = { λ _. scaled_in ENERGY_RANGE };

    fn read(&self, word: &[u8]) -> Result<i64, u8> {
        match scaled_in(ENERGY, word) {
            Ok(energy) => Ok(energy as i64),
            Err(kind) => Err(kind),
        }
    }
}

/// A number of dentates.
pub(crate) struct Dentates;

impl ReadWord for Dentates {
    type Value = u8;

    ghost is_usable = { λ _. Unit {0} };

    ghost value_of = { λ _. whole_in DENTATE_RANGE };

    fn read(&self, word: &[u8]) -> Result<u8, u8> {
        match whole_in(DENTATES, word) {
            Ok(dentates) => Ok(dentates as u8),
            Err(kind) => Err(kind),
        }
    }
}

/// A number, or the word `infinity`, which is `None`.
#[derive(Drop)]
pub(crate) struct OrInfinity<R> {
    pub(crate) number: R,
}

impl<R: ReadWord> ReadWord for OrInfinity<R> {
    type Value = Option<R::Value>;

    ghost is_usable = { λ reading. R.is_usable reading.number };

    ghost value_of = { λ reading. or_infinity (R.value_of reading.number) };

    fn read(&self, word: &[u8]) -> Result<Option<R::Value>, u8> {
        if word == b"infinity".as_slice() {
            return Ok(None);
        }
        let number = self.number.read(word)?;
        Ok(Some(number))
    }
}
