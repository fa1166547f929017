//! What the numbers of a step mean.

ghost use Rattle.std.specs.Prelude.{◌≡◌};
ghost use Rattle.mechanism_deck.specs.Numbers.{activation, is_not_negative, is_positive, passing, pe_ratio, pre_expon, proximity};

use crate::ranges::PROXIMITY;
use dec_text::Decimal;
use deck_values::{ENERGY, amount_in, any_decimal, scaled_in};
use deck_words::ReadWord;
use deck_words::kind::OUT_OF_RANGE;

/// A word as a decimal that is 0 or more.
fn not_negative(word: &[u8]) -> Result<Decimal, u8>
    ensures { result ≡ pre_expon word.now }
{
    let n = any_decimal(word)?;
    if n.negative { Err(OUT_OF_RANGE) } else { Ok(n) }
}

/// A word as a decimal that is above 0.
fn positive(word: &[u8]) -> Result<Option<Decimal>, u8>
    ensures { result ≡ pe_ratio word.now }
{
    let n = any_decimal(word)?;
    if n.negative || n.digits == 0 {
        Err(OUT_OF_RANGE)
    } else {
        Ok(Some(n))
    }
}

/// A pre-exponential factor.
pub(crate) struct PreExponential;

impl ReadWord for PreExponential {
    type Value = Decimal;

    ghost is_usable = { λ _. Unit {0} };

    ghost value_of = { λ _. pre_expon };

    fn read(&self, word: &[u8]) -> Result<Decimal, u8> {
        not_negative(word)
    }
}

/// A ratio of pre-exponential factors, which is there.
pub(crate) struct Ratio;

impl ReadWord for Ratio {
    type Value = Option<Decimal>;

    ghost is_usable = { λ _. Unit {0} };

    ghost value_of = { λ _. pe_ratio };

    fn read(&self, word: &[u8]) -> Result<Option<Decimal>, u8> {
        positive(word)
    }
}

/// An activation energy, in neV.
pub(crate) struct Activation;

impl ReadWord for Activation {
    type Value = i64;

    ghost is_usable = { λ _. Unit {0} };

    ghost value_of = { λ _. activation };

    fn read(&self, word: &[u8]) -> Result<i64, u8> {
        match scaled_in(ENERGY, word) {
            Ok(energy) => Ok(energy as i64),
            Err(kind) => Err(kind),
        }
    }
}

/// A proximity factor, in units of 10^-9.
pub(crate) struct Proximity;

impl ReadWord for Proximity {
    type Value = u32;

    ghost is_usable = { λ _. Unit {0} };

    ghost value_of = { λ _. proximity };

    fn read(&self, word: &[u8]) -> Result<u32, u8> {
        match amount_in(PROXIMITY, word) {
            Ok(factor) => Ok(factor as u32),
            Err(kind) => Err(kind),
        }
    }
}
