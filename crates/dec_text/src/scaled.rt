ghost use Rattle.std.specs.Prelude.{◌≡◌, ◌+◌, ◌*◌, ◌/◌, ◌^◌, ◌<◌, ◌≤◌, ◌≤ℤ◌, min, neg_ℤ, negsuc, pos};
ghost use Rattle.dec_text.specs.Decimals.{signed};
ghost use Rattle.dec_text.specs.Scaled.{rounded, scaled_within, within_bounds};

use crate::decimal::{Decimal, signed};
use crate::faults::OutOfRange;

/// The least size that is past every bound.
const PAST: u128 = 1_000_000_000_000_000_000_000_000_000_000_000_001;

impl Decimal {
    /// The decimal times `10^places`, rounded half away from zero: an energy in eV with 9 places is in
    /// neV.
    ///
    /// # Errors
    ///
    /// `OutOfRange` if and only if that is below `low` or above `high`.
    pub fn scaled(self, places: u32, low: i128, high: i128) -> Result<i128, OutOfRange>
        requires places { places ≤ 27 }
        requires low { neg_ℤ (pos (10 ^ 36)) ≤ℤ low }
        requires high { high ≤ℤ pos (10 ^ 36) }
        ensures { result ≡ scaled_within self places low high }
    {
        let size = rounded(self.digits, self.power + places as i32);
        within_bounds(signed(self.negative, size), low, high)
    }
}

/// A number that is neither below `low` nor above `high`.
fn within_bounds(value: i128, low: i128, high: i128) -> Result<i128, OutOfRange>
    ensures { result ≡ within_bounds value low high }
{
    if value < low || high < value {
        Err(OutOfRange)
    } else {
        Ok(value)
    }
}

/// The nearest whole number to digits times ten to a power, up to `PAST`; a half goes up.
fn rounded(digits: u64, power: i32) -> u128
    requires digits { digits < 10 ^ 18 }
    requires low { negsuc 399 ≤ℤ power }
    requires high { power ≤ℤ pos 427 }
    ensures { result ≡ min PAST (rounded digits power) }
{
    if power < 0 {
        lowered(digits, power.unsigned_abs()) as u128
    } else {
        raised(digits, power as u32)
    }
}

/// Digits times ten to a power, up to `PAST`.
fn raised(digits: u64, power: u32) -> u128
    ensures { result ≡ min PAST (digits * 10 ^ power) }
{
    let mut value = u128::from(digits);
    for _ in 0..power {
        value = PAST.min(10 * value);
    }
    value
}

/// Digits divided by ten to a power, to the nearest whole number; a half goes up.
fn lowered(digits: u64, power: u32) -> u64
    requires digits { digits < 10 ^ 18 }
    requires power { 0 < power }
    ensures { result ≡ (2 * digits + 10 ^ power) / (2 * 10 ^ power) }
{
    let mut value = digits;
    for _ in 0..power - 1 {
        value /= 10;
    }
    (value + 5) / 10
}
