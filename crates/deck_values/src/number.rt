ghost use Rattle.std.specs.Prelude.{◌≡◌, ◌<◌, ◌≤◌, ◌≤ℤ◌, ◌*◌, ◌^◌, IfOk, nat_le, pos, true};
ghost use Rattle.dec_text.specs.Decimals.{decimal_of};
ghost use Rattle.dec_text.specs.Wholes.{whole_number};
ghost use Rattle.deck_values.specs.Numbers.{IsAmount, IsScaledRange, amount_in, any_decimal, decimal_kind, scaled_in, up_to, whole_in};
ghost use Rattle.deck_values.specs.Numbers.{is_at_most, is_up_to, is_whole_in};

use dec_text::{Decimal, DecimalFault, read_decimal, read_whole};
use deck_words::ReadWord;
use deck_words::kind::{NOT_NUMBER, NOT_WHOLE, OUT_OF_RANGE};
use kmc_base::MAX_ENERGY;

/// The range of a whole number, its bounds included.
#[derive(Clone, Copy, Debug, PartialEq, Eq)]
pub struct WholeRange {
    /// The least number.
    pub least: u64,
    /// The greatest number.
    pub most: u64,
}

/// The range of a decimal in units of `10^-places`, its bounds included.
#[derive(Clone, Copy, Debug, PartialEq, Eq)]
pub struct ScaledRange {
    /// How many decimals a unit has.
    pub places: u32,
    /// The least number of units.
    pub least: i128,
    /// The greatest number of units.
    pub most: i128,
}

/// A number in a range that has no negative number: its size is read.
#[derive(Clone, Copy, Debug, PartialEq, Eq)]
pub struct Amount {
    /// The range.
    pub range: ScaledRange,
}

/// The range of a decimal from 0 to `10^power`, its bounds included.
#[derive(Clone, Copy, Debug, PartialEq, Eq)]
pub struct UpTo {
    /// The power of ten that is the greatest number.
    pub power: u32,
}

/// Any decimal.
#[derive(Clone, Copy, Debug, PartialEq, Eq)]
pub struct AnyDecimal;

/// An energy in eV, kept in neV (10^-9 eV): of a magnitude of at most 1,000 eV.
pub const ENERGY: ScaledRange = ScaledRange {
    places: 9,
    least: -MAX_ENERGY,
    most: MAX_ENERGY,
};

/// Any whole number below 2^64.
pub const ANY_WHOLE: WholeRange = WholeRange {
    least: 0,
    most: 18_446_744_073_709_551_615,
};

/// A whole number is in a range.
fn is_whole_in(range: WholeRange, n: u64) -> bool
    ensures { result ≡ is_whole_in range n }
{
    range.least <= n && n <= range.most
}

/// A word as a whole number in a range: `NOT_WHOLE` where it is none, `OUT_OF_RANGE` where it is outside the range.
pub fn whole_in(range: WholeRange, word: &[u8]) -> Result<u64, u8>
    ensures value { result ≡ whole_in range word.now }
    ensures range { IfOk result (λ n. (range.least ≤ n) × (n ≤ range.most)) }
{
    match read_whole(word) {
        Err(_) => Err(NOT_WHOLE),
        Ok(n) if is_whole_in(range, n) => Ok(n),
        Ok(_) => Err(OUT_OF_RANGE),
    }
}

/// The kind of a decimal's fault.
fn decimal_kind(fault: DecimalFault) -> u8
    ensures { result ≡ decimal_kind fault }
{
    match fault {
        DecimalFault::Form => NOT_NUMBER,
        DecimalFault::Power => OUT_OF_RANGE,
    }
}

/// A word as a decimal in the units of a range, rounded half away from zero: `NOT_NUMBER` where it is no decimal,
/// `OUT_OF_RANGE` where it is outside the range.
pub fn scaled_in(range: ScaledRange, word: &[u8]) -> Result<i128, u8>
    requires { IsScaledRange range }
    ensures value { result ≡ scaled_in range word.now }
    ensures range { IfOk result (λ n. (range.least ≤ℤ n) × (n ≤ℤ range.most)) }
{
    match read_decimal(word) {
        Err(fault) => Err(decimal_kind(fault)),
        Ok(n) => match n.scaled(range.places, range.least, range.most) {
            Ok(units) => Ok(units),
            Err(_) => Err(OUT_OF_RANGE),
        },
    }
}

/// The size of a word's number in the units of a range that has no negative number; its faults are those of `scaled_in`.
pub fn amount_in(range: ScaledRange, word: &[u8]) -> Result<u128, u8>
    requires range { IsScaledRange range }
    requires positive { pos 0 ≤ℤ range.least }
    ensures value { result ≡ amount_in range word.now }
    ensures range { IfOk result (λ n. (range.least ≤ℤ pos n) × (pos n ≤ℤ range.most)) }
{
    match scaled_in(range, word) {
        Ok(units) => Ok(units.unsigned_abs()),
        Err(kind) => Err(kind),
    }
}

/// Ten to a power.
fn ten_to(power: u32) -> u64
    requires { power ≤ 18 }
    ensures { result ≡ 10 ^ power }
{
    10u64.pow(power)
}

/// The digits times ten to a power are at most ten to another power.
fn raised_is_at_most(digits: u64, power: u32, most: u32) -> bool
    requires { most ≤ 18 }
    ensures { result ≡ nat_le (digits * 10 ^ power) (10 ^ most) }
{
    digits == 0 || (power <= most && digits <= ten_to(most - power))
}

/// The digits are at most ten to a power.
fn lies_below(digits: u64, power: u32) -> bool
    requires { digits < 10 ^ 18 }
    ensures { result ≡ nat_le digits (10 ^ power) }
{
    power >= 18 || digits <= ten_to(power)
}

/// The digits times ten to the power are at most ten to another power.
fn is_at_most(digits: u64, power: i32, most: u32) -> bool
    requires most { most ≤ 18 }
    requires digits { digits < 10 ^ 18 }
    ensures { result ≡ is_at_most digits power most }
{
    if power >= 0 {
        raised_is_at_most(digits, power as u32, most)
    } else {
        lies_below(digits, most + power.unsigned_abs())
    }
}

/// A decimal is from 0 to ten to a power.
fn is_up_to(power: u32, n: Decimal) -> bool
    requires { power ≤ 18 }
    ensures { result ≡ is_up_to power n }
{
    !n.negative && is_at_most(n.digits, n.power, power)
}

/// A word as a decimal from 0 to ten to a power: `NOT_NUMBER` where it is no decimal, `OUT_OF_RANGE` where it is outside
/// that range.
pub fn up_to(power: u32, word: &[u8]) -> Result<Decimal, u8>
    requires { power ≤ 18 }
    ensures value { result ≡ up_to power word.now }
    ensures range { IfOk result (λ n. is_up_to power n ≡ true) }
{
    match read_decimal(word) {
        Err(fault) => Err(decimal_kind(fault)),
        Ok(n) if is_up_to(power, n) => Ok(n),
        Ok(_) => Err(OUT_OF_RANGE),
    }
}

/// A word as any decimal: `NOT_NUMBER` where it is none, `OUT_OF_RANGE` where its power is past 400.
pub fn any_decimal(word: &[u8]) -> Result<Decimal, u8>
    ensures { result ≡ any_decimal word.now }
{
    match read_decimal(word) {
        Err(fault) => Err(decimal_kind(fault)),
        Ok(n) => Ok(n),
    }
}

impl ReadWord for WholeRange {
    type Value = u64;

    ghost is_usable = { λ _. Unit {0} };

    ghost value_of = { whole_in };

    fn read(&self, word: &[u8]) -> Result<u64, u8> {
        whole_in(*self, word)
    }
}

impl ReadWord for ScaledRange {
    type Value = i128;

    ghost is_usable = { IsScaledRange };

    ghost value_of = { scaled_in };

    fn read(&self, word: &[u8]) -> Result<i128, u8> {
        scaled_in(*self, word)
    }
}

impl ReadWord for Amount {
    type Value = u128;

    ghost is_usable = { IsAmount };

    ghost value_of = { λ amount. amount_in amount.range };

    fn read(&self, word: &[u8]) -> Result<u128, u8> {
        amount_in(self.range, word)
    }
}

impl ReadWord for UpTo {
    type Value = Decimal;

    ghost is_usable = { λ range. range.power ≤ 18 };

    ghost value_of = { λ range. up_to range.power };

    fn read(&self, word: &[u8]) -> Result<Decimal, u8> {
        up_to(self.power, word)
    }
}

impl ReadWord for AnyDecimal {
    type Value = Decimal;

    ghost is_usable = { λ _. Unit {0} };

    ghost value_of = { λ _. any_decimal };

    fn read(&self, word: &[u8]) -> Result<Decimal, u8> {
        any_decimal(word)
    }
}
