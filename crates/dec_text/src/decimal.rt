ghost use Rattle.std.specs.Prelude.{◌≡◌, ◌+◌, ◌-◌, ◌*◌, ◌^◌, ◌%◌, ◌<◌, ◌≤◌, ◌≤ℤ◌, ◌+ℤ◌, ◌-ℤ◌, neg_ℤ, pos, ℕ, count_by, length, min};
ghost use Rattle.std.specs.Option.{option_map};
ghost use Rattle.std.specs.List.{list_any, position, prefix_len};
ghost use Rattle.dec_text.specs.Digits.{is_digit};
ghost use Rattle.dec_text.specs.Significands.{capped};
ghost use Rattle.dec_text.specs.Decimals.{
  after_sign,
  decimal_of,
  exponent_of,
  is_exponent_letter,
  is_mantissa,
  is_mantissa_byte,
  is_negative,
  is_point,
  places,
  scientific,
  signed,
  within_power,
};

use crate::digits::{CAP, are_digits, capped_number, is_digit};
use crate::faults::DecimalFault;
use crate::significand::{significant_part, without_zeros};
use std::marker::Model;

/// A decimal number: `digits * 10^power`, with a sign.
///
/// Its digits are below 10^18. Zero has power 0 and no sign. Other digits are not divisible by 10, and
/// their power is within -400 to 400. A decimal that is made by hand keeps this too.
#[derive(Clone, Copy, Debug, PartialEq, Eq)]
pub struct Decimal {
    /// Whether the number is below 0.
    pub negative: bool,
    /// The significant digits as a whole number.
    pub digits: u64,
    /// The power of ten.
    pub power: i32,
}

impl Model for Decimal {
    ghost use Rattle.dec_text.specs.Decimals.{IsDecimal, Scientific};

    ghost Value = { Scientific };

    ghost view = { λ d. record { negative = d.negative; digits = d.digits; power = d.power } };

    ghost invariant = { λ d. IsDecimal (record { negative = d.negative; digits = d.digits; power = d.power }) };

    ghost inverse = { λ n. record { negative = n.negative; digits = n.digits; power = n.power } };
}

/// Reads a decimal.
///
/// It is an optional sign, digits with an optional point and at least one digit, and an optional
/// exponent: `e`, `E`, or Fortran's `d` or `D`, an optional sign and at least one digit. The first 18
/// significant digits count and the rest are dropped; then zeros at the end go into the power.
///
/// # Errors
///
/// `Form` if and only if the word has another form; `Power` if and only if the digits are not 0 and the
/// power is outside -400 to 400.
pub fn read_decimal(word: &[u8]) -> Result<Decimal, DecimalFault>
    ensures { result ≡ decimal_of word.now }
{
    let (negative, unsigned) = split_sign(word);
    let (mantissa, tail) = unsigned.split_at(mantissa_len(unsigned));
    let Some(exponent) = exponent_of(tail) else {
        return Err(DecimalFault::Form);
    };
    if !is_mantissa(mantissa) {
        return Err(DecimalFault::Form);
    }
    decimal_from(negative, mantissa, exponent)
}

/// The decimal of a sign, a mantissa and an exponent by its sign and size, or the fault `Power`.
fn decimal_from(
    negative: bool,
    mantissa: &[u8],
    exponent: (bool, u128),
) -> Result<Decimal, DecimalFault>
    requires { exponent.1 ≤ CAP }
    ensures { (size : ℕ) → exponent.1 ≡ min CAP size
        → result ≡ within_power (scientific negative mantissa.now (signed exponent.0 size)) }
{
    let kept = significant_part(mantissa);
    if kept.digits == 0 {
        return Ok(Decimal {
            negative: false,
            digits: 0,
            power: 0,
        });
    }
    let (digits, zeros) = without_zeros(kept.digits);
    let exponent = signed(exponent.0, exponent.1);
    with_power(
        negative,
        digits,
        moved(exponent, places(mantissa), kept.dropped, zeros),
    )
}

/// The decimal of digits that are not 0, or the fault `Power`.
fn with_power(negative: bool, digits: u64, power: i128) -> Result<Decimal, DecimalFault>
    requires fit { digits < 10 ^ 18 }
    requires reduced { 0 < digits % 10 }
    ensures { result ≡ within_power (record { negative = negative; digits = digits; power = power }) }
{
    if power < -400 || 400 < power {
        return Err(DecimalFault::Power);
    }
    Ok(Decimal {
        negative,
        digits,
        power: power as i32,
    })
}

/// A size with its sign.
pub(crate) fn signed(negative: bool, size: u128) -> i128
    requires { size < 2 ^ 126 }
    ensures value { result ≡ signed negative size }
    ensures low { neg_ℤ (pos size) ≤ℤ result }
    ensures high { result ≤ℤ pos size }
{
    if negative {
        -(size as i128)
    } else {
        size as i128
    }
}

/// The power of the last digit that counts: each digit after the point lowers it by one, and each
/// digit that was dropped and each zero that was taken off raises it by one.
fn moved(exponent: i128, places: usize, dropped: usize, zeros: u64) -> i128
    requires low { neg_ℤ (pos CAP) ≤ℤ exponent }
    requires high { exponent ≤ℤ pos CAP }
    ensures { result ≡ (exponent -ℤ pos places) +ℤ pos (dropped + zeros) }
{
    exponent - places as i128 + (dropped as i128 + zeros as i128)
}

/// A word's sign: whether it begins with a minus, and what follows the sign.
fn split_sign(word: &[u8]) -> (bool, &[u8])
    ensures negative { result.0 ≡ is_negative word.now }
    ensures rest { result.1.now ≡ after_sign word.now }
{
    match word.split_first() {
        Some((b'-', rest)) => (true, rest),
        Some((b'+', rest)) => (false, rest),
        _ => (false, word),
    }
}

/// How many digits and points the bytes begin with.
fn mantissa_len(bytes: &[u8]) -> usize
    ensures length { result ≡ prefix_len is_mantissa_byte bytes.now }
    ensures inside { result ≤ length bytes.now }
{
    for (i, byte) in bytes.iter().enumerate() {
        if !is_mantissa_byte(*byte) {
            return i;
        }
    }
    bytes.len()
}

/// Whether digits and points have a digit, and one point at most.
fn is_mantissa(bytes: &[u8]) -> bool
    ensures { result ≡ is_mantissa bytes.now }
{
    has_digit(bytes) && points(bytes) <= 1
}

fn has_digit(bytes: &[u8]) -> bool
    ensures { result ≡ list_any is_digit bytes.now }
{
    bytes.iter().any(|b| is_digit(*b))
}

fn points(bytes: &[u8]) -> usize
    ensures { result ≡ count_by is_point bytes.now }
{
    bytes.iter().filter(|b| **b == b'.').count()
}

/// How many bytes follow the point.
fn places(mantissa: &[u8]) -> usize
    ensures { result ≡ places mantissa.now }
{
    match first_point(mantissa) {
        Some(point) => mantissa.len() - point - 1,
        None => 0,
    }
}

fn first_point(bytes: &[u8]) -> Option<usize>
    ensures { result ≡ position is_point bytes.now }
{
    bytes.iter().position(|b| *b == b'.')
}

/// The exponent that follows a mantissa, by its sign and its size up to `CAP`.
fn exponent_of(tail: &[u8]) -> Option<(bool, u128)>
    ensures { result ≡ option_map (capped CAP) (exponent_of tail.now) }
{
    let Some((letter, rest)) = tail.split_first() else {
        return Some((false, 0));
    };
    let (negative, digits) = split_sign(rest);
    if is_exponent_letter(*letter) && are_digits(digits) {
        Some((negative, capped_number(digits)))
    } else {
        None
    }
}

/// Whether a letter begins an exponent.
fn is_exponent_letter(byte: u8) -> bool
    ensures { result ≡ is_exponent_letter byte }
{
    matches!(byte, b'e' | b'E' | b'd' | b'D')
}

/// Whether a byte is a digit or a point.
fn is_mantissa_byte(byte: u8) -> bool
    ensures { result ≡ is_mantissa_byte byte }
{
    is_digit(byte) || byte == b'.'
}
