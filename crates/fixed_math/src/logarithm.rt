ghost use Rattle.std.specs.Prelude.{◌≡◌, ℕ, ◌+◌, ◌*◌, ◌%◌, ◌^◌, ◌<◌, ◌≤◌, ◌↔◌, pos, ◌≤ℤ◌, ◌<ℤ◌, unsigned_abs, IsNone, IfSome};
ghost use Rattle.fixed_math.specs.Logarithm.{fraction_bits, leading_bit, log2_of};
ghost use Rattle.fixed_math.specs.DecimalLogarithm.{lg_of_decimal};

/// The number of fraction bits of a logarithm.
const FRACTION_BITS: u32 = 30;

/// The base-2 logarithm of ten, in units of 2^-30.
pub(crate) const LOG2_OF_TEN: i64 = 3_566_893_132;

/// The base-2 logarithm of `y` in units of 2^-30, its thirty fraction bits found one by one by squaring
/// (Knuth, The Art of Computer Programming, volume 1, 1.2.2).
pub fn log2(y: u128) -> i64
    requires positive { 1 ≤ y }
    requires in_range { y ≤ 2 ^ 64 }
    ensures value { result ≡ pos (log2_of y) }
    ensures range { (pos 0 ≤ℤ result) × (result ≤ℤ pos (2 ^ 36)) }
    ensures power { (k : ℕ) → y ≡ 2 ^ k → result ≡ pos (k * 2 ^ 30) }
    ensures low { (k : ℕ) → 2 ^ k ≤ y → pos (k * 2 ^ 30) ≤ℤ result }
    ensures high { (k : ℕ) → y < 2 ^ (k + 1) → result <ℤ pos ((k + 1) * 2 ^ 30) }
{
    let whole = y.ilog2();
    let mantissa = ((y << 31) >> whole) as u64;
    ((u64::from(whole) << FRACTION_BITS) + bits_of(mantissa)) as i64
}

/// The thirty fraction bits of the logarithm of a mantissa, which is in units of 2^-31.
fn bits_of(mantissa: u64) -> u64
    requires low { 2 ^ 31 ≤ mantissa }
    requires high { mantissa < 2 ^ 32 }
    ensures { result ≡ fraction_bits 30 mantissa }
{
    let mut rest = mantissa;
    let mut bits = 0;
    for place in (0..FRACTION_BITS).rev() {
        let bit = next_bit(rest);
        rest = (rest * rest) >> (31 + bit);
        bits += bit << place;
    }
    bits
}

/// 1 where the square of a mantissa is 2 or more, else 0.
fn next_bit(mantissa: u64) -> u64
    requires { mantissa < 2 ^ 32 }
    ensures { result ≡ leading_bit mantissa }
{
    if mantissa * mantissa >= 1 << 63 { 1 } else { 0 }
}

/// The base-2 logarithm of the decimal `digits * 10^power`, in units of 2^-30; None where `digits` is 0.
/// The digits have no zeros at their end.
pub fn lg_decimal(digits: u64, power: i32) -> Option<i64>
    requires digits { digits < 10 ^ 18 }
    requires shortest { digits % 10 ≡ 0 → digits ≡ 0 }
    requires power { unsigned_abs power ≤ 400 }
    ensures value { result ≡ lg_of_decimal digits power }
    ensures range { IfSome result (λ lg. unsigned_abs lg ≤ 2 ^ 41) }
    ensures none { IsNone result ↔ (digits ≡ 0) }
{
    if digits == 0 {
        None
    } else {
        Some(log2(u128::from(digits)) + i64::from(power) * LOG2_OF_TEN)
    }
}
