ghost use Rattle.std.specs.Prelude.{◌≡◌, ◌+◌, ◌*◌, ◌^◌, ◌%◌, ◌<◌, ◌≤◌, ◌-◌, true, ℕ, List, All, length, IsTrue};
ghost use Rattle.dec_text.specs.Decimals.{significant};
ghost use Rattle.dec_text.specs.Digits.{is_digit, number, without_trailing_zeros};
ghost use Rattle.dec_text.specs.Significands.{Keeps, with_digit};

use crate::digits::is_digit;

/// The greatest number of digits that count.
const COUNTED: u32 = 18;

/// The significant digits of a number: the first 18 of them count.
#[derive(Clone, Copy)]
pub(crate) struct Significand {
    /// The number of the digits that count.
    pub(crate) digits: u64,
    /// How many digits count.
    pub(crate) count: u32,
    /// How many digits after them do not count.
    pub(crate) dropped: usize,
}

/// The significant digits of a mantissa.
pub(crate) fn significant_part(mantissa: &[u8]) -> Significand
    ensures { Keeps result (significant mantissa.now) }
{
    let mut kept = Significand {
        digits: 0,
        count: 0,
        dropped: 0,
    };
    for byte in mantissa {
        if is_digit(*byte) {
            kept = with_digit(kept, *byte);
        }
    }
    kept
}

/// The significant digits and one more digit.
fn with_digit(kept: Significand, digit: u8) -> Significand
    requires digit { IsTrue (is_digit digit) }
    requires count { kept.count ≤ 18 }
    requires fits { kept.digits < 10 ^ kept.count }
    requires dropped { kept.dropped < 2 ^ 64 - 1 }
    ensures keeps { (digits : List ℕ) → Keeps kept digits → Keeps result (with_digit digits digit) }
    ensures dropped { result.dropped ≤ kept.dropped + 1 }
{
    if kept.count == COUNTED {
        Significand {
            dropped: kept.dropped + 1,
            ..kept
        }
    } else if kept.count == 0 && digit == b'0' {
        kept
    } else {
        Significand {
            digits: 10 * kept.digits + (digit - b'0') as u64,
            count: kept.count + 1,
            ..kept
        }
    }
}

/// A number without the zeros at its end, and how many these are.
pub(crate) fn without_zeros(digits: u64) -> (u64, u64)
    requires { 0 < digits }
    ensures positive { 0 < result.0 % 10 }
    ensures smaller { result.0 ≤ digits }
    ensures digits { (ds : List ℕ) → All (λ d. is_digit d ≡ true) ds → number ds ≡ digits → number (without_trailing_zeros ds) ≡ result.0 }
    ensures zeros { (ds : List ℕ) → All (λ d. is_digit d ≡ true) ds → number ds ≡ digits → length (without_trailing_zeros ds) + result.1 ≡ length ds }
{
    let mut rest = digits;
    let mut zeros = 0;
    while rest % 10 == 0 {
        rest /= 10;
        zeros += 1;
    }
    (rest, zeros)
}
