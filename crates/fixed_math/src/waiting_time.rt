ghost use Rattle.std.specs.Prelude.{◌≡◌, ◌↔◌, ◌^◌, ◌<◌, ◌≤◌, ◌≤ℤ◌, pos, unsigned_abs};
ghost use Rattle.std.specs.Option.{ForSome};
ghost use Rattle.fixed_math.specs.Gap.{gap_of};
ghost use Rattle.fixed_math.specs.WaitingTime.{IsLater, IsNeverDue, scaled_down, time_of};

use crate::exponential::exp2;
use crate::logarithm::{LOG2_OF_TEN, log2};
use kmc_base::{END_OF_TIME, When};

/// The natural logarithm of 2, in units of 2^-30.
const LN_2: u128 = 744_261_118;

/// The base-2 logarithm of a second in attoseconds, 10^18, in units of 2^-30.
const LOG2_OF_SECOND: i64 = 18 * LOG2_OF_TEN;

/// The greatest exponent q of a mean waiting time that is counted as finite: below 2^121 attoseconds.
const MAX_EXPONENT: i64 = 120;

/// The exponential variate of mean 1 that a 64-bit draw `w` gives by inversion: `-ln((w + 1) / 2^64)`, in
/// units of 2^-30.
pub fn gap(w: u64) -> u64
    ensures value { result ≡ gap_of w }
    ensures range { result ≤ 47632711552 }
{
    let below = (64 << 30) - log2(u128::from(w) + 1);
    ((below as u128 * LN_2) >> 30) as u64
}

/// The time at which an instance fires whose waiting time is drawn by `w` at the time `now`, in attoseconds.
///
/// Its rate in 1/s has the base-2 logarithm `lg`, in units of 2^-30; None is for an instance without a rate. The
/// waiting time is at least 1 attosecond. The instance never fires if it has no rate, if its mean waiting time is
/// 2^121 attoseconds or more, or if it would fire after `END_OF_TIME`.
pub fn wait(lg: Option<i64>, w: u64, now: u128) -> When
    requires rate { ForSome lg (λ l. unsigned_abs l ≤ 2 ^ 42) }
    requires time { now ≤ END_OF_TIME }
    ensures value { result ≡ time_of lg w now }
    ensures never { (result ≡ When.Never) ↔ IsNeverDue lg w now }
    ensures later { IsLater now result }
{
    let Some(lg) = lg else { return When::Never };
    let (mantissa, exponent) = exp2(LOG2_OF_SECOND - lg);
    if exponent > MAX_EXPONENT {
        return When::Never;
    }
    // The gap and the mantissa are both in units of 2^-30.
    let product = u128::from(gap(w)) * u128::from(mantissa);
    let time = now + scaled(product, exponent - 60).max(1);
    if time > END_OF_TIME {
        When::Never
    } else {
        When::At(time)
    }
}

/// `number * 2^exponent`, rounded down.
fn scaled(number: u128, exponent: i64) -> u128
    requires number { number < 2 ^ 67 }
    requires exponent { exponent ≤ℤ pos 60 }
    ensures value { result ≡ scaled_down number exponent }
    ensures small { result < 2 ^ 127 }
{
    let places = exponent.unsigned_abs();
    if exponent >= 0 {
        number << places
    } else if places < 128 {
        number >> places
    } else {
        0
    }
}
