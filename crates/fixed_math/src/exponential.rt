ghost use Rattle.std.specs.Prelude.{◌≡◌, ◌^◌, ◌<◌, ◌≤◌, unsigned_abs, sum};
ghost use Rattle.fixed_math.specs.Exponential.{exp2_of, polynomial_at};

/// One, in units of 2^-30.
const ONE: i64 = 1 << 30;

/// The coefficients of 2^x for x from 0 to 1, the constant one first, in units of 2^-30.
const COEFFICIENTS: [u64; 11] = [
    1_073_741_824,
    744_261_118,
    257_941_248,
    59_597_083,
    10_327_387,
    1_431_680,
    165_394,
    16_377,
    1_419,
    109,
    8,
];

/// Two to the power of `z`, which is in units of 2^-30: a pair (m, q) that stands for `m * 2^(q - 30)`,
/// where `m` is at least 2^30 and below 2^31.
pub fn exp2(z: i64) -> (u64, i64)
    requires { unsigned_abs z ≤ 2 ^ 44 }
    ensures value { result ≡ exp2_of z }
    ensures mantissa { (2 ^ 30 ≤ result.0) × (result.0 < 2 ^ 31) }
    ensures exponent { unsigned_abs result.1 ≤ 2 ^ 14 }
{
    let fraction = z.rem_euclid(ONE) as u64;
    (polynomial(fraction, &COEFFICIENTS), z.div_euclid(ONE))
}

/// The value of a polynomial at `x`, by Horner's rule; all numbers are in units of 2^-30.
fn polynomial(x: u64, coefficients: &[u64]) -> u64
    requires below_one { x < 2 ^ 30 }
    requires small { sum coefficients.now < 2 ^ 31 }
    ensures value { result ≡ polynomial_at x coefficients.now }
    ensures small { result ≤ sum coefficients.now }
{
    match coefficients {
        [] => 0,
        [first, rest @ ..] => *first + ((x * polynomial(x, rest)) >> 30),
    }
}
