ghost use Rattle.std.specs.Prelude.{◌≡◌, ◌+◌, ◌*◌, ◌^◌, ◌≤◌, length, unsigned_abs};
ghost use Rattle.std.specs.Option.{ForSome};
ghost use Rattle.kmc_base.specs.declared.limits.TheConstants.{MAX_SPECIES};
ghost use Rattle.rate_rules.specs.Factor.{consumed_lg, factor_of, inverse_lg, lg_of, power_lg, product_lg};

use dec_text::Decimal;
use fixed_math::lg_decimal;

/// The base-2 logarithm of a decimal, in units of 2^-30, if it is above 0.
fn lg_of(decimal: &Decimal) -> Option<i64>
    ensures value { result ≡ lg_of decimal.now }
    ensures range { ForSome result (λ lg. unsigned_abs lg ≤ 2 ^ 41) }
{
    if decimal.negative {
        None
    } else {
        lg_decimal(decimal.digits, decimal.power)
    }
}

/// The logarithm of a product by those of the two numbers.
fn product_lg(first: Option<i64>, second: Option<i64>) -> Option<i64>
    requires first { ForSome first (λ lg. unsigned_abs lg ≤ 2 ^ 61) }
    requires second { ForSome second (λ lg. unsigned_abs lg ≤ 2 ^ 61) }
    ensures { result ≡ product_lg first second }
{
    let x = first?;
    let y = second?;
    Some(x + y)
}

/// The logarithm of a number to a power.
fn power_lg(lg: Option<i64>, power: u8) -> Option<i64>
    requires { ForSome lg (λ lg. unsigned_abs lg ≤ 2 ^ 42) }
    ensures value { result ≡ power_lg lg power }
    ensures range { ForSome result (λ lg. unsigned_abs lg ≤ 2 ^ 50) }
{
    if power == 0 {
        return Some(0);
    }
    let lg = lg?;
    Some(lg * i64::from(power))
}

/// The logarithm of what the molecules that are consumed of one gas add, by its molar fraction and their number.
fn consumed_lg(pressure: &Decimal, gas: &(Decimal, u8)) -> Option<i64>
    ensures value { result ≡ consumed_lg pressure.now gas.now }
    ensures range { ForSome result (λ lg. unsigned_abs lg ≤ 2 ^ 50) }
{
    power_lg(product_lg(lg_of(pressure), lg_of(&gas.0)), gas.1)
}

/// The logarithm of the inverse of the ratio of a reverse process.
fn inverse_lg(ratio: &Option<Decimal>) -> Option<i64>
    ensures value { result ≡ inverse_lg ratio.now }
    ensures range { ForSome result (λ lg. unsigned_abs lg ≤ 2 ^ 41) }
{
    match ratio {
        None => Some(0),
        Some(ratio) => {
            let lg = lg_of(ratio)?;
            Some(-lg)
        }
    }
}

/// The base-2 logarithm of the factor of a process in 1/s, in units of 2^-30: of its pre-exponential factor, times the
/// pressure times the molar fraction for each gas molecule that it consumes; a reverse process has a ratio (`pe_ratio`),
/// by which its factor is divided. `None` where one of these numbers is 0. The gases that it consumes are given by their
/// molar fractions, each with the number of molecules. It takes no memory.
pub fn factor_of(
    pre_exponential: &Decimal,
    ratio: &Option<Decimal>,
    pressure: &Decimal,
    consumed: &[(Decimal, u8)],
) -> Option<i64>
    requires { length consumed.now ≤ MAX_SPECIES }
    ensures { result ≡ factor_of pre_exponential.now ratio.now pressure.now consumed.now }
{
    let mut lg = product_lg(lg_of(pre_exponential), inverse_lg(ratio));
    for gas in consumed {
        lg = product_lg(lg, consumed_lg(pressure, gas));
    }
    lg
}
