ghost use Rattle.std.specs.Prelude.{◌≡◌, ◌↔◌, ◌*◌, ◌^◌, ◌<◌, ◌≤◌, pos, ◌≤ℤ◌, IsNone, unsigned_abs};
ghost use Rattle.std.specs.Option.{ForSome};
ghost use Rattle.rate_rules.specs.Rate.{barrier_part, lg_rate};

use crate::chemistry::{Chemistry, Process};
use crate::hold::hold;

/// 10^8 times the Boltzmann constant, 86.17333262 neV/mK, times the natural logarithm of 2, rounded.
const KB_LN_2: u128 = 5_973_080_255;

/// The greatest magnitude of the logarithm of a rate, in units of 2^-30.
const MAX_LG: u64 = 1 << 42;

/// What a barrier in neV takes from the logarithm of a rate, at a temperature in mK.
fn barrier_part(barrier: u64, temperature: u32) -> u128
    requires heat { 1 ≤ temperature }
    requires barrier { barrier ≤ 4 * 10 ^ 18 }
    ensures value { result ≡ barrier_part barrier temperature }
    ensures range { result < 2 ^ 120 }
{
    ((u128::from(barrier) * 100_000_000) << 30) / (KB_LN_2 * u128::from(temperature))
}

/// The base-2 logarithm of a rate in 1/s, in units of 2^-30, by the logarithm of its factor, the barrier in neV and the
/// temperature in mK. `None` where there is no factor. It takes no memory.
fn lg_over_barrier(factor: Option<i64>, barrier: u64, temperature: u32) -> Option<i64>
    requires heat { 1 ≤ temperature }
    requires barrier { barrier ≤ 4 * 10 ^ 18 }
    ensures value { result ≡ lg_rate factor barrier temperature }
    ensures none { IsNone result ↔ IsNone factor }
    ensures range { ForSome result (λ lg. unsigned_abs lg ≤ 2 ^ 42) }
{
    let lg = i128::from(factor?) - barrier_part(barrier, temperature) as i128;
    Some(hold(lg, MAX_LG) as i64)
}

/// The base-2 logarithm of the rate in 1/s of a process over a barrier in neV, in units of 2^-30; `None` if and only if the
/// process has no factor. It takes no memory.
pub fn lg_rate(chem: &Chemistry, process: &Process, barrier: i128) -> Option<i64>
    requires heat { 1 ≤ chem.now.temperature }
    requires low { pos 0 ≤ℤ barrier }
    requires high { barrier ≤ℤ pos (4 * 10 ^ 18) }
    ensures value { result ≡ lg_rate process.now.factor (unsigned_abs barrier) chem.now.temperature }
    ensures none { IsNone result ↔ IsNone process.now.factor }
    ensures range { ForSome result (λ lg. unsigned_abs lg ≤ 2 ^ 42) }
{
    lg_over_barrier(process.factor, barrier as u64, chem.temperature)
}
