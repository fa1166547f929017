ghost use Rattle.std.specs.Prelude.{◌≡◌, ◌*◌, ◌^◌, ◌≤◌, pos, ◌*ℤ◌, ◌≤ℤ◌, unsigned_abs};
ghost use Rattle.std.specs.Int.{int_div_euclid};
ghost use Rattle.rate_rules.specs.Barrier.{barrier_of, forward_barrier, shifted_activation};
ghost use Rattle.rate_rules.specs.Soundness.{HasSoundNumbers};

use crate::chemistry::Process;

/// The unit of a proximity factor is one over this number.
const PROXIMITY_UNIT: i128 = 1_000_000_000;

/// The proximity factor times a change of energy, rounded toward minus infinity.
fn shift(proximity: u32, change: i128) -> i128
    requires proximity { proximity ≤ 10 ^ 9 }
    requires change { unsigned_abs change ≤ 2 * 10 ^ 18 }
    ensures value { result ≡ int_div_euclid (pos proximity *ℤ change) (pos (10 ^ 9)) }
    ensures range { unsigned_abs result ≤ 2 * 10 ^ 18 }
{
    (i128::from(proximity) * change).div_euclid(PROXIMITY_UNIT)
}

/// The activation energy of a forward step, shifted by the proximity factor times the change of its reaction energy.
fn shifted_activation(process: &Process, d: i128, d0: i128) -> i128
    requires process { HasSoundNumbers process.now }
    requires d { unsigned_abs d ≤ 10 ^ 18 }
    requires d0 { unsigned_abs d0 ≤ 10 ^ 18 }
    ensures value { result ≡ shifted_activation process.now d d0 }
    ensures range { unsigned_abs result ≤ 3 * 10 ^ 18 }
{
    i128::from(process.activation) + shift(process.proximity, d - d0)
}

/// The barrier of a forward step.
fn forward_barrier(process: &Process, d: i128, d0: i128) -> i128
    requires process { HasSoundNumbers process.now }
    requires d { unsigned_abs d ≤ 10 ^ 18 }
    requires d0 { unsigned_abs d0 ≤ 10 ^ 18 }
    ensures value { result ≡ forward_barrier process.now d d0 }
    ensures low { pos 0 ≤ℤ result }
    ensures least { d ≤ℤ result }
    ensures high { result ≤ℤ pos (3 * 10 ^ 18) }
{
    shifted_activation(process, d, d0).max(d).max(0)
}

/// The energy barrier of an instance of a process, in neV, by its reaction energy `d` and that of its bare entities `d0`,
/// both in the forward direction of the step.
pub fn barrier(process: &Process, d: i128, d0: i128) -> i128
    requires process { HasSoundNumbers process.now }
    requires d { unsigned_abs d ≤ 10 ^ 18 }
    requires d0 { unsigned_abs d0 ≤ 10 ^ 18 }
    ensures value { result ≡ barrier_of process.now d d0 }
    ensures low { pos 0 ≤ℤ result }
    ensures high { result ≤ℤ pos (4 * 10 ^ 18) }
{
    let forward = forward_barrier(process, d, d0);
    if process.forward {
        forward
    } else {
        forward - d
    }
}
