ghost use Rattle.std.specs.Prelude.{◌≡◌, ◌^◌, ◌<◌, ◌≤◌, pos, unsigned_abs};
ghost use Rattle.rate_rules.specs.Held.{held_within};

/// A number, held within -bound and bound.
pub(crate) fn hold(number: i128, bound: u64) -> i128
    ensures value { result ≡ held_within bound number }
    ensures range { unsigned_abs result ≤ bound }
{
    let bound = i128::from(bound);
    number.min(bound).max(-bound)
}
