ghost use Rattle.std.specs.Prelude.{◌≡◌};
ghost use Rattle.energetics_deck.specs.Shares.{AreInRange, share_of};

/// The energy of a cluster, in neV, over its graph multiplicity, rounded half away from zero.
pub(crate) fn share_of(energy: i128, multiplicity: u64) -> i64
    requires { AreInRange energy multiplicity }
    ensures { result ≡ share_of energy multiplicity }
{
    let multiplicity = u128::from(multiplicity);
    let size = (2 * energy.unsigned_abs() + multiplicity) / (2 * multiplicity);
    if energy < 0 {
        -(size as i64)
    } else {
        size as i64
    }
}
