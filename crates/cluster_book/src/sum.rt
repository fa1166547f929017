ghost use Rattle.std.specs.Prelude.{◌≡◌, ◌^◌, ◌≤◌, length, unsigned_abs};
ghost use Rattle.cluster_book.specs.Book.{AreEnergies, AreOfClusters};
ghost use Rattle.cluster_book.specs.Total.{sum_of_shares};

use crate::found::Found;

/// The sum of the shares of some instances, in neV.
pub(crate) fn sum_of(shares: &[i64], found: &[Found]) -> i128
    requires energies { AreEnergies shares.now }
    requires clusters { AreOfClusters (length shares.now) found.now }
    ensures value { result ≡ sum_of_shares shares.now found.now }
    ensures range { unsigned_abs result ≤ 2 ^ 104 }
{
    let mut sum = 0;
    for instance in found {
        sum += i128::from(shares[usize::from(instance.cluster.0)]);
    }
    sum
}
