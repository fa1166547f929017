ghost use Rattle.std.specs.Prelude.{◌≡◌};
ghost use Rattle.lattice_core.specs.declared.fault.GraphFault.TheVariants.{OutOfMemory};

use std::alloc::{AllocError, AllocFailed};
use std::error::Error;
use std::fmt;

/// Why lists of neighbours make no lattice. Each number is that of a site, from 0.
///
/// The first fault is that of the least site that has one, and at one site the first in this order.
#[derive(Clone, Copy, Debug, PartialEq, Eq, Hash)]
pub enum GraphFault {
    /// This site lists a number that is no site.
    BadSite(u32),
    /// This site lists itself.
    SelfNeighbour(u32),
    /// This site has more than `MAX_NEIGHBOURS` neighbours.
    TooMany(u32),
    /// The first site lists the second, which does not list it; of several such it is the least.
    OneSided(u32, u32),
    /// There was no memory. It says nothing of the lists.
    OutOfMemory,
}

impl fmt::Display for GraphFault {
    fn fmt<W: fmt::Write>(&self, f: &mut fmt::Formatter<W>) -> fmt::Result {
        match self {
            GraphFault::BadSite(site) => write!(f, "site {site} lists a number that is no site"),
            GraphFault::SelfNeighbour(site) => write!(f, "site {site} is its own neighbour"),
            GraphFault::TooMany(site) => write!(f, "site {site} has too many neighbours"),
            GraphFault::OneSided(site, other) => write!(
                f,
                "site {site} lists {other}, which does not list it"
            ),
            GraphFault::OutOfMemory => f.write_str("out of memory"),
        }
    }
}

impl Error for GraphFault {}

impl From<AllocError> for GraphFault {
    ghost from_gives = { λ _ fault. fault ≡ OutOfMemory };

    fn from(_error: AllocError) -> GraphFault {
        GraphFault::OutOfMemory
    }
}

impl<T: Drop> From<AllocFailed<T>> for GraphFault {
    ghost from_gives = { λ _ fault. fault ≡ OutOfMemory };

    fn from(_error: AllocFailed<T>) -> GraphFault {
        GraphFault::OutOfMemory
    }
}
