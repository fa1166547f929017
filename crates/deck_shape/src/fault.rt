ghost use Rattle.std.specs.Prelude.{◌≡◌};
ghost use Rattle.deck_shape.specs.declared.fault.DeckFault.TheVariants.{OutOfMemory};

use kmc_base::{FileId, OutOfMemory};
use std::alloc::{AllocError, AllocFailed};

/// A fault of a deck: where it is, and its kind.
#[derive(Clone, Copy, Debug, PartialEq, Eq)]
pub struct Fault {
    /// The input file.
    pub file: FileId,
    /// The number of the line, from 1; 0 where the fault is the file as a whole.
    pub line: u32,
    /// One of the numbers of this crate's `kind`.
    pub kind: u8,
}

/// Why a file of a deck was not read.
#[derive(Clone, Copy, Debug, PartialEq, Eq)]
pub enum DeckFault {
    /// The file's first fault.
    Fault(Fault),
    /// Memory was refused. It says nothing of the file.
    OutOfMemory,
}

impl From<OutOfMemory> for DeckFault {
    ghost from_gives = { λ _ fault. fault ≡ OutOfMemory };

    fn from(_error: OutOfMemory) -> DeckFault {
        DeckFault::OutOfMemory
    }
}

impl From<AllocError> for DeckFault {
    ghost from_gives = { λ _ fault. fault ≡ OutOfMemory };

    fn from(_error: AllocError) -> DeckFault {
        DeckFault::OutOfMemory
    }
}

impl<T: Drop> From<AllocFailed<T>> for DeckFault {
    ghost from_gives = { λ _ fault. fault ≡ OutOfMemory };

    fn from(_error: AllocFailed<T>) -> DeckFault {
        DeckFault::OutOfMemory
    }
}
