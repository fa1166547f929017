ghost use Rattle.std.specs.Prelude.{◌≡◌};
ghost use Rattle.kmc_run.specs.declared.drive_fault.DriveFault.TheVariants.{OutOfMemory as NoMemory};

use kmc_base::{OutId, OutOfMemory};

/// Why a run was broken off. What was written before stays.
#[derive(Clone, Copy, Debug, PartialEq, Eq, Hash)]
pub enum DriveFault {
    /// An output could not be written.
    WriteFault(OutId),
    /// There was no memory.
    OutOfMemory,
}

impl From<OutOfMemory> for DriveFault {
    ghost from_gives = { λ _ fault. fault ≡ NoMemory };

    fn from(_error: OutOfMemory) -> DriveFault {
        DriveFault::OutOfMemory
    }
}
