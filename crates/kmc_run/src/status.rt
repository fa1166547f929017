ghost use Rattle.std.specs.Prelude.{◌≡◌};
ghost use Rattle.kmc_run.specs.Statuses.{status_of_fault, status_of_refusal};
ghost use Rattle.kmc_run.specs.declared.status.Status.TheVariants.{OutOfMemory as NoMemory};

use crate::drive_fault::DriveFault;
use deck_join::DeckRefusal;
use deck_shape::Fault;
use kmc_base::{FileId, OutId, OutOfMemory};

/// How a run of the program ended.
#[derive(Clone, Copy, Debug, PartialEq, Eq)]
pub enum Status {
    /// All was done.
    Done,
    /// The words are not those that the program takes.
    BadWords,
    /// The deck has a fault, and this is the first.
    Refused(Fault),
    /// An input file could not be read.
    ReadFault(FileId),
    /// An output could not be written.
    WriteFault(OutId),
    /// The screen failed; the outputs are complete.
    ScreenFault,
    /// There was no memory.
    OutOfMemory,
}

impl Status {
    ghost use Rattle.kmc_run.specs.Statuses.{number_of_status};

    /// The exit status of the program: 0 where all was done, else from 2 on.
    pub fn number(self) -> u8
        ensures { result ≡ number_of_status self }
    {
        match self {
            Status::Done => 0,
            Status::BadWords => 2,
            Status::Refused(_) => 3,
            Status::ReadFault(_) => 4,
            Status::WriteFault(_) => 5,
            Status::ScreenFault => 6,
            Status::OutOfMemory => 7,
        }
    }
}

impl From<DeckRefusal> for Status {
    ghost from_gives = { λ refusal status. status ≡ status_of_refusal refusal };

    fn from(refusal: DeckRefusal) -> Status {
        match refusal {
            DeckRefusal::Load(file) => Status::ReadFault(file),
            DeckRefusal::Fault(fault) => Status::Refused(fault),
            DeckRefusal::OutOfMemory => Status::OutOfMemory,
        }
    }
}

impl From<DriveFault> for Status {
    ghost from_gives = { λ fault status. status ≡ status_of_fault fault };

    fn from(fault: DriveFault) -> Status {
        match fault {
            DriveFault::WriteFault(out) => Status::WriteFault(out),
            DriveFault::OutOfMemory => Status::OutOfMemory,
        }
    }
}

impl From<OutOfMemory> for Status {
    ghost from_gives = { λ _ status. status ≡ NoMemory };

    fn from(_error: OutOfMemory) -> Status {
        Status::OutOfMemory
    }
}
