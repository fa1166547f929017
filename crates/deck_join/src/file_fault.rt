//! Faults of a file as a whole, and of a line of a file.

ghost use Rattle.std.specs.Prelude.{◌≡◌};
ghost use Rattle.deck_join.specs.Answers.{Reads, fault_in, file_fault, in_file};
ghost use Rattle.deck_shape.specs.declared.fault.DeckFault.TheVariants.{Fault as Faulty};

use deck_shape::{DeckFault, Fault};
use deck_words::LineFault;
use kmc_base::FileId;

/// A fault of a file as a whole.
pub(crate) fn file_fault(file: FileId, kind: u8) -> DeckFault
    ensures { result ≡ Faulty (file_fault file kind) }
{
    DeckFault::Fault(Fault {
        file,
        line: 0,
        kind,
    })
}

/// A fault of a line of a file.
pub(crate) fn fault_in(file: FileId, fault: LineFault) -> DeckFault
    ensures { result ≡ Faulty (fault_in file fault) }
{
    DeckFault::Fault(Fault {
        file,
        line: fault.line,
        kind: fault.kind,
    })
}

/// What is read of a file, or its fault.
pub(crate) fn in_file<T: Drop>(file: FileId, read: Result<T, LineFault>) -> Result<T, DeckFault>
    ensures { Reads (λ value. value) result (in_file file read) }
{
    match read {
        Ok(value) => Ok(value),
        Err(fault) => Err(fault_in(file, fault)),
    }
}
