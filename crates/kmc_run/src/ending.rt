//! What the program tells at its end.

ghost use Rattle.std.specs.Prelude.{◌≡◌, []};
ghost use Rattle.kmc_run.specs.Ends.{EndsWell, Shows, TookOrFailed, text_of};
ghost use Rattle.screen_text.specs.Printing.{screen_by};

use crate::status::Status;
use kmc_base::Sink;
use screen_text::{
    print, print_fault, print_no_memory, print_unread, print_unwritten, print_usage,
};

/// Prints the text of what was done. The status is `Done`, or `ScreenFault` where the screen fails.
pub(crate) fn tell_done<S: Sink>(screen: &mut S, text: &[u8]) -> Status
    ensures shows { Shows result (text_of text.now result) (screen_by S.faults S.taken screen.old) (screen_by S.faults S.taken screen.new) }
    ensures ends { EndsWell result }
{
    match print(screen, text) {
        Ok(()) => Status::Done,
        Err(_) => Status::ScreenFault,
    }
}

/// Prints the text of a status with which the program ends before all is done. The status stays where the screen fails.
pub(crate) fn tell<S: Sink>(screen: &mut S, status: Status) -> Status
    ensures same { result ≡ status }
    ensures shows { TookOrFailed (text_of [] status) (screen_by S.faults S.taken screen.old) (screen_by S.faults S.taken screen.new) }
{
    let _ = match status {
        Status::BadWords => print_usage(screen),
        Status::Refused(fault) => print_fault(screen, fault.file, fault.line, fault.kind),
        Status::ReadFault(file) => print_unread(screen, file),
        Status::WriteFault(out) => print_unwritten(screen, out),
        Status::OutOfMemory => print_no_memory(screen),
        Status::Done | Status::ScreenFault => print(screen, b""),
    };
    status
}
