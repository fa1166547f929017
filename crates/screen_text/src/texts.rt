ghost use Rattle.std.specs.Prelude.{◌≡◌, IfOk};
ghost use Rattle.screen_text.specs.Printing.{Printed, screen_by};
ghost use Rattle.screen_text.specs.Texts.{deck_text, fault_text, no_memory_text, unread_text, unwritten_text, usage_text};

use crate::printing::print_pieces;
use itoa::Buffer;
use kmc_base::{Failed, FileId, OutId, OutOfMemory, Sink};
use std::alloc::Global;

/// Prints what the command line takes.
pub fn print_usage<S: Sink>(screen: &mut S) -> Result<(), Failed>
    ensures { Printed usage_text result (screen_by S.faults S.taken screen.old) (screen_by S.faults S.taken screen.new) }
{
    print_pieces(
        screen,
        &["kmc: run, check, sample N or schedule N, with --workers W and --spread M\n"],
    )
}

/// Prints the fault of a deck: its file, its line and its kind.
pub fn print_fault<S: Sink>(screen: &mut S, file: FileId, line: u32, kind: u8) -> Result<(), Failed>
    ensures { Printed (fault_text file line kind) result (screen_by S.faults S.taken screen.old)
        (screen_by S.faults S.taken screen.new) }
{
    let mut of_line = Buffer::new();
    let mut of_kind = Buffer::new();
    let line = of_line.format(line);
    let kind = of_kind.format(kind);
    print_pieces(
        screen,
        &["fault ", file.name(), " line ", line, " kind ", kind, "\n"],
    )
}

/// Prints that an input file could not be read.
pub fn print_unread<S: Sink>(screen: &mut S, file: FileId) -> Result<(), Failed>
    ensures { Printed (unread_text file) result (screen_by S.faults S.taken screen.old) (screen_by S.faults S.taken screen.new) }
{
    print_pieces(screen, &["cannot read ", file.name(), "\n"])
}

/// Prints that an output could not be written.
pub fn print_unwritten<S: Sink>(screen: &mut S, out: OutId) -> Result<(), Failed>
    ensures { Printed (unwritten_text out) result (screen_by S.faults S.taken screen.old) (screen_by S.faults S.taken screen.new) }
{
    print_pieces(screen, &["cannot write ", out.name(), "\n"])
}

/// Prints that there was no memory.
pub fn print_no_memory<S: Sink>(screen: &mut S) -> Result<(), Failed>
    ensures { Printed no_memory_text result (screen_by S.faults S.taken screen.old) (screen_by S.faults S.taken screen.new) }
{
    print_pieces(screen, &["out of memory\n"])
}

/// How many sites, processes and clusters a deck has, as lines.
pub fn deck_text(
    alloc: Global,
    sites: u32,
    processes: usize,
    clusters: usize,
) -> Result<Vec<u8>, OutOfMemory>
    ensures { IfOk result (λ text. text.items ≡ deck_text sites processes clusters) }
{
    let text = format!(in alloc; "sites {sites}\nprocesses {processes}\nclusters {clusters}\n")?;
    Ok(text.into_bytes())
}
