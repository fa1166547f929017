ghost use Rattle.std.specs.List.{flat_map};
ghost use Rattle.screen_text.specs.Printing.{Printed, screen_by};

use kmc_base::{Failed, Sink};

/// Prints a text.
///
/// # Errors
///
/// The screen failed, and took a front of the text.
pub fn print<S: Sink>(screen: &mut S, text: &[u8]) -> Result<(), Failed>
    ensures { Printed text.now result (screen_by S.faults S.taken screen.old) (screen_by S.faults S.taken screen.new) }
{
    screen.put(text)
}

/// Prints the pieces of a text, one after another.
pub(crate) fn print_pieces<S: Sink>(screen: &mut S, pieces: &[&str]) -> Result<(), Failed>
    ensures { Printed (flat_map (λ piece. piece.now) pieces.now) result (screen_by S.faults S.taken screen.old)
        (screen_by S.faults S.taken screen.new) }
{
    for piece in pieces {
        print(screen, piece.as_bytes())?;
    }
    Ok(())
}
