//! The first pass: the files are there and are not too long.

ghost use Rattle.std.specs.Prelude.{◌≡◌, ◌≤◌, IfOk, length};
ghost use Rattle.kmc_base.specs.declared.limits.TheConstants.{MAX_FILE_BYTES};
ghost use Rattle.deck_join.specs.Answers.{Reads};
ghost use Rattle.deck_join.specs.Passes.{bytes_in, files_in};
ghost use Rattle.deck_join.specs.Texts.{IsShort, texts_in};
ghost use Rattle.deck_join.specs.Views.{AreShort, bytes_of};

use crate::file_fault::file_fault;
use crate::text::{Text, text_at};
use deck_shape::DeckFault;
use deck_words::kind::{FILE_ABSENT, FILE_TOO_LONG};
use kmc_base::FileId;

/// The bytes of the files of a deck.
#[derive(Clone, Copy, Debug)]
pub(crate) struct FileSlices<'a> {
    pub(crate) simulation: &'a [u8],
    pub(crate) lattice: &'a [u8],
    pub(crate) energetics: &'a [u8],
    pub(crate) mechanism: &'a [u8],
}

/// The bytes of a text that is there and is not too long.
fn bytes_in(file: FileId, text: &Text) -> Result<&[u8], DeckFault>
    requires { IsShort text.now }
    ensures bytes { Reads (λ bytes. bytes.now) result (bytes_in file text.now) }
    ensures short { IfOk result (λ bytes. length bytes.now ≤ MAX_FILE_BYTES) }
{
    match text {
        Text::Absent => Err(file_fault(file, FILE_ABSENT)),
        Text::TooLong => Err(file_fault(file, FILE_TOO_LONG)),
        Text::Bytes(bytes) => Ok(bytes.as_slice()),
    }
}

/// The bytes of the files, or the fault of the first that is absent or too long.
#[tactic(auto, unfolding(crate::specs::Passes::files_in))]
pub(crate) fn files_in<'a>(
    simulation: &'a Text,
    lattice: &'a Text,
    energetics: &'a Text,
    mechanism: &'a Text,
) -> Result<FileSlices<'a>, DeckFault>
    requires simulation { IsShort simulation.now }
    requires lattice { IsShort lattice.now }
    requires energetics { IsShort energetics.now }
    requires mechanism { IsShort mechanism.now }
    ensures bytes { Reads bytes_of result (files_in (record { simulation = simulation.now; lattice = lattice.now; energetics = energetics.now; mechanism = mechanism.now })) }
    ensures short { IfOk result AreShort }
{
    let simulation = bytes_in(FileId::Simulation, simulation)?;
    let lattice = bytes_in(FileId::Lattice, lattice)?;
    let energetics = bytes_in(FileId::Energetics, energetics)?;
    let mechanism = bytes_in(FileId::Mechanism, mechanism)?;
    Ok(FileSlices {
        simulation,
        lattice,
        energetics,
        mechanism,
    })
}
