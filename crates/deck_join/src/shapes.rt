//! The second pass: the form of the lines.

ghost use Rattle.std.specs.Prelude.{◌≡◌, ◌≤◌, IfOk, length};
ghost use Rattle.deck_join.specs.Answers.{Reads};
ghost use Rattle.deck_join.specs.Passes.{blocks_in, lines_in};
ghost use Rattle.deck_join.specs.Views.{AreShort, bytes_of, lines_at};

use crate::file_slices::FileSlices;
use deck_shape::{DeckFault, Shape, read_shape};
use kmc_base::FileId;
use std::alloc::Global;

/// The shapes of the files.
#[derive(Debug, Drop)]
pub(crate) struct Shapes {
    pub(crate) simulation: Shape,
    pub(crate) lattice: Shape,
    pub(crate) energetics: Shape,
    pub(crate) mechanism: Shape,
}

/// The shapes of the files, or the first fault of form.
#[tactic(auto, unfolding(crate::specs::Passes::lines_in))]
pub(crate) fn read_shapes(alloc: Global, files: &FileSlices) -> Result<Shapes, DeckFault>
    requires { AreShort files.now }
    ensures { Reads (lines_at (bytes_of files.now)) result (lines_in (bytes_of files.now)) }
{
    let simulation = read_shape(alloc, FileId::Simulation, files.simulation)?;
    let lattice = read_shape(alloc, FileId::Lattice, files.lattice)?;
    let energetics = read_shape(alloc, FileId::Energetics, files.energetics)?;
    let mechanism = read_shape(alloc, FileId::Mechanism, files.mechanism)?;
    Ok(Shapes {
        simulation,
        lattice,
        energetics,
        mechanism,
    })
}
