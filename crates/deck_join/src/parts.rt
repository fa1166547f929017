//! The third pass: the values of the lines.

ghost use Rattle.std.specs.Prelude.{◌≡◌, ◌≤◌, IfOk, length};
ghost use Rattle.energetics_deck.specs.Soundness.{IsSoundPart as AreSoundClusters};
ghost use Rattle.energetics_deck.specs.Views.{values_at as energetics_at};
ghost use Rattle.sim_deck.specs.Soundness.{IsSoundPart};
ghost use Rattle.sim_deck.specs.Values.{values_at as simulation_at};
ghost use Rattle.deck_join.specs.Answers.{Reads};
ghost use Rattle.deck_join.specs.Passes.{values_in};
ghost use Rattle.deck_join.specs.Views.{bytes_of, lines_at, values_at};
ghost use Rattle.deck_join.specs.SoundValues.{AreSoundValues};

use crate::file_slices::FileSlices;
use crate::shapes::Shapes;
use deck_shape::DeckFault;
use energetics_deck::EnergeticsPart;
use lattice_deck::LatticePart;
use mechanism_deck::MechanismPart;
use sim_deck::SimPart;
use std::alloc::Global;

/// The values of the files.
#[derive(Debug, Drop)]
pub(crate) struct Parts {
    pub(crate) simulation: SimPart,
    pub(crate) lattice: LatticePart,
    pub(crate) energetics: EnergeticsPart,
    pub(crate) mechanism: MechanismPart,
}

/// The values of the files, or the first fault of a value.
#[tactic(auto, unfolding(crate::specs::Passes::values_in))]
pub(crate) fn read_parts(
    alloc: Global,
    files: &FileSlices,
    shapes: &Shapes,
) -> Result<Parts, DeckFault>
    ensures values { Reads (values_at (bytes_of files.now)) result (values_in (lines_at (bytes_of files.now) shapes.now)) }
    ensures sound { IfOk result (λ parts. AreSoundValues (values_at (bytes_of files.now) parts)) }
{
    let simulation = sim_deck::read(alloc, files.simulation, &shapes.simulation)?;
    let lattice = lattice_deck::read(alloc, files.lattice, &shapes.lattice)?;
    let energetics = energetics_deck::read(alloc, files.energetics, &shapes.energetics)?;
    let mechanism = mechanism_deck::read(alloc, files.mechanism, &shapes.mechanism)?;
    Ok(Parts {
        simulation,
        lattice,
        energetics,
        mechanism,
    })
}
