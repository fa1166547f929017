ghost use Rattle.std.specs.Prelude.{◌≡◌, ◌≤◌, IfOk, map};
ghost use Rattle.deck_maker.specs.MadeDeck.{made_files};

use crate::files::{energetics_file, lattice_file, mechanism_file, simulation_file};
use kmc_base::OutOfMemory;
use std::alloc::Global;

/// The greatest number of a made deck.
pub const MAX_DECK: u32 = 99;

/// The four input files of a deck, by its number: the simulation file, the lattice file, the energetics file and the
/// mechanism file, in this order.
///
/// # Errors
///
/// Out of memory.
pub fn make(alloc: Global, number: u32) -> Result<[Vec<u8>; 4], OutOfMemory>
    requires { number ≤ MAX_DECK }
    ensures { IfOk result (λ files. map (λ file. file.items) files ≡ made_files number) }
{
    Ok([
        simulation_file(alloc, number)?,
        lattice_file(alloc, number)?,
        energetics_file(alloc)?,
        mechanism_file(alloc)?,
    ])
}
