ghost use Rattle.std.specs.Prelude.{ℕ, List, ◌≡◌, IfErr, IfOk, Ok};
ghost use Rattle.deck_shape.specs.Blocks.{block_at};
ghost use Rattle.deck_shape.specs.Shapes.{IsFaultOf};
ghost use Rattle.deck_words.specs.Faults.{value_map};
ghost use Rattle.kmc_base.specs.declared.ids.FileId.TheVariants.{Simulation};
ghost use Rattle.sim_deck.specs.Soundness.{IsSoundPart};
ghost use Rattle.sim_deck.specs.Values.{part_of, part_with, values_at};
ghost use Rattle.sim_deck.specs.Views.{gas_at, surface_at};

use crate::part::SimPart;
use crate::plan::{conditions_in, limit_in};
use crate::species::{Gas, Surface, gas_in, surface_in};
use dec_text::Decimal;
use deck_shape::{Block, DeckFault, Fault, Keyword, Shape};
use deck_values::ANY_WHOLE;
use deck_words::{LineFault, both, with_fault};
use kmc_base::{FileId, OutOfMemory, Sequence};
use run_plan::Plan;
use std::alloc::Global;

/// The part of a deck that has these values.
fn part_with(
    conditions: Result<(Plan, (u32, Decimal)), LineFault>,
    gas: Result<Gas, LineFault>,
    surface: Result<Surface, LineFault>,
) -> Result<SimPart, LineFault>
    ensures { (text : List ℕ) → value_map (values_at text) result
        ≡ part_with conditions (value_map (gas_at text) gas) (value_map (surface_at text) surface) }
{
    let ((plan, (temperature, pressure)), (gas, surface)) = both(conditions, both(gas, surface))?;
    Ok(SimPart {
        plan,
        temperature,
        pressure,
        gas: Sequence::new(gas.names),
        gas_energies: Sequence::new(gas.energies),
        gas_fractions: Sequence::new(gas.fractions),
        surface: Sequence::new(surface.names),
        dentates: Sequence::new(surface.dentates),
    })
}

/// The values of a block, or its first fault.
fn part_of(
    alloc: Global,
    bytes: &[u8],
    block: &Block,
) -> Result<Result<SimPart, LineFault>, OutOfMemory>
    ensures { IfOk result (λ part. value_map (values_at bytes.now) part ≡ part_of (block_at bytes.now block.now)) }
{
    let gas = gas_in(alloc, bytes, block)?;
    let surface = surface_in(alloc, bytes, block)?;
    let part = part_with(conditions_in(bytes, block), gas, surface);
    let wall_time = limit_in(ANY_WHOLE, bytes, block, Keyword::WallTime);
    Ok(with_fault(wall_time.err(), part))
}

/// The values of a simulation file, or its first fault of a value.
///
/// The faults are those of `kind` from `NOT_NUMBER` to `LIST_LENGTH`, `REPEATED_NAME` and `BAD_NAME`; of the kinds that
/// hold at the first faulty line the least is the fault. The length of a list is checked where the number of species
/// has no fault itself.
pub fn read(alloc: Global, bytes: &[u8], shape: &Shape) -> Result<SimPart, DeckFault>
    ensures values { IfOk result (λ part. part_of (block_at bytes.now shape.now.block) ≡ Ok (values_at bytes.now part)) }
    ensures sound { IfOk result (λ part. IsSoundPart (values_at bytes.now part)) }
    ensures fault { IfErr result (IsFaultOf Simulation (part_of (block_at bytes.now shape.now.block))) }
{
    match part_of(alloc, bytes, &shape.block)? {
        Ok(part) => Ok(part),
        Err(LineFault { line, kind }) => Err(DeckFault::Fault(Fault {
            file: FileId::Simulation,
            line,
            kind,
        })),
    }
}
