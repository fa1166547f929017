//! The processes of steps: a forward one of each, and of a reversible step the reverse after it.

ghost use Rattle.std.specs.Prelude.{◌≡◌, ◌++◌, ◌≤◌, IfOk, length, map};
ghost use Rattle.std.specs.List.{AllByRecursion};
ghost use Rattle.deck_join.specs.Processes.{forward_of, processes_of, processes_of_step, reverse_of, side_of};
ghost use Rattle.deck_join.specs.SoundValues.{AreGases, IsPatternFor, IsSoundStep};
ghost use Rattle.deck_join.specs.Views.{gases_at, named_at, named_steps_at};
ghost use Rattle.site_rows.specs.declared.type_word.TheConstants.{MAX_SITE_TYPES};

use crate::gas::{consumed_of, gas_energy, reversed};
use crate::pattern::pattern_with;
use crate::steps::NamedStep;
use kmc_base::{OutOfMemory, Sequence};
use pattern_types::{Pattern, Wanted};
use rate_rules::{Process, factor_of};
use sim_deck::SimPart;
use site_rows::TypeIndex;
use std::alloc::Global;

/// A side of a step that wants these states.
fn side_of(
    alloc: Global,
    bytes: &[u8],
    index: &TypeIndex,
    step: &NamedStep,
    wanted: &[Wanted],
) -> Result<Pattern, OutOfMemory>
    requires few_types { length index.now ≤ MAX_SITE_TYPES }
    requires pattern { let values = (named_at bytes.now step.now).step
        in IsPatternFor values.body.sites values.body.edges values.variant.types wanted.now }
    ensures { IfOk result (λ side. side ≡ side_of index.now (named_at bytes.now step.now) wanted.now) }
{
    let edges = step.step.edges.as_slice();
    let types = step.step.types.as_slice();
    pattern_with(alloc, bytes, index, step.step.sites, edges, types, wanted)
}

/// The forward process of a step.
fn forward_of(
    alloc: Global,
    bytes: &[u8],
    simulation: &SimPart,
    index: &TypeIndex,
    step: &NamedStep,
) -> Result<Process, OutOfMemory>
    requires few_types { length index.now ≤ MAX_SITE_TYPES }
    requires gases { AreGases simulation.now }
    requires step { IsSoundStep (length simulation.now.gas) (named_at bytes.now step.now) }
    ensures { IfOk result (λ process. process ≡ forward_of (gases_at simulation.now) index.now (named_at bytes.now step.now)) }
{
    let changes = step.changes.gas.as_slice();
    let fractions = simulation.gas_fractions.as_slice();
    let consumed = consumed_of(alloc, fractions, changes)?;
    Ok(Process {
        before: side_of(alloc, bytes, index, step, step.changes.before.as_slice())?,
        after: side_of(alloc, bytes, index, step, step.changes.after.as_slice())?,
        forward: true,
        gas: gas_energy(simulation.gas_energies.as_slice(), changes),
        gas_change: Sequence::new(Vec::from_slice(alloc, changes)?),
        factor: factor_of(&step.step.pre_expon, &None, &simulation.pressure, &consumed),
        activation: step.step.activation,
        proximity: step.step.proximity,
    })
}

/// The reverse process of a step.
fn reverse_of(
    alloc: Global,
    bytes: &[u8],
    simulation: &SimPart,
    index: &TypeIndex,
    step: &NamedStep,
) -> Result<Process, OutOfMemory>
    requires few_types { length index.now ≤ MAX_SITE_TYPES }
    requires gases { AreGases simulation.now }
    requires step { IsSoundStep (length simulation.now.gas) (named_at bytes.now step.now) }
    ensures { IfOk result (λ process. process ≡ reverse_of (gases_at simulation.now) index.now (named_at bytes.now step.now)) }
{
    let changes = reversed(alloc, step.changes.gas.as_slice())?;
    let fractions = simulation.gas_fractions.as_slice();
    let consumed = consumed_of(alloc, fractions, &changes)?;
    let energies = simulation.gas_energies.as_slice();
    let ratio = &step.step.pe_ratio;
    Ok(Process {
        before: side_of(alloc, bytes, index, step, step.changes.after.as_slice())?,
        after: side_of(alloc, bytes, index, step, step.changes.before.as_slice())?,
        forward: false,
        gas: gas_energy(energies, step.changes.gas.as_slice()),
        gas_change: Sequence::new(changes),
        factor: factor_of(&step.step.pre_expon, ratio, &simulation.pressure, &consumed),
        activation: step.step.activation,
        proximity: step.step.proximity,
    })
}

/// The processes so far, and those of a step.
fn with_step(
    alloc: Global,
    bytes: &[u8],
    simulation: &SimPart,
    index: &TypeIndex,
    step: &NamedStep,
    mut processes: Vec<Process>,
) -> Result<Vec<Process>, OutOfMemory>
    requires few_types { length index.now ≤ MAX_SITE_TYPES }
    requires gases { AreGases simulation.now }
    requires step { IsSoundStep (length simulation.now.gas) (named_at bytes.now step.now) }
    ensures { IfOk result (λ all. all.items ≡ processes.items ++ processes_of_step (gases_at simulation.now) index.now (named_at bytes.now step.now)) }
{
    processes.push(forward_of(alloc, bytes, simulation, index, step)?)?;
    if step.step.reversible {
        processes.push(reverse_of(alloc, bytes, simulation, index, step)?)?;
    }
    Ok(processes)
}

/// The processes of steps, in their order.
pub(crate) fn processes_of(
    alloc: Global,
    bytes: &[u8],
    simulation: &SimPart,
    type_names: &[Vec<u8>],
    steps: &[NamedStep],
) -> Result<Vec<Process>, OutOfMemory>
    requires few_types { length type_names.now ≤ MAX_SITE_TYPES }
    requires gases { AreGases simulation.now }
    requires steps { AllByRecursion (IsSoundStep (length simulation.now.gas)) (named_steps_at bytes.now steps.now) }
    ensures { IfOk result (λ processes. processes.items ≡ processes_of (gases_at simulation.now) (map (λ name. name.items) type_names.now) (named_steps_at bytes.now steps.now)) }
{
    let index = TypeIndex::new(alloc, type_names)?;
    let mut processes = Vec::new(alloc);
    for step in steps {
        processes = with_step(alloc, bytes, simulation, &index, step, processes)?;
    }
    Ok(processes)
}
