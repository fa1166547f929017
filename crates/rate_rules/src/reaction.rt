ghost use Rattle.std.specs.Prelude.{◌≡◌, ◌≢◌, ◌^◌, ◌<◌, ◌≤◌, ℕ, [], All, AllPairs, IfOk, length, unsigned_abs};
ghost use Rattle.firing.specs.Soundness.{IsSoundSide};
ghost use Rattle.lattice_core.specs.Config.{state_at};
ghost use Rattle.lattice_core.specs.Lattice.{site_count};
ghost use Rattle.lattice_core.specs.SiteList.{site_numbers};
ghost use Rattle.lattice_core.specs.declared.state.State.{State};
ghost use Rattle.pattern_types.specs.Parts.{vertex_count};
ghost use Rattle.rate_rules.specs.Reaction.{bare_reaction_energy, energy_difference, reaction_energy};
ghost use Rattle.rate_rules.specs.Sides.{bare_side};
ghost use Rattle.rate_rules.specs.Soundness.{HasSoundNumbers, IsInstance, IsPlacedProcess, IsSoundChemistry};

use crate::chemistry::{Chemistry, Process};
use crate::energies::energy;
use crate::hold::hold;
use firing::{fire, set_side};
use kmc_base::OutOfMemory;
use lattice_core::{Config, Steps};
use pattern_types::{Pattern, Placement};
use std::alloc::Global;
use std::marker::Brand;
use std::sync::ledger::{Blank, Ledger};

/// The greatest magnitude of a reaction energy, in neV.
const MAX_REACTION_ENERGY: u64 = 1_000_000_000_000_000_000;

/// The energy of a final configuration less that of the initial one, with that of the gas.
fn difference<L: Ledger>(
    alloc: Global,
    chem: &Chemistry,
    gas: i64,
    initial: &Config,
    final_config: &Config,
    steps: &mut Steps<L>,
) -> Result<i128, OutOfMemory>
    requires chemistry { (dentates : ℕ → ℕ) × IsSoundChemistry dentates chem.now }
    requires initial { length initial.now ≡ site_count chem.now.graph }
    requires final_config { length final_config.now ≡ site_count chem.now.graph }
    ensures value { IfOk result (λ d. d ≡ energy_difference chem.now gas (state_at initial.now) (state_at final_config.now)) }
    ensures range { IfOk result (λ d. unsigned_abs d ≤ 10 ^ 18) }
{
    let clusters = chem.clusters.as_slice();
    let before = energy(alloc, &chem.graph, clusters, initial, steps)?;
    let after = energy(alloc, &chem.graph, clusters, final_config, steps)?;
    Ok(hold(after - before + i128::from(gas), MAX_REACTION_ENERGY))
}

/// The reaction energy of a process where there are no clusters, which is that of its gas, on any lattice.
fn change_without_clusters(chem: &Chemistry, process: &Process) -> i128
    requires none { chem.now.clusters ≡ [] }
    requires process { HasSoundNumbers process.now }
    ensures value { (initial : ℕ → State) (final : ℕ → State) → result ≡ energy_difference chem.now process.now.gas initial final }
    ensures range { unsigned_abs result ≤ 10 ^ 18 }
{
    hold(i128::from(process.gas), MAX_REACTION_ENERGY)
}

/// The reaction energy of an instance of a process, in neV, in the forward direction of its step: the difference of two sums
/// over the whole lattice, one of the configuration and one of a copy in which the instance has fired. If there are no
/// clusters, it is that of the gas, and needs no sum.
///
/// It counts each read of a state.
pub fn whole_change<L: Ledger>(
    alloc: Global,
    chem: &Chemistry,
    config: &Config,
    process: &Process,
    placement: &Placement,
    steps: &mut Steps<L>,
) -> Result<i128, OutOfMemory>
    requires { IsInstance chem.now process.now config.now (site_numbers placement.now) }
    ensures value { IfOk result (λ d. d ≡ reaction_energy chem.now (state_at config.now) process.now (site_numbers placement.now)) }
    ensures range { IfOk result (λ d. unsigned_abs d ≤ 10 ^ 18) }
{
    if chem.clusters.is_empty() {
        return Ok(change_without_clusters(chem, process));
    }
    let mut other = config.copy(alloc)?;
    fire(
        &mut other,
        &process.before,
        &process.after,
        placement.sites(),
    );
    if process.forward {
        difference(alloc, chem, process.gas, config, &other, steps)
    } else {
        difference(alloc, chem, process.gas, &other, config, steps)
    }
}

/// A lattice with nothing but the entities of a side of a process on the sites of a placement.
fn bare(
    alloc: Global,
    chem: &Chemistry,
    side: &Pattern,
    placement: &Placement,
) -> Result<Config, OutOfMemory>
    requires sound { IsSoundSide side.now }
    requires vertices { length placement.now ≡ vertex_count side.now }
    requires inside { All (λ s. s < site_count chem.now.graph) (site_numbers placement.now) }
    requires different { AllPairs (λ s t. s ≢ t) (site_numbers placement.now) }
    ensures long { IfOk result (λ config. length config ≡ site_count chem.now.graph) }
    ensures states { IfOk result (λ config. state_at config ≡ bare_side side.now (site_numbers placement.now)) }
{
    let mut config = Config::vacant(alloc, chem.graph.len())?;
    set_side(&mut config, side, placement.sites());
    Ok(config)
}

/// The bare reaction energy, with a counter of its own. That count of reads is not used.
fn bare_change<L: Ledger>(
    alloc: Global,
    chem: &Chemistry,
    process: &Process,
    placement: &Placement,
    blank: Blank,
) -> Result<i128, OutOfMemory>
    requires name { blank.name ≡ L.name }
    requires parts { blank.parts ≡ L.parts }
    requires has_a_part { 0 < L.parts }
    requires placed { IsPlacedProcess chem.now process.now (site_numbers placement.now) }
    ensures value { IfOk result (λ d. d ≡ bare_reaction_energy chem.now process.now (site_numbers placement.now)) }
    ensures range { IfOk result (λ d. unsigned_abs d ≤ 10 ^ 18) }
{
    let mut steps = Steps::<L>::new(blank);
    let before = bare(alloc, chem, &process.before, placement)?;
    let after = bare(alloc, chem, &process.after, placement)?;
    if process.forward {
        difference(alloc, chem, process.gas, &before, &after, &mut steps)
    } else {
        difference(alloc, chem, process.gas, &after, &before, &mut steps)
    }
}

/// The reaction energy of an instance of a process in the forward direction of its step, in neV, on a lattice that has
/// nothing but the entities of the instance.
///
/// It is a sum over the whole lattice: a cluster that asks for a vacant site may also be on sites far from the placement. If
/// there are no clusters, it is that of the gas.
pub fn zero_change(
    alloc: Global,
    chem: &Chemistry,
    process: &Process,
    placement: &Placement,
) -> Result<i128, OutOfMemory>
    requires { IsPlacedProcess chem.now process.now (site_numbers placement.now) }
    ensures value { IfOk result (λ d. d ≡ bare_reaction_energy chem.now process.now (site_numbers placement.now)) }
    ensures range { IfOk result (λ d. unsigned_abs d ≤ 10 ^ 18) }
{
    if chem.clusters.is_empty() {
        return Ok(change_without_clusters(chem, process));
    }
    bare_change::<Brand>(alloc, chem, process, placement, Blank::new(1))
}
