//! The texts of the input files.

ghost use Rattle.std.specs.Prelude.{◌≡◌, IfOk};
ghost use Rattle.deck_maker.specs.MadeDeck.{made_energetics, made_lattice, made_mechanism, made_simulation};

use crate::numbers::{kelvin_of, seed_of, side_of, steps_of};
use kmc_base::OutOfMemory;
use std::alloc::Global;

/// The simulation file of a deck.
pub(crate) fn simulation_file(alloc: Global, number: u32) -> Result<Vec<u8>, OutOfMemory>
    ensures { IfOk result (λ text. text.items ≡ made_simulation number) }
{
    let seed = seed_of(number);
    let kelvin = kelvin_of(number);
    let steps = steps_of(number);
    let text = format!(in alloc;
        "random_seed {seed}
temperature {kelvin}.0
pressure 1.00
n_gas_species 3
gas_specs_names CO O2 CO2
gas_energies 0.000 0.000 -2.337
gas_molec_weights 27.9949 31.9898 43.9898
gas_molar_fracs 0.45 0.55 0.000
n_surf_species 2
surf_specs_names CO* O*
surf_specs_dent 1 1
snapshots off
process_statistics off
species_numbers off
event_report off
max_steps {steps}
max_time 1.0
wall_time 3600
no_restart
finish
"
    )?;
    Ok(text.into_bytes())
}

/// The lattice file of a deck.
pub(crate) fn lattice_file(alloc: Global, number: u32) -> Result<Vec<u8>, OutOfMemory>
    ensures { IfOk result (λ text. text.items ≡ made_lattice number) }
{
    let side = side_of(number);
    let text = format!(in alloc;
        "lattice default_choice
rectangular_periodic 1.0 {side} {side}
end_lattice
"
    )?;
    Ok(text.into_bytes())
}

/// The energetics file of every deck.
const ENERGETICS: &[u8] = b"energetics
cluster CO_point
sites 1
lattice_state
1 CO* 1
cluster_eng -1.30
end_cluster
cluster O_point
sites 1
lattice_state
1 O* 1
cluster_eng -1.20
end_cluster
cluster CO_O_pair
sites 2
neighboring 1-2
lattice_state
1 CO* 1
2 O* 1
cluster_eng 0.10
end_cluster
cluster O_O_pair
sites 2
neighboring 1-2
lattice_state
1 O* 1
2 O* 1
graph_multiplicity 2
cluster_eng 0.15
end_cluster
end_energetics
";

/// The mechanism file of every deck.
const MECHANISM: &[u8] = b"mechanism
reversible_step CO_adsorption
gas_reacs_prods CO -1
sites 1
initial
1 * 1
final
1 CO* 1
pre_expon 1.0e5
pe_ratio 1.0e-8
activ_eng 0.0
end_reversible_step
reversible_step O2_adsorption
gas_reacs_prods O2 -1
sites 2
neighboring 1-2
initial
1 * 1
2 * 1
final
1 O* 1
2 O* 1
pre_expon 1.0e5
pe_ratio 1.0e-8
activ_eng 0.0
end_reversible_step
step CO_oxidation
gas_reacs_prods CO2 1
sites 2
neighboring 1-2
initial
1 CO* 1
2 O* 1
final
1 * 1
2 * 1
pre_expon 1.0e13
activ_eng 0.9
prox_factor 0.5
end_step
end_mechanism
";

/// The energetics file of every deck.
#[tactic(auto, unfolding(crate::specs::MadeDeck::made_energetics))]
pub(crate) fn energetics_file(alloc: Global) -> Result<Vec<u8>, OutOfMemory>
    ensures { IfOk result (λ text. text.items ≡ made_energetics) }
{
    Ok(Vec::from_slice(alloc, ENERGETICS)?)
}

/// The mechanism file of every deck.
#[tactic(auto, unfolding(crate::specs::MadeDeck::made_mechanism))]
pub(crate) fn mechanism_file(alloc: Global) -> Result<Vec<u8>, OutOfMemory>
    ensures { IfOk result (λ text. text.items ≡ made_mechanism) }
{
    Ok(Vec::from_slice(alloc, MECHANISM)?)
}
