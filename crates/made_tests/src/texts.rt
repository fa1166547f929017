//! The texts of the made decks.

use deck_maker::make;
use std::test::Fail;

/// The simulation file of deck 0.
const FIRST_SIMULATION: &str = "random_seed 1000
temperature 500.0
pressure 1.00
n_gas_species 3
gas_specs_names CO O2 CO2
gas_energies 0.000 0.000 -2.337
gas_molec_weights 27.9949 31.9898 43.9898
gas_molar_fracs 0.45 0.55 0.000
n_surf_species 2
surf_specs_names CO* O*
surf_specs_dent 1 1
snapshots off
process_statistics off
species_numbers off
event_report off
max_steps 200
max_time 1.0
wall_time 3600
no_restart
finish
";

/// The simulation file of deck 99.
const LAST_SIMULATION: &str = "random_seed 1099
temperature 990.0
pressure 1.00
n_gas_species 3
gas_specs_names CO O2 CO2
gas_energies 0.000 0.000 -2.337
gas_molec_weights 27.9949 31.9898 43.9898
gas_molar_fracs 0.45 0.55 0.000
n_surf_species 2
surf_specs_names CO* O*
surf_specs_dent 1 1
snapshots off
process_statistics off
species_numbers off
event_report off
max_steps 5000
max_time 1.0
wall_time 3600
no_restart
finish
";

/// The lattice file of deck 0.
const FIRST_LATTICE: &str = "lattice default_choice
rectangular_periodic 1.0 10 10
end_lattice
";

/// The lattice file of deck 99.
const LAST_LATTICE: &str = "lattice default_choice
rectangular_periodic 1.0 100 100
end_lattice
";

/// The energetics file of every deck.
const ENERGETICS: &str = "energetics
cluster CO_point
sites 1
lattice_state
1 CO* 1
cluster_eng -1.30
end_cluster
cluster O_point
sites 1
lattice_state
1 O* 1
cluster_eng -1.20
end_cluster
cluster CO_O_pair
sites 2
neighboring 1-2
lattice_state
1 CO* 1
2 O* 1
cluster_eng 0.10
end_cluster
cluster O_O_pair
sites 2
neighboring 1-2
lattice_state
1 O* 1
2 O* 1
graph_multiplicity 2
cluster_eng 0.15
end_cluster
end_energetics
";

/// The mechanism file of every deck.
const MECHANISM: &str = "mechanism
reversible_step CO_adsorption
gas_reacs_prods CO -1
sites 1
initial
1 * 1
final
1 CO* 1
pre_expon 1.0e5
pe_ratio 1.0e-8
activ_eng 0.0
end_reversible_step
reversible_step O2_adsorption
gas_reacs_prods O2 -1
sites 2
neighboring 1-2
initial
1 * 1
2 * 1
final
1 O* 1
2 O* 1
pre_expon 1.0e5
pe_ratio 1.0e-8
activ_eng 0.0
end_reversible_step
step CO_oxidation
gas_reacs_prods CO2 1
sites 2
neighboring 1-2
initial
1 CO* 1
2 O* 1
final
1 * 1
2 * 1
pre_expon 1.0e13
activ_eng 0.9
prox_factor 0.5
end_step
end_mechanism
";

#[test]
fn files_of_the_first_and_the_last_deck(rt: HostRuntime) -> Result<(), Fail> {
    // The number of a deck, its simulation file and its lattice file.
    const CASES: &[(u32, &str, &str)] = &[
        (0, FIRST_SIMULATION, FIRST_LATTICE),
        (99, LAST_SIMULATION, LAST_LATTICE),
    ];
    for (number, simulation, lattice) in CASES {
        let files = make(rt.alloc(), *number)?;
        let texts = [*simulation, *lattice, ENERGETICS, MECHANISM];
        for (file, text) in files.iter().zip(texts) {
            assert_eq!(rt; file.as_slice(), text.as_bytes(), "deck {number}");
        }
    }
    Ok(())
}
