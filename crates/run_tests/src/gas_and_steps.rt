//! Runs of decks whose steps exchange molecules with the gas, in one direction or in both.

use crate::all_outputs::writes;
use crate::decks::{DeckTexts, ENERGETICS, LATTICE, SPECIES};
use kmc_base::OutId;
use std::test::Fail;

const NINE: &str = "lattice default_choice\nrectangular_periodic 1.0 3 3\nend_lattice\n";

/// An adsorbate of -1 eV, and neighbours of 0.2 eV a pair.
const POINTS: &str =
    "energetics\ncluster A_point\nsites 1\nlattice_state\n1 A* 1\ncluster_eng -1.0\nend_cluster\nend_energetics\n";

const PAIRS: &str =
    "energetics\ncluster A_pair\nsites 2\nneighboring 1-2\nlattice_state\n1 A* 1\n2 A* 1\ngraph_multiplicity 2\ncluster_eng 0.2\nend_cluster\nend_energetics\n";

/// An adsorption that takes a molecule up, after 1 attosecond; and one that is reversible.
const ADSORBS: &str =
    "mechanism\nstep ads\ngas_reacs_prods A -1\nsites 1\ninitial\n1 * 1\nfinal\n1 A* 1\npre_expon 1.0e300\nactiv_eng 0.0\nend_step\nend_mechanism\n";

const BOTH_WAYS: &str =
    "mechanism\nreversible_step ads\ngas_reacs_prods A -1\nsites 1\ninitial\n1 * 1\nfinal\n1 A* 1\npre_expon 1.0e300\npe_ratio 1.0\nactiv_eng 0.0\nend_reversible_step\nend_mechanism\n";

/// An adsorption on two neighbouring sites, of a species of two dentates; and the same from the gas, in both directions.
const DIMER: &str =
    "mechanism\nstep dimer\nsites 2\nneighboring 1-2\ninitial\n1 * 1\n2 * 1\nfinal\n1 A* 1\n1 A* 2\npre_expon 1.0e300\nactiv_eng 0.0\nend_step\nend_mechanism\n";

const DIMER_BOTH_WAYS: &str =
    "mechanism\nreversible_step dimer\ngas_reacs_prods A -1\nsites 2\nneighboring 1-2\ninitial\n1 * 1\n2 * 1\nfinal\n1 A* 1\n1 A* 2\npre_expon 1.0e300\npe_ratio 1.0\nactiv_eng 0.0\nend_reversible_step\nend_mechanism\n";

const HISTORY: &str = "history 1\nsites 9\nsurface A*\ngas A\n";

const FOUR_SITES: &str = "history 1\nsites 4\nsurface A*\ngas A\n";

const SPECNUM: &str = "specnum 1\ncolumns sample event time temperature energy A* A\n";

/// The end of the simulation file, the other three files, and an output with its head and its samples.
const RUNS: &[(&str, &str, &str, &str, OutId, &str, &str)] = &[
    (
        "pressure 1.0\nsurf_specs_dent 1\nspecies_numbers on event 3\nfinish\n",
        NINE,
        POINTS,
        ADSORBS,
        OutId::Specnum,
        SPECNUM,
        "0 0 0.000000000000000000 500.000 0.000000000 0 0\n1 3 0.000000000000000001 500.000 -3.000000000 3 -3\n2 6 0.000000000000000001 500.000 -6.000000000 6 -6\n3 9 0.000000000000000001 500.000 -9.000000000 9 -9\n",
    ),
    (
        "pressure 1.0\nsurf_specs_dent 1\nmax_steps 4\nspecies_numbers on event 1\nfinish\n",
        NINE,
        PAIRS,
        ADSORBS,
        OutId::Specnum,
        SPECNUM,
        "0 0 0.000000000000000000 500.000 0.000000000 0 0\n1 1 0.000000000000000001 500.000 0.000000000 1 -1\n2 2 0.000000000000000001 500.000 0.000000000 2 -2\n3 3 0.000000000000000001 500.000 0.000000000 3 -3\n4 4 0.000000000000000002 500.000 0.400000000 4 -4\n",
    ),
    (
        "pressure 1.0\nsurf_specs_dent 1\nmax_steps 4\nsnapshots on event 4\nfinish\n",
        NINE,
        PAIRS,
        ADSORBS,
        OutId::History,
        HISTORY,
        "configuration 0 event 0 time 0.000000000000000000 energy 0.000000000\ngas_counts 0\nconfiguration 1 event 4 time 0.000000000000000002 energy 0.400000000\n1 A* 1 1\n2 A* 1 2\n5 A* 1 5\n9 A* 1 9\ngas_counts -4\n",
    ),
    (
        "pressure 1.0\nsurf_specs_dent 1\nmax_steps 1\nspecies_numbers on event 1\nfinish\n",
        NINE,
        POINTS,
        BOTH_WAYS,
        OutId::Specnum,
        SPECNUM,
        "0 0 0.000000000000000000 500.000 0.000000000 0 0\n1 1 0.000000000000000001 500.000 -1.000000000 1 -1\n",
    ),
    (
        "pressure 1.0\nsurf_specs_dent 1\nmax_steps 1\nprocess_statistics on event 1\nfinish\n",
        NINE,
        POINTS,
        BOTH_WAYS,
        OutId::Procstat,
        "procstat 1\nprocess 1 ads/fwd\nprocess 2 ads/rev\n",
        "sample 0 event 0 time 0.000000000000000000\ncounts 0 0\nsample 1 event 1 time 0.000000000000000001\ncounts 1 0\n",
    ),
    // No molecule is there to be taken up: the pressure is 0.
    (
        "pressure 0.0\nsurf_specs_dent 1\nmax_time 1.0\nspecies_numbers on time 0.5\nfinish\n",
        NINE,
        POINTS,
        ADSORBS,
        OutId::Specnum,
        SPECNUM,
        "0 0 0.000000000000000000 500.000 0.000000000 0 0\n1 0 0.500000000000000000 500.000 0.000000000 0 0\n2 0 1.000000000000000000 500.000 0.000000000 0 0\n",
    ),
    (
        "pressure 1.0\nsurf_specs_dent 2\nsnapshots on event 1\nfinish\n",
        LATTICE,
        ENERGETICS,
        DIMER,
        OutId::History,
        FOUR_SITES,
        "configuration 0 event 0 time 0.000000000000000000 energy 0.000000000\ngas_counts 0\nconfiguration 1 event 1 time 0.000000000000000001 energy 0.000000000\n1 A* 1 1\n2 A* 2 1\ngas_counts 0\nconfiguration 2 event 2 time 0.000000000000000001 energy 0.000000000\n1 A* 1 1\n2 A* 2 1\n3 A* 1 3\n4 A* 2 3\ngas_counts 0\n",
    ),
    // The first of two dimers desorbs again.
    (
        "pressure 1.0\nsurf_specs_dent 2\nmax_steps 3\nspecies_numbers on event 1\nfinish\n",
        LATTICE,
        ENERGETICS,
        DIMER_BOTH_WAYS,
        OutId::Specnum,
        SPECNUM,
        "0 0 0.000000000000000000 500.000 0.000000000 0 0\n1 1 0.000000000000000001 500.000 0.000000000 1 -1\n2 2 0.000000000000000001 500.000 0.000000000 2 -2\n3 3 0.000000000000000002 500.000 0.000000000 1 -1\n",
    ),
];

#[test]
fn molecules_of_the_gas_are_counted(rt: HostRuntime) -> Result<(), Fail> {
    for (rest, lattice, energetics, mechanism, out, head, samples) in RUNS {
        let deck = DeckTexts {
            simulation: [SPECIES, *rest],
            lattice: *lattice,
            energetics: *energetics,
            mechanism: *mechanism,
        };
        writes(&rt, rt.alloc(), &deck, &[(*out, *head, *samples)])?;
    }
    Ok(())
}
