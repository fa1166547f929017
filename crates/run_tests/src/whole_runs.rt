use crate::decks::{DeckTexts, FILLED, FILLS, PAIRED, folder_of, status_of};
use kmc_base::OutId;
use kmc_run::Status;
use std::alloc::Global;
use std::marker::Sync;
use std::process::Abort;
use std::test::Fail;
use std::thread::Threads;

/// A step that leaves a site vacant. All its waiting times are 1 attosecond.
const STAYS: &str =
    "mechanism\nstep one\nsites 1\ninitial\n1 * 1\nfinal\n1 * 1\npre_expon 1e300\nactiv_eng 0\nend_step\nend_mechanism\n";

/// The first lines of a simulation file without gas species.
const NO_GAS: &str =
    "random_seed 1\ntemperature 500\npressure 1\nn_surf_species 1\nsurf_specs_names A*\nsurf_specs_dent 1\n";

/// The head of an output without gas species, and with one.
const HEAD: &str = "specnum 1\ncolumns sample event time temperature energy A*\n";

const GAS_HEAD: &str = "specnum 1\ncolumns sample event time temperature energy A* A\n";

/// The lines of four sites that are filled one after another, and of two.
const FOUR_FILLED: &str =
    "0 0 0.000000000000000000 500.000 0.000000000 0 0\n1 1 0.000000000000000001 500.000 0.000000000 1 0\n2 2 0.000000000000000001 500.000 0.000000000 2 0\n3 3 0.000000000000000001 500.000 0.000000000 3 0\n4 4 0.000000000000000001 500.000 0.000000000 4 0\n";

const TWO_FILLED: &str =
    "0 0 0.000000000000000000 500.000 0.000000000 0 0\n1 1 0.000000000000000001 500.000 0.000000000 1 0\n2 2 0.000000000000000001 500.000 0.000000000 2 0\n";

/// Runs the program on a deck. Its output has a head and lines; one that is not begun is an empty one here.
fn writes<R: Threads + Sync + Abort>(
    rt: &R,
    alloc: Global,
    deck: &DeckTexts,
    head: &str,
    lines: &str,
) -> Result<(), Fail> {
    let mut folder = folder_of(alloc, deck, [0, 0], 0)?;
    assert_eq!(rt; status_of(rt, alloc, &["run"], &mut folder)?, Status::Done);
    let mut output = Vec::from_slice(alloc, head.as_bytes())?;
    output.extend_from_slice(lines.as_bytes())?;
    assert_eq!(rt;
        folder.output(OutId::Specnum).unwrap_or(&[]),
        output.as_slice()
    );
    Ok(())
}

#[test]
fn samples_of_whole_runs(rt: HostRuntime) -> Result<(), Fail> {
    const RUNS: &[(&str, &str, &str, &str)] = &[
        (
            "species_numbers on event 1\nmax_steps 0\nfinish\n",
            STAYS,
            HEAD,
            "0 0 0.000000000000000000 500.000 0.000000000 0\n",
        ),
        (
            "species_numbers on event 1\nmax_steps 5\nfinish\n",
            STAYS,
            HEAD,
            "0 0 0.000000000000000000 500.000 0.000000000 0\n1 1 0.000000000000000001 500.000 0.000000000 0\n2 2 0.000000000000000001 500.000 0.000000000 0\n3 3 0.000000000000000001 500.000 0.000000000 0\n4 4 0.000000000000000001 500.000 0.000000000 0\n5 5 0.000000000000000002 500.000 0.000000000 0\n",
        ),
        (
            "species_numbers on event 1\nmax_steps 10\nfinish\n",
            FILLS,
            HEAD,
            "0 0 0.000000000000000000 500.000 0.000000000 0\n1 1 0.000000000000000001 500.000 0.000000000 1\n2 2 0.000000000000000001 500.000 0.000000000 2\n3 3 0.000000000000000001 500.000 0.000000000 3\n4 4 0.000000000000000001 500.000 0.000000000 4\n",
        ),
        ("species_numbers off\nfinish\n", FILLS, "", ""),
    ];
    for (rest, mechanism, head, lines) in RUNS {
        let deck = DeckTexts {
            simulation: [NO_GAS, *rest],
            mechanism: *mechanism,
            ..FILLED
        };
        writes(&rt, rt.alloc(), &deck, *head, *lines)?;
    }
    Ok(())
}

/// The first lines of a simulation file of a gas species and two surface species, and a step that fills a site with the
/// second of these.
const TWO_SPECIES: &str =
    "random_seed 1\ntemperature 500.0\npressure 1.0\nn_gas_species 1\ngas_specs_names G\ngas_energies 0.0\ngas_molar_fracs 1.0\nn_surf_species 2\nsurf_specs_names A** B*\nsurf_specs_dent 2 1\n";

const FILLS_SECOND: &str =
    "mechanism\nstep one\nsites 1\ninitial\n1 * 1\nfinal\n1 B* 1\npre_expon 1e300\nactiv_eng 0\nend_step\nend_mechanism\n";

#[test]
fn samples_at_every_second_event(rt: HostRuntime) -> Result<(), Fail> {
    let deck = DeckTexts {
        simulation: [
            TWO_SPECIES,
            "species_numbers on event 2\nmax_steps 10\nfinish\n",
        ],
        mechanism: FILLS_SECOND,
        ..FILLED
    };
    writes(
        &rt,
        rt.alloc(),
        &deck,
        "specnum 1\ncolumns sample event time temperature energy A** B* G\n",
        "0 0 0.000000000000000000 500.000 0.000000000 0 0 0\n1 2 0.000000000000000001 500.000 0.000000000 0 2 0\n2 4 0.000000000000000001 500.000 0.000000000 0 4 0\n",
    )
}

#[test]
fn runs_on_each_kind_of_lattice(rt: HostRuntime) -> Result<(), Fail> {
    const CASES: &[(&str, &str)] = &[
        (
            "lattice default_choice\nrectangular_periodic 1 2 2\nend_lattice\n",
            FOUR_FILLED,
        ),
        (
            "lattice default_choice\nhexagonal_periodic 1.0 2 2\nend_lattice\n",
            FOUR_FILLED,
        ),
        (
            "lattice periodic_cell\nrepeat_cell 1 2\nn_cell_sites 2\nn_site_types 2\nsite_type_names top hollow\nsite_types hollow 1\nneighboring_structure\n1-2 self\n2-1 north\nend_neighboring_structure\nend_lattice\n",
            FOUR_FILLED,
        ),
        (
            "# two sites\nlattice explicit\nn_sites 2\nn_site_types 2\nsite_type_names top hollow\nlattice_structure\n2 1.0 0.0 top 1 1\n1 0.0 0.0 2 1 2\nend_lattice_structure\nend_lattice\n",
            TWO_FILLED,
        ),
    ];
    for (lattice, lines) in CASES {
        let deck = DeckTexts {
            lattice: *lattice,
            ..FILLED
        };
        writes(&rt, rt.alloc(), &deck, GAS_HEAD, *lines)?;
    }
    Ok(())
}

/// The sites 1, 5 and 9 of a diagonal are filled first: the neighbours of a filled site have another rate, and wait from
/// then on. Then site 2 is filled, between 1 and 5.
const DIAGONAL: &str =
    "0 0 0.000000000000000000 500.000 0.000000000 0 0\n1 1 0.000000000000000001 500.000 0.000000000 1 0\n2 2 0.000000000000000001 500.000 0.000000000 2 0\n3 3 0.000000000000000001 500.000 0.000000000 3 0\n4 4 0.000000000000000002 500.000 0.400000000 4 0\n";

#[test]
fn samples_show_the_energy_of_pairs(rt: HostRuntime) -> Result<(), Fail> {
    writes(&rt, rt.alloc(), &PAIRED, GAS_HEAD, DIAGONAL)
}
