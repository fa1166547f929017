//! Runs of the oxidation of CO over folders that fail.

use crate::decks::{DeckTexts, folder_of, status_of};
use kmc_base::{FileId, OutId};
use kmc_run::Status;
use std::test::Fail;

/// Three outputs that are sampled. There are 25 sites and two events, since each rate is a sum over the whole lattice.
const OXIDATION: DeckTexts = DeckTexts {
    simulation: [
        "random_seed 953129\ntemperature 500.0\npressure 1.00\nn_gas_species 3\ngas_specs_names CO O2 CO2\ngas_energies 0.000 0.000 -2.337\ngas_molec_weights 27.9949 31.9898 43.9898\ngas_molar_fracs 0.45 0.55 0.000\nn_surf_species 2\nsurf_specs_names CO* O*\nsurf_specs_dent 1 1\n",
        "snapshots on event 100\nprocess_statistics on event 100\nspecies_numbers on time 1.0e-6\nevent_report off\nmax_steps 2\nmax_time 1.0\nwall_time 3600\nno_restart\nfinish\n",
    ],
    lattice: "lattice default_choice\nrectangular_periodic 1.0 5 5\nend_lattice\n",
    energetics: "energetics\ncluster CO_point\nsites 1\nlattice_state\n1 CO* 1\ncluster_eng -1.30\nend_cluster\ncluster O_point\nsites 1\nlattice_state\n1 O* 1\ncluster_eng -1.20\nend_cluster\ncluster CO_O_pair\nsites 2\nneighboring 1-2\nlattice_state\n1 CO* 1\n2 O* 1\ncluster_eng 0.10\nend_cluster\ncluster O_O_pair\nsites 2\nneighboring 1-2\nlattice_state\n1 O* 1\n2 O* 1\ngraph_multiplicity 2\ncluster_eng 0.15\nend_cluster\nend_energetics\n",
    mechanism: "mechanism\nreversible_step CO_adsorption\ngas_reacs_prods CO -1\nsites 1\ninitial\n1 * 1\nfinal\n1 CO* 1\npre_expon 1.0e5\npe_ratio 1.0e-8\nactiv_eng 0.0\nend_reversible_step\nreversible_step O2_adsorption\ngas_reacs_prods O2 -1\nsites 2\nneighboring 1-2\ninitial\n1 * 1\n2 * 1\nfinal\n1 O* 1\n2 O* 1\npre_expon 1.0e5\npe_ratio 1.0e-8\nactiv_eng 0.0\nend_reversible_step\nstep CO_oxidation\ngas_reacs_prods CO2 1\nsites 2\nneighboring 1-2\ninitial\n1 CO* 1\n2 O* 1\nfinal\n1 * 1\n2 * 1\npre_expon 1.0e13\nactiv_eng 0.9\nprox_factor 0.5\nend_step\nend_mechanism\n",
};

/// The heads of the outputs, and sample 0 of the history.
const HISTORY: &str =
    "history 1\nsites 25\nsurface CO* O*\ngas CO O2 CO2\nconfiguration 0 event 0 time 0.000000000000000000 energy 0.000000000\ngas_counts 0 0 0\n";

const PROCSTAT: &str =
    "procstat 1\nprocess 1 CO_adsorption/fwd\nprocess 2 CO_adsorption/rev\nprocess 3 O2_adsorption/fwd\nprocess 4 O2_adsorption/rev\nprocess 5 CO_oxidation\n";

const SPECNUM: &str = "specnum 1\ncolumns sample event time temperature energy CO* O* CO O2 CO2\n";

/// The outputs after a run whose fifth append fails, and what the whole run adds to each.
const OUTPUTS: &[(OutId, &str, &str)] = &[
    (OutId::History, HISTORY, ""),
    (
        OutId::Procstat,
        PROCSTAT,
        "sample 0 event 0 time 0.000000000000000000\ncounts 0 0 0 0 0\n",
    ),
    (
        OutId::Specnum,
        SPECNUM,
        "0 0 0.000000000000000000 500.000 0.000000000 0 0 0 0 0\n",
    ),
];

// The heads of the three outputs are the first three appends, and sample 0 of the history is the fourth.
#[test]
fn the_fifth_append_fails(rt: HostRuntime) -> Result<(), Fail> {
    let mut whole = folder_of(rt.alloc(), &OXIDATION, [0, 0], 0)?;
    let status = status_of(&rt, rt.alloc(), &["run"], &mut whole)?;
    assert_eq!(rt; status, Status::Done);
    let mut cut = folder_of(rt.alloc(), &OXIDATION, [0, 0], 5)?;
    let status = status_of(&rt, rt.alloc(), &["run"], &mut cut)?;
    assert_eq!(rt; status, Status::WriteFault(OutId::Procstat));
    for (out, front, rest) in OUTPUTS {
        assert_eq!(rt; cut.output(*out).unwrap_or(&[]), front.as_bytes());
        let mut text = Vec::from_slice(rt.alloc(), front.as_bytes())?;
        text.extend_from_slice(rest.as_bytes())?;
        assert_eq!(rt; whole.output(*out).unwrap_or(&[]), text.as_slice());
    }
    Ok(())
}

#[test]
fn the_first_load_fails(rt: HostRuntime) -> Result<(), Fail> {
    let mut folder = folder_of(rt.alloc(), &OXIDATION, [1, 0], 0)?;
    let status = status_of(&rt, rt.alloc(), &["run"], &mut folder)?;
    assert_eq!(rt; status, Status::ReadFault(FileId::Simulation));
    for (out, _, _) in OUTPUTS {
        assert!(rt; folder.output(*out).is_none());
    }
    Ok(())
}
