use crate::decks::{DeckTexts, ENERGETICS, PAIRED, SPECIES, folder_of, status_of};
use kmc_base::OutId;
use kmc_run::Status;
use std::alloc::Global;
use std::marker::Sync;
use std::process::Abort;
use std::test::Fail;
use std::thread::Threads;

/// Nine sites.
const NINE: &str = "lattice default_choice\nrectangular_periodic 1.0 3 3\nend_lattice\n";

/// A step that fills a site after 1 attosecond, and one that never fires.
const FILLS: &str =
    "mechanism\nstep ads\nsites 1\ninitial\n1 * 1\nfinal\n1 A* 1\npre_expon 1e300\nactiv_eng 0\nend_step\nend_mechanism\n";

const NEVER: &str =
    "mechanism\nstep ads\nsites 1\ninitial\n1 * 1\nfinal\n1 A* 1\npre_expon 0\nactiv_eng 0\nend_step\nend_mechanism\n";

/// The heads of the three outputs.
const HISTORY: &str = "history 1\nsites 9\nsurface A*\ngas A\n";

const PROCSTAT: &str = "procstat 1\nprocess 1 ads\n";

const SPECNUM: &str = "specnum 1\ncolumns sample event time temperature energy A* A\n";

/// Runs the program on a deck of nine sites. Each output has a head and samples; one that is not begun is an empty one here.
pub(crate) fn writes<R: Threads + Sync + Abort>(
    rt: &R,
    alloc: Global,
    deck: &DeckTexts,
    outputs: &[(OutId, &str, &str)],
) -> Result<(), Fail> {
    let mut folder = folder_of(alloc, deck, [0, 0], 0)?;
    assert_eq!(rt; status_of(rt, alloc, &["run"], &mut folder)?, Status::Done);
    for (out, head, samples) in outputs {
        let mut text = Vec::from_slice(alloc, head.as_bytes())?;
        text.extend_from_slice(samples.as_bytes())?;
        assert_eq!(rt; folder.output(*out).unwrap_or(&[]), text.as_slice());
    }
    Ok(())
}

#[test]
fn outputs_of_an_empty_run(rt: HostRuntime) -> Result<(), Fail> {
    let deck = DeckTexts {
        simulation: [
            SPECIES,
            "pressure 1.0\nsurf_specs_dent 1\nmax_steps 0\nsnapshots on event 1\nprocess_statistics on event 1\nspecies_numbers on event 1\nfinish\n",
        ],
        lattice: NINE,
        energetics: ENERGETICS,
        mechanism: FILLS,
    };
    writes(
        &rt,
        rt.alloc(),
        &deck,
        &[
            (
                OutId::History,
                HISTORY,
                "configuration 0 event 0 time 0.000000000000000000 energy 0.000000000\ngas_counts 0\n",
            ),
            (
                OutId::Procstat,
                PROCSTAT,
                "sample 0 event 0 time 0.000000000000000000\ncounts 0\n",
            ),
            (
                OutId::Specnum,
                SPECNUM,
                "0 0 0.000000000000000000 500.000 0.000000000 0 0\n",
            ),
        ],
    )
}

/// The samples in time of a run without events, up to its greatest time.
const STILL: &str =
    "0 0 0.000000000000000000 500.000 0.000000000 0 0\n1 0 0.250000000000000000 500.000 0.000000000 0 0\n2 0 0.500000000000000000 500.000 0.000000000 0 0\n3 0 0.750000000000000000 500.000 0.000000000 0 0\n4 0 1.000000000000000000 500.000 0.000000000 0 0\n";

// The nine events are all at 1 attosecond. A sample at that time shows the last of them, and the run ends there.
#[test]
fn samples_in_time(rt: HostRuntime) -> Result<(), Fail> {
    const CASES: &[(&str, &str, &str)] = &[
        (
            "pressure 1.0\nsurf_specs_dent 1\nmax_time 1.0\nspecies_numbers on time 0.25\nfinish\n",
            NEVER,
            STILL,
        ),
        (
            "pressure 1.0\nsurf_specs_dent 1\nspecies_numbers on time 1e-18\nfinish\n",
            FILLS,
            "0 0 0.000000000000000000 500.000 0.000000000 0 0\n1 9 0.000000000000000001 500.000 0.000000000 9 0\n",
        ),
        (
            "pressure 1.0\nsurf_specs_dent 1\nmax_steps 2\nmax_time 1.0\nspecies_numbers on time 1e-18\nfinish\n",
            FILLS,
            "0 0 0.000000000000000000 500.000 0.000000000 0 0\n1 2 0.000000000000000001 500.000 0.000000000 2 0\n",
        ),
    ];
    for (rest, mechanism, samples) in CASES {
        let deck = DeckTexts {
            simulation: [SPECIES, *rest],
            lattice: NINE,
            energetics: ENERGETICS,
            mechanism: *mechanism,
        };
        writes(
            &rt,
            rt.alloc(),
            &deck,
            &[
                (OutId::Specnum, SPECNUM, *samples),
                (OutId::History, "", ""),
            ],
        )?;
    }
    Ok(())
}

#[test]
fn snapshots_of_pairs(rt: HostRuntime) -> Result<(), Fail> {
    let deck = DeckTexts {
        simulation: [
            SPECIES,
            "pressure 1.0\nsurf_specs_dent 1\nmax_steps 4\nsnapshots on event 4\nprocess_statistics on event 4\nfinish\n",
        ],
        ..PAIRED
    };
    writes(
        &rt,
        rt.alloc(),
        &deck,
        &[
            (
                OutId::History,
                HISTORY,
                "configuration 0 event 0 time 0.000000000000000000 energy 0.000000000\ngas_counts 0\nconfiguration 1 event 4 time 0.000000000000000002 energy 0.400000000\n1 A* 1 1\n2 A* 1 2\n5 A* 1 5\n9 A* 1 9\ngas_counts 0\n",
            ),
            (
                OutId::Procstat,
                "procstat 1\nprocess 1 one\n",
                "sample 0 event 0 time 0.000000000000000000\ncounts 0\nsample 1 event 4 time 0.000000000000000002\ncounts 4\n",
            ),
        ],
    )
}
