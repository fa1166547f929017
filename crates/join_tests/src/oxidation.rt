//! The oxidation of CO: the deck of a mechanism with two reversible adsorptions and one reaction.

use crate::decks::wants;
use crate::first_faults::{ENERGETICS, deck_of};
use deck::Deck;
use kmc_base::SpeciesId;
use pattern_types::Wanted;
use rate_rules::Process;
use std::alloc::Global;
use std::test::Fail;

const SIMULATION: &str =
    "temperature 500.0\npressure 1.00\nn_gas_species 3\ngas_specs_names CO O2 CO2\ngas_energies 0.000 0.000 -2.337\ngas_molar_fracs 0.45 0.55 0.000\nn_surf_species 2\nsurf_specs_names CO* O*\nsurf_specs_dent 1 1\nfinish\n";

const LATTICE: &str = "lattice default_choice\nrectangular_periodic 1.0 20 20\nend_lattice\n";

const MECHANISM: &str =
    "mechanism\nreversible_step CO_adsorption\ngas_reacs_prods CO -1\nsites 1\ninitial\n1 * 1\nfinal\n1 CO* 1\npre_expon 1.0e5\npe_ratio 1.0e-8\nactiv_eng 0.0\nend_reversible_step\nreversible_step O2_adsorption\ngas_reacs_prods O2 -1\nsites 2\nneighboring 1-2\ninitial\n1 * 1\n2 * 1\nfinal\n1 O* 1\n2 O* 1\npre_expon 1.0e5\npe_ratio 1.0e-8\nactiv_eng 0.0\nend_reversible_step\nstep CO_oxidation\ngas_reacs_prods CO2 1\nsites 2\nneighboring 1-2\ninitial\n1 CO* 1\n2 O* 1\nfinal\n1 * 1\n2 * 1\npre_expon 1.0e13\nactiv_eng 0.9\nprox_factor 0.5\nend_step\nend_mechanism\n";

/// The deck of these files.
fn oxidation(alloc: Global) -> Result<Deck, Fail> {
    match deck_of(alloc, SIMULATION, LATTICE, ENERGETICS, MECHANISM)? {
        Ok(deck) => Ok(deck),
        Err(_) => Err("no deck")?,
    }
}

/// What is expected of a process: its name, whether it is forward, the gas energy in neV, the change of a gas species, the
/// logarithm of its factor, and its activation energy in neV.
type Expected = (&'static str, bool, i64, (u8, i8), i64, i64);

// The logarithms are those of 10^5 times the molar fraction 0.45 or 0.55, of 10^5 over 10^-8, and of 10^13, to the base 2 and
// in units of 2^-30: 5 * 3566893132 + 5896832360 - 2 * 3566893132, and so on, where 3566893132 is that of 10, and
// 5896832360 and 6207687723 are those of 45 and 55.
const PROCESSES: [Expected; 5] = [
    ("CO_adsorption/fwd", true, 0, (0, -1), 16_597_511_756, 0),
    ("CO_adsorption/rev", false, 0, (0, 1), 46_369_610_716, 0),
    ("O2_adsorption/fwd", true, 0, (1, -1), 16_908_367_119, 0),
    ("O2_adsorption/rev", false, 0, (1, 1), 46_369_610_716, 0),
    (
        "CO_oxidation",
        true,
        -2_337_000_000,
        (2, 1),
        46_369_610_716,
        900_000_000,
    ),
];

/// A process is as it is expected.
fn is_as_expected(process: &Process, name: &[u8], expected: &Expected) -> bool {
    let (wanted, forward, gas, change, factor, activation) = *expected;
    name == wanted.as_bytes()
        && process.forward == forward
        && process.gas == gas
        && process.gas_change.as_slice() == [change].as_slice()
        && process.factor == Some(factor)
        && process.activation == activation
        && process.proximity == 500_000_000
}

#[test]
fn processes_of_the_oxidation(rt: HostRuntime) -> Result<(), Fail> {
    let deck = oxidation(rt.alloc())?;
    let processes = deck.chem.processes.as_slice();
    let names = deck.process_names.as_slice();
    assert_eq!(rt; processes.len(), 5);
    assert_eq!(rt; names.len(), 5);
    for (place, expected) in PROCESSES.iter().enumerate() {
        assert!(rt; is_as_expected(&processes[place], names[place].as_slice(), expected));
    }
    Ok(())
}

/// An oxygen atom as the second entity of a side.
const OXYGEN: Wanted = Wanted::Holds {
    entity: 2,
    species: SpeciesId(1),
    dentate: 1,
};

#[test]
fn sides_of_the_oxidation(rt: HostRuntime) -> Result<(), Fail> {
    let deck = oxidation(rt.alloc())?;
    let processes = deck.chem.processes.as_slice();
    assert_eq!(rt; processes.len(), 5);
    let (there, back) = (&processes[2], &processes[3]);
    assert!(rt; wants(&there.before, 2, Wanted::Vacant, None));
    assert!(rt; wants(&there.after, 2, OXYGEN, None));
    assert!(rt; wants(&back.before, 2, OXYGEN, None));
    assert!(rt; wants(&back.after, 2, Wanted::Vacant, None));
    Ok(())
}
