ghost use Rattle.std.specs.Prelude.{◌≡◌, ◌<◌};

use crate::occupied_sites::{DENTATES, occupied};
use crate::small_chemistries::{A, OTHER_A, Part, cluster};
use lattice_cell::{DefaultLattice, expand_default};
use lattice_core::{Graph, Steps};
use pattern_types::Wanted;
use rate_rules::energy;
use std::alloc::Global;
use std::marker::Brand;
use std::sync::ledger::{Blank, Ledger};
use std::test::Fail;

/// Whether the lattice has three rows of three sites, and not two of two; a cluster, the sites with an adsorbate, and the
/// energy that is wanted.
type EnergyCase = (bool, Part<'static>, &'static [u32], i128);

/// Rows of as many rectangular sites, each with its neighbours, round the ends.
fn square(alloc: Global, three: bool) -> Result<Graph, Fail> {
    if three {
        Ok(expand_default(alloc, DefaultLattice::Rectangular, 3, 3)?)
    } else {
        Ok(expand_default(alloc, DefaultLattice::Rectangular, 2, 2)?)
    }
}

/// The energy of a case.
fn energy_of<L: Ledger>(alloc: Global, blank: Blank, case: &EnergyCase) -> Result<i128, Fail>
    requires name { blank.name ≡ L.name }
    requires parts { blank.parts ≡ L.parts }
    requires has_a_part { 0 < L.parts }
{
    let (three, part, sites, _) = *case;
    let mut steps = Steps::<L>::new(blank);
    let graph = square(alloc, three)?;
    let config = occupied(alloc, graph.len(), sites, &DENTATES, &mut steps)?;
    let clusters = [cluster(part)?];
    Ok(energy(alloc, &graph, &clusters, &config, &mut steps)?)
}

const EDGE: &[(u8, u8)] = &[(1, 2)];

/// Two adsorbates that are neighbours. Such pairs are counted in both orders.
const PAIR: &[Wanted] = &[A, OTHER_A];

/// All nine sites, of which two rows of two have the first four.
const ALL: &[u32] = &[0, 1, 2, 3, 4, 5, 6, 7, 8];

const ENERGIES: &[EnergyCase] = &[
    (false, (EDGE, PAIR, 1), ALL, 8),
    (false, (EDGE, PAIR, 1), &[0, 3], 0),
    (false, (EDGE, PAIR, -5), &[0, 1], -10),
    (true, (EDGE, PAIR, 1), ALL, 36),
    (true, (EDGE, PAIR, 1), &[0, 6], 2),
    (true, (EDGE, &[A, Wanted::Any], 3), &[0, 6], 24),
    (true, (EDGE, &[Wanted::Vacant, Wanted::Vacant], 1), &[4], 28),
    (true, (&[], &[A], -7), &[1, 2, 3], -21),
];

#[test]
fn energies_of_configurations(rt: HostRuntime) -> Result<(), Fail> {
    for case in ENERGIES {
        let found = energy_of::<Brand>(rt.alloc(), Blank::new(1), case)?;
        assert_eq!(rt; found, case.3, "{:?}", case.1);
    }
    Ok(())
}
