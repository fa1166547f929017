ghost use Rattle.std.specs.Prelude.{◌≡◌, ◌<◌, ◌≤◌, length, slice_index};
ghost use Rattle.lattice_core.specs.Config.{IsWellFormed};
ghost use Rattle.lattice_core.specs.Lattice.{site_count};
ghost use Rattle.lattice_core.specs.SiteList.{site_numbers};
ghost use Rattle.rate_rules.specs.Soundness.{IsInstance, IsSoundChemistry};

use crate::occupied_sites::{DENTATES, occupied};
use crate::small_chemistries::{
    A, ADSORPTION, FIRST, OTHER_A, Part, SECOND, Step, chemistry, cluster, process,
};
use lattice_cell::{DefaultLattice, expand_default};
use lattice_core::{Config, Graph, Steps};
use pattern_list::list_all;
use pattern_types::{Placement, Wanted};
use rate_rules::{Chemistry, Process, barrier, lg_rate, whole_change, whole_rate, zero_change};
use std::alloc::Global;
use std::marker::Brand;
use std::process::Abort;
use std::sync::ledger::{Blank, Ledger};
use std::test::Fail;

/// Whether the lattice has five rows of five sites, and not two of two.
#[derive(Clone, Copy, Debug, PartialEq, Eq)]
enum Size {
    Five,
    /// The ring 0, 1, 3, 2.
    Two,
}

/// An instance of a step with one cluster: the lattice, the step, the cluster, the sites with an adsorbate, and the place
/// of the instance in the listing; then its reaction energy, its bare one and its barrier.
#[derive(Clone, Copy)]
struct Case {
    size: Size,
    step: Step<'static>,
    part: Part<'static>,
    sites: &'static [u32],
    instance: usize,
    wanted: (i128, i128, i128),
}

/// The reaction energy of an instance, its bare reaction energy and its barrier. Its rate is that over this barrier.
fn measured<L: Ledger>(
    rt: &impl Abort,
    alloc: Global,
    chem: &Chemistry,
    config: &Config,
    process: &Process,
    placement: &Placement,
    steps: &mut Steps<L>,
) -> Result<(i128, i128, i128), Fail>
    requires { IsInstance chem.now process.now config.now (site_numbers placement.now) }
{
    let d = whole_change(alloc, chem, config, process, placement, steps)?;
    let d0 = zero_change(alloc, chem, process, placement)?;
    let height = barrier(process, d, d0);
    let rate = whole_rate(alloc, chem, config, process, placement, steps)?;
    assert_eq!(rt; rate, lg_rate(chem, process, height));
    Ok((d, d0, height))
}

/// The energies of an instance of the first process of a chemistry, by its place in the listing.
fn listed_energies<L: Ledger>(
    rt: &impl Abort,
    alloc: Global,
    chem: &Chemistry,
    config: &Config,
    instance: usize,
    dentates: &[u8],
    steps: &mut Steps<L>,
) -> Result<(i128, i128, i128), Fail>
    requires sound { IsSoundChemistry (λ s. slice_index dentates.now s) chem.now }
    requires some { 1 ≤ length chem.now.processes }
    requires long { length config.now ≡ site_count chem.now.graph }
    requires well_formed { IsWellFormed (λ s. slice_index dentates.now s) config.now }
{
    let process = &chem.processes.as_slice()[0];
    let found = list_all(alloc, &chem.graph, config, &process.before, steps)?;
    if instance >= found.len() {
        return Err("no such instance")?;
    }
    let placement = found[instance];
    measured(rt, alloc, chem, config, process, &placement, steps)
}

/// The lattice of a case: rectangular sites, each with its neighbours, round the ends.
fn lattice(alloc: Global, size: Size) -> Result<Graph, Fail> {
    match size {
        Size::Five => Ok(expand_default(alloc, DefaultLattice::Rectangular, 5, 5)?),
        Size::Two => Ok(expand_default(alloc, DefaultLattice::Rectangular, 2, 2)?),
    }
}

/// The energies of the instance of a case.
fn energies_of<L: Ledger>(
    rt: &impl Abort,
    alloc: Global,
    blank: Blank,
    case: &Case,
) -> Result<(i128, i128, i128), Fail>
    requires name { blank.name ≡ L.name }
    requires parts { blank.parts ≡ L.parts }
    requires has_a_part { 0 < L.parts }
{
    let mut steps = Steps::<L>::new(blank);
    let graph = lattice(alloc, case.size)?;
    let config = occupied(alloc, graph.len(), case.sites, &DENTATES, &mut steps)?;
    let step = process(alloc, &case.step, &DENTATES)?;
    let chem = chemistry(alloc, graph, step, cluster(case.part)?, &DENTATES)?;
    listed_energies(
        rt,
        alloc,
        &chem,
        &config,
        case.instance,
        &DENTATES,
        &mut steps,
    )
}

const EDGE: &[(u8, u8)] = &[(1, 2)];

const PAIR: &[Wanted] = &[A, OTHER_A];

/// An adsorbate is put on a vacant site.
const FILLED: Step<'static> = Step {
    activation: 700,
    proximity: 500_000_000,
    ..ADSORPTION
};

/// The same step with a gas of this energy, and its reverse.
const BOUND: Step<'static> = Step {
    gas: -1_000,
    ..FILLED
};

const FREED: Step<'static> = Step {
    before: &[A],
    after: &[Wanted::Vacant],
    forward: false,
    ..BOUND
};

/// A dimer is put on two vacant neighbours.
const DOUBLED: Step<'static> = Step {
    edges: EDGE,
    before: &[Wanted::Vacant, Wanted::Vacant],
    after: &[FIRST, SECOND],
    ..FILLED
};

const CASES: &[Case] = &[
    // Two of the four neighbours are occupied, and pairs are counted in both orders.
    Case {
        size: Size::Five,
        step: BOUND,
        part: (EDGE, PAIR, 100),
        sites: &[1, 5],
        instance: 0,
        wanted: (-600, -1_000, 900),
    },
    // The reverse step takes the same adsorbate away.
    Case {
        size: Size::Five,
        step: FREED,
        part: (EDGE, PAIR, 100),
        sites: &[0, 1, 5],
        instance: 0,
        wanted: (-600, -1_000, 1_500),
    },
    // The forward step ends so high that the reverse one has no barrier.
    Case {
        size: Size::Five,
        step: Step {
            gas: 5_000,
            ..FREED
        },
        part: (EDGE, PAIR, 100),
        sites: &[0],
        instance: 0,
        wanted: (5_000, 5_000, 0),
    },
    // Eight pairs of vacant neighbours are on a vacant ring, and four beside one adsorbate.
    Case {
        size: Size::Two,
        step: FILLED,
        part: (EDGE, &[Wanted::Vacant, Wanted::Vacant], 10),
        sites: &[],
        instance: 0,
        wanted: (-40, -40, 700),
    },
    // An adsorbate on a ring has two vacant neighbours, and two adsorbates that are neighbours have one each.
    Case {
        size: Size::Two,
        step: FILLED,
        part: (EDGE, &[A, Wanted::Vacant], 10),
        sites: &[1],
        instance: 0,
        wanted: (0, 20, 690),
    },
    // Each adsorbate has two neighbours, whatever is there.
    Case {
        size: Size::Two,
        step: FILLED,
        part: (EDGE, &[A, Wanted::Any], 3),
        sites: &[1],
        instance: 0,
        wanted: (6, 6, 700),
    },
    // The two dentates of one adsorbate.
    Case {
        size: Size::Two,
        step: DOUBLED,
        part: (EDGE, &[FIRST, SECOND], 50),
        sites: &[3],
        instance: 1,
        wanted: (50, 50, 700),
    },
    // Dentate 1 is on site 0, beside site 2, or on site 1.
    Case {
        size: Size::Two,
        step: DOUBLED,
        part: (EDGE, &[FIRST, OTHER_A], 7),
        sites: &[2],
        instance: 0,
        wanted: (7, 0, 703),
    },
    Case {
        size: Size::Two,
        step: DOUBLED,
        part: (EDGE, &[FIRST, OTHER_A], 7),
        sites: &[2],
        instance: 1,
        wanted: (0, 0, 700),
    },
];

#[test]
fn instances(rt: HostRuntime) -> Result<(), Fail> {
    for case in CASES {
        let found = energies_of::<Brand>(&rt, rt.alloc(), Blank::new(1), case)?;
        assert_eq!(rt; found, case.wanted, "{:?} {:?}", case.part, case.sites);
    }
    Ok(())
}
