ghost use Rattle.std.specs.Prelude.{◌≡◌, ◌*◌, ◌^◌, ◌≤◌, IfOk, IsTrue, [], ◌∷◌, slice_index, unsigned_abs};
ghost use Rattle.kmc_base.specs.declared.limits.TheConstants.{MAX_ENERGY};
ghost use Rattle.rate_rules.specs.Soundness.{IsSoundChemistry, IsSoundCluster, IsSoundProcess};

use kmc_base::{MAX_ENERGY, Sequence, SpeciesId};
use lattice_core::Graph;
use pattern_types::{MAX_VERTICES, Pattern, Wanted};
use rate_rules::{Chemistry, Cluster, Process};
use std::alloc::Global;
use std::test::Fail;
use test_parts::whole_side;

/// A step of a test in one direction.
#[derive(Clone, Copy)]
pub(crate) struct Step<'a> {
    pub(crate) edges: &'a [(u8, u8)],
    pub(crate) before: &'a [Wanted],
    pub(crate) after: &'a [Wanted],
    pub(crate) forward: bool,
    pub(crate) gas: i64,
    pub(crate) activation: i64,
    pub(crate) proximity: u32,
}

/// A cluster of a test: its edges, what its vertices want, and its share.
pub(crate) type Part<'a> = (&'a [(u8, u8)], &'a [Wanted], i64);

/// What a vertex wants that asks for the adsorbate of species 0, of one site.
pub(crate) const A: Wanted = Wanted::Holds {
    entity: 1,
    species: SpeciesId(0),
    dentate: 1,
};

/// What another vertex wants that asks for another adsorbate of species 0.
pub(crate) const OTHER_A: Wanted = Wanted::Holds {
    entity: 2,
    species: SpeciesId(0),
    dentate: 1,
};

/// What vertices want that ask for the two dentates of an adsorbate of species 1.
pub(crate) const FIRST: Wanted = Wanted::Holds {
    entity: 1,
    species: SpeciesId(1),
    dentate: 1,
};

pub(crate) const SECOND: Wanted = Wanted::Holds {
    entity: 1,
    species: SpeciesId(1),
    dentate: 2,
};

/// A step that puts an adsorbate on a vacant site.
pub(crate) const ADSORPTION: Step<'static> = Step {
    edges: &[],
    before: &[Wanted::Vacant],
    after: &[A],
    forward: true,
    gas: 0,
    activation: 0,
    proximity: 0,
};

/// Whether the numbers of a step are in their ranges.
fn has_sound_numbers(step: &Step) -> bool
    ensures activation { IsTrue result → unsigned_abs step.now.activation ≤ unsigned_abs MAX_ENERGY }
    ensures gas { IsTrue result → unsigned_abs step.now.gas ≤ 512 * unsigned_abs MAX_ENERGY }
    ensures proximity { IsTrue result → step.now.proximity ≤ 10 ^ 9 }
{
    i128::from(step.activation).abs() <= MAX_ENERGY
        && i128::from(step.gas).abs() <= 512 * MAX_ENERGY
        && step.proximity <= 1_000_000_000
}

/// The process of a step. Its vertices ask for no types of sites, and its factor is that of 10^13.
pub(crate) fn process(alloc: Global, step: &Step, dentates: &[u8]) -> Result<Process, Fail>
    ensures { IfOk result (IsSoundProcess (λ s. slice_index dentates.now s)) }
{
    let types = [None; MAX_VERTICES]
        .get(..step.before.len())
        .ok_or("too many vertices")?;
    if !has_sound_numbers(step) {
        return Err("too great a number")?;
    }
    Ok(Process {
        before: whole_side(step.edges, types, step.before, dentates).ok_or("no side")?,
        after: whole_side(step.edges, types, step.after, dentates).ok_or("no side")?,
        forward: step.forward,
        gas: step.gas,
        gas_change: Sequence::new(Vec::new(alloc)),
        factor: Some(46_369_610_716),
        activation: step.activation,
        proximity: step.proximity,
    })
}

/// The cluster of a test. Its vertices ask for no types of sites.
pub(crate) fn cluster(part: Part) -> Result<Cluster, Fail>
    ensures { IfOk result IsSoundCluster }
{
    let (edges, wanted, share) = part;
    let types = [None; MAX_VERTICES]
        .get(..wanted.len())
        .ok_or("too many vertices")?;
    if i128::from(share).abs() > MAX_ENERGY {
        return Err("too great an energy")?;
    }
    Ok(Cluster {
        pattern: Pattern::new(edges, types, wanted)?,
        share,
    })
}

/// A chemistry at 500 K, of one process and one cluster.
pub(crate) fn chemistry(
    alloc: Global,
    graph: Graph,
    process: Process,
    cluster: Cluster,
    dentates: &[u8],
) -> Result<Chemistry, Fail>
    requires process { IsSoundProcess (λ s. slice_index dentates.now s) process }
    requires cluster { IsSoundCluster cluster }
    ensures sound { IfOk result (IsSoundChemistry (λ s. slice_index dentates.now s)) }
    ensures graph { IfOk result (λ chem. chem.graph ≡ graph) }
    ensures process { IfOk result (λ chem. chem.processes ≡ process ∷ []) }
{
    prove!(0 < graph.len());
    prove!(0 < process.before.len());
    prove!(0 < cluster.pattern.len());
    let radius = u32::from(process.before.len() - 1) + u32::from(cluster.pattern.len() - 1);
    Ok(Chemistry {
        graph,
        processes: Sequence::new(vec![in alloc; process]?),
        clusters: Sequence::new(vec![in alloc; cluster]?),
        temperature: 500_000,
        radius,
    })
}
