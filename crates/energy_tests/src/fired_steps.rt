ghost use Rattle.std.specs.Prelude.{◌≡◌, ◌<◌, IfOk, length, slice_index};
ghost use Rattle.lattice_core.specs.Config.{IsWellFormed};
ghost use Rattle.lattice_core.specs.Lattice.{site_count};

use crate::occupied_sites::DENTATES;
use crate::small_chemistries::{FIRST, SECOND};
use firing::{fire, firing_clears_then_sets, firing_keeps_well_formed, given_states, set_side};
use kmc_base::SiteId;
use lattice_cell::{DefaultLattice, expand_default};
use lattice_core::{Config, Graph, State, Steps};
use pattern_list::list_all;
use pattern_types::Wanted;
use std::alloc::Global;
use std::marker::Brand;
use std::process::Abort;
use std::sync::ledger::{Blank, Ledger};
use std::test::Fail;
use test_parts::{held, whole_side};

#[test]
fn states_of_a_side(rt: HostRuntime) -> Result<(), Fail> {
    let wanted = [SECOND, Wanted::Vacant, FIRST];
    let side = whole_side(&[(1, 2), (2, 3)], &[None; 3], &wanted, &DENTATES).ok_or("no side")?;
    let sites = [SiteId(4), SiteId(7), SiteId(2)];
    assert!(rt; usize::from(side.len()) == sites.len());
    let given = given_states(&side, &sites);
    let states = [
        (SiteId(4), held(1, 2, 2)),
        (SiteId(7), State::Vacant),
        (SiteId(2), held(1, 1, 2)),
    ];
    assert_eq!(rt; given.pairs(), states.as_slice());
    Ok(())
}

#[test]
fn laws_of_firing() {
    firing_keeps_well_formed();
    firing_clears_then_sets();
}

/// Four sites, with dentate 1 of a dimer on site 0 and dentate 2 on site 1.
fn dimer(alloc: Global, dentates: &[u8]) -> Result<Config, Fail>
    ensures long { IfOk result (λ config. length config ≡ 4) }
    ensures well_formed { IfOk result (IsWellFormed (λ s. slice_index dentates.now s)) }
{
    let Some(side) = whole_side(&[(1, 2)], &[None; 2], &[FIRST, SECOND], dentates) else {
        return Err("no side")?;
    };
    let mut config = Config::vacant(alloc, 4)?;
    set_side(&mut config, &side, &[SiteId(0), SiteId(1)]);
    Ok(config)
}

/// Fires the only instance of the walk of a dimer: its dentate 1 follows to the site of dentate 2, which goes on to a
/// vacant neighbour.
fn walk<L: Ledger>(
    alloc: Global,
    graph: &Graph,
    config: &mut Config,
    dentates: &[u8],
    steps: &mut Steps<L>,
) -> Result<(), Fail>
    requires long { length config.old ≡ site_count graph.now }
    requires well_formed { IsWellFormed (λ s. slice_index dentates.now s) config.old }
    ensures { length config.new ≡ length config.old }
{
    let types = [None; 3];
    let edges = [(1, 2), (2, 3)];
    let from = [FIRST, SECOND, Wanted::Vacant];
    let to = [Wanted::Vacant, FIRST, SECOND];
    let Some(before) = whole_side(&edges, &types, &from, dentates) else {
        return Err("no side before")?;
    };
    let Some(after) = whole_side(&edges, &types, &to, dentates) else {
        return Err("no side after")?;
    };
    let found = list_all(alloc, graph, config, &before, steps)?;
    if found.len() != 1 {
        return Err("not one instance")?;
    }
    let placement = found[0];
    fire(config, &before, &after, placement.sites());
    Ok(())
}

/// Looks at the states of the four sites of a configuration.
fn look_at<L: Ledger>(rt: &impl Abort, config: &Config, states: &[State; 4], steps: &mut Steps<L>)
    requires { length config.now ≡ 4 }
{
    for site in 0..4u32 {
        let state = config.at(SiteId(site), steps);
        assert_eq!(rt; state, states[site as usize], "site {site}");
    }
}

/// A dimer is put on two of four sites and walks.
fn put_and_walk<L: Ledger>(rt: &impl Abort, alloc: Global, blank: Blank) -> Result<(), Fail>
    requires name { blank.name ≡ L.name }
    requires parts { blank.parts ≡ L.parts }
    requires has_a_part { 0 < L.parts }
{
    let mut steps = Steps::<L>::new(blank);
    let graph = expand_default(alloc, DefaultLattice::Rectangular, 2, 2)?;
    assert_eq!(rt; graph.len(), 4);
    let mut config = dimer(alloc, &DENTATES)?;
    let before = [held(1, 1, 0), held(1, 2, 0), State::Vacant, State::Vacant];
    look_at(rt, &config, &before, &mut steps);
    walk(alloc, &graph, &mut config, &DENTATES, &mut steps)?;
    // Site 3 is the vacant neighbour of site 1. Dentate 1 is on site 1 now, which is the home.
    let after = [State::Vacant, held(1, 1, 1), State::Vacant, held(1, 2, 1)];
    look_at(rt, &config, &after, &mut steps);
    Ok(())
}

#[test]
fn a_dimer_walks(rt: HostRuntime) -> Result<(), Fail> {
    put_and_walk::<Brand>(&rt, rt.alloc(), Blank::new(1))
}
