use kmc_base::{ProcId, SiteId};
use lattice_cell::{DefaultLattice, expand_default};
use lattice_core::{Bare, Graph};
use pattern_list::{decode, encode, matches, matches_by_own_sites, one_code_one_instance};
use pattern_types::{MAX_PROCESSES, Pattern, Placement, Wanted};
use std::process::Abort;
use std::test::Fail;

/// The code of a pair of vacant sites, and the placement that is read from it.
fn pair_code(
    rt: &impl Abort,
    graph: &Graph,
    pattern: &Pattern,
    process: u16,
    sites: (u32, u32),
) -> Option<(u128, Placement)> {
    assert!(rt; process < MAX_PROCESSES && sites.0 < graph.len() && sites.1 < graph.len());
    let placement = Placement::new(&[SiteId(sites.0), SiteId(sites.1)]);
    if !matches(graph, &Bare::of(&[]), pattern, &placement) {
        return None;
    }
    let code = encode(graph, ProcId(process), pattern, &placement);
    one_code_one_instance(graph, pattern, code);
    Some((code, decode(graph, pattern, code)))
}

#[test]
fn codes(rt: HostRuntime) -> Result<(), Fail> {
    let graph = expand_default(rt.alloc(), DefaultLattice::Rectangular, 5, 5)?;
    let pattern = Pattern::new(&[(1, 2)], &[None; 2], &[Wanted::Vacant; 2])?;
    matches_by_own_sites(&pattern);
    let (code, placement) = pair_code(&rt, &graph, &pattern, 2, (0, 5)).ok_or("no placement")?;
    assert_eq!(rt; code, 72_057_596_185_411_584);
    assert_eq!(rt; placement.sites(), [SiteId(0), SiteId(5)].as_slice());
    Ok(())
}
