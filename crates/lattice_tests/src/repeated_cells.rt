use crate::graphs::{BALL_OF_TWO, deck_ball};
use kmc_base::SiteId;
use lattice_cell::{
    DefaultLattice, Join, Toward, expand_default, expand_explicit, expand_periodic, is_crowded,
};
use lattice_core::GraphFault;
use std::alloc::{AllocError, Global};
use std::test::Fail;

const TWO_JOINS: &[Join] = &[
    Join {
        from: 0,
        to: 1,
        toward: Toward::Own,
    },
    Join {
        from: 1,
        to: 0,
        toward: Toward::North,
    },
];

/// Sites of two by two such cells, their types and their neighbours.
const OF_TWO_SITES: &[(SiteId, u16, &[SiteId])] = &[
    (SiteId(0), 7, &[SiteId(1), SiteId(3)]),
    (SiteId(1), 9, &[SiteId(0), SiteId(2)]),
    (SiteId(2), 7, &[SiteId(1), SiteId(3)]),
];

#[test]
fn cells_of_two_sites(rt: HostRuntime) -> Result<(), Fail> {
    let graph = expand_periodic(rt.alloc(), 2, 2, &[7, 9], TWO_JOINS)?;
    assert_eq!(rt; graph.len(), 8);
    for (site, kind, neighbours) in OF_TWO_SITES {
        assert!(rt; site.0 < graph.len());
        assert_eq!(rt; graph.site_type(*site), *kind);
        assert_eq!(rt; graph.neighbours(*site), *neighbours);
    }
    Ok(())
}

#[test]
fn southeast_goes_around(rt: HostRuntime) -> Result<(), Fail> {
    let join = Join {
        from: 0,
        to: 0,
        toward: Toward::Southeast,
    };
    let graph = expand_periodic(rt.alloc(), 3, 3, &[1], &[join])?;
    assert!(rt; 0 < graph.len());
    assert_eq!(rt;
        graph.neighbours(SiteId(0)),
        [SiteId(5), SiteId(7)].as_slice()
    );
    Ok(())
}

#[test]
fn balls_of_fired_sites(rt: HostRuntime) -> Result<(), Fail> {
    let alloc = rt.alloc();
    let large = expand_default(alloc, DefaultLattice::Hexagonal, 10, 10)?;
    let ball = deck_ball(&rt, alloc, &large, &[SiteId(54), SiteId(55)], 3)?;
    assert_eq!(rt; ball.as_slice(), BALL_OF_TWO);
    Ok(())
}

#[test]
fn balls_on_a_small_lattice(rt: HostRuntime) -> Result<(), Fail> {
    let alloc = rt.alloc();
    let small = expand_default(alloc, DefaultLattice::Hexagonal, 3, 3)?;
    let ball = deck_ball(&rt, alloc, &small, &[SiteId(0), SiteId(1)], 3)?;
    assert_eq!(rt; ball.as_slice(), [1u32, 2, 3, 4, 5, 6, 7, 8, 9].as_slice());
    Ok(())
}

#[test]
fn small_rectangles(rt: HostRuntime) -> Result<(), Fail> {
    let graph = expand_default(rt.alloc(), DefaultLattice::Rectangular, 2, 2)?;
    assert!(rt; 0 < graph.len());
    let neighbours = [SiteId(1), SiteId(2)];
    assert_eq!(rt; graph.neighbours(SiteId(0)), neighbours.as_slice());
    Ok(())
}

#[test]
fn narrow_rectangles(rt: HostRuntime) {
    let narrow = expand_default(rt.alloc(), DefaultLattice::Rectangular, 1, 2);
    assert_eq!(rt; narrow.err(), Some(GraphFault::SelfNeighbour(0)));
}

#[test]
fn lists_that_are_given(rt: HostRuntime) -> Result<(), Fail> {
    let alloc = rt.alloc();
    let first = vec![in alloc; SiteId(1)]?;
    let second = vec![in alloc; SiteId(0)]?;
    let graph = expand_explicit(vec![in alloc; 1, 1]?, vec![in alloc; first, second]?)?;
    assert_eq!(rt; graph.len(), 2);
    Ok(())
}

#[test]
fn one_sided_lists(rt: HostRuntime) -> Result<(), Fail> {
    let alloc = rt.alloc();
    let first = vec![in alloc; SiteId(1)]?;
    let lists = vec![in alloc; first, Vec::new(alloc)]?;
    let one_sided = expand_explicit(vec![in alloc; 1, 1]?, lists);
    assert_eq!(rt; one_sided.err(), Some(GraphFault::OneSided(0, 1)));
    Ok(())
}

/// Joins of the first of 40 sites of a cell to so many others.
fn star(alloc: Global, last: u32) -> Result<Vec<Join>, AllocError> {
    let mut joins = Vec::new(alloc);
    for to in 1..=last {
        joins.push(Join {
            from: 0,
            to,
            toward: Toward::Own,
        })?;
    }
    Ok(joins)
}

/// How many joins the first site has, and whether it has too many neighbours.
const CROWDED: &[(u32, bool)] = &[(32, false), (33, true)];

#[test]
fn crowded_cells(rt: HostRuntime) -> Result<(), Fail> {
    for (last, crowded) in CROWDED {
        let joins = star(rt.alloc(), *last)?;
        assert!(rt; joins.iter().all(|join| join.from < 40 && join.to < 40));
        let found = is_crowded(rt.alloc(), 1, 1, 40, &joins)?;
        assert_eq!(rt; found, *crowded, "{last}");
    }
    Ok(())
}
