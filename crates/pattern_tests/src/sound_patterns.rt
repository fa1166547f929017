use kmc_base::{SiteId, SpeciesId};
use pattern_types::{Pattern, PatternFault, Placement, Wanted};
use std::process::Abort;
use std::test::Fail;

/// The pattern of these edges and wanted states, at sites of any type.
fn untyped(
    rt: &impl Abort,
    edges: &[(u8, u8)],
    wanted: &[Wanted],
) -> Result<Pattern, PatternFault> {
    let types = [None; 9];
    assert!(rt; wanted.len() <= types.len());
    Pattern::new(edges, &types[..wanted.len()], wanted)
}

/// Edges of vacant vertices, how many vertices there are, and the first fault.
const VACANT_FAULTS: &[(&[(u8, u8)], usize, Option<PatternFault>)] = &[
    (&[], 0, Some(PatternFault::Empty)),
    (&[(1, 1)], 0, Some(PatternFault::Empty)),
    (&[], 9, Some(PatternFault::TooLarge)),
    (&[(1, 1)], 9, Some(PatternFault::TooLarge)),
    (&[(1, 3)], 2, Some(PatternFault::BadEdge)),
    (&[(3, 1)], 2, Some(PatternFault::BadEdge)),
    (&[(0, 1)], 2, Some(PatternFault::BadEdge)),
    (&[(1, 0)], 2, Some(PatternFault::BadEdge)),
    (&[(1, 2), (2, 2)], 2, Some(PatternFault::BadEdge)),
    (&[], 2, Some(PatternFault::NotConnected)),
    (&[(1, 2), (3, 4)], 4, Some(PatternFault::NotConnected)),
    (&[], 1, None),
    (
        &[(1, 2), (2, 3), (3, 4), (4, 5), (5, 6), (6, 7), (7, 8)],
        8,
        None,
    ),
];

#[test]
fn first_faults_of_vacant_vertices(rt: HostRuntime) {
    let vacant = [Wanted::Vacant; 9];
    for (edges, len, fault) in VACANT_FAULTS {
        assert!(rt; *len <= vacant.len());
        let made = untyped(&rt, *edges, &vacant[..*len]);
        assert_eq!(rt; made.err(), *fault, "{edges:?} {len}");
    }
}

/// A vertex that wants a dentate of an adsorbate.
const FIRST: Wanted = Wanted::Holds {
    entity: 1,
    species: SpeciesId(0),
    dentate: 1,
};

/// The same adsorbate's other dentate, one of another species in its place, and another adsorbate.
const SECOND: Wanted = Wanted::Holds {
    entity: 1,
    species: SpeciesId(0),
    dentate: 2,
};

const OTHER_SPECIES: Wanted = Wanted::Holds {
    entity: 1,
    species: SpeciesId(1),
    dentate: 2,
};

const OTHER: Wanted = Wanted::Holds {
    entity: 2,
    species: SpeciesId(1),
    dentate: 1,
};

/// One dentate twice, with one number of the adsorbate and with another one.
const TWICE: &[Wanted] = &[FIRST, FIRST, Wanted::Any];

const TWICE_IN_TWO_SPECIES: &[Wanted] = &[
    Wanted::Holds {
        entity: 7,
        species: SpeciesId(0),
        dentate: 2,
    },
    Wanted::Vacant,
    Wanted::Holds {
        entity: 7,
        species: SpeciesId(1),
        dentate: 2,
    },
];

const TWO_SPECIES: &[Wanted] = &[FIRST, OTHER_SPECIES, Wanted::Any];

const SOUND: &[Wanted] = &[FIRST, SECOND, OTHER];

/// Edges, what the vertices want, and the first fault.
const FAULTS: &[(&[(u8, u8)], &[Wanted], Option<PatternFault>)] = &[
    (&[(1, 1)], TWICE, Some(PatternFault::BadEdge)),
    (&[(2, 4)], TWO_SPECIES, Some(PatternFault::BadEdge)),
    (&[(1, 2)], TWICE, Some(PatternFault::NotConnected)),
    (
        &[(2, 3), (3, 2)],
        TWO_SPECIES,
        Some(PatternFault::NotConnected),
    ),
    (&[(1, 2), (2, 3)], TWICE, Some(PatternFault::DoubleDentate)),
    (
        &[(1, 2), (2, 3)],
        TWICE_IN_TWO_SPECIES,
        Some(PatternFault::DoubleDentate),
    ),
    (
        &[(1, 2), (2, 3)],
        TWO_SPECIES,
        Some(PatternFault::TwoSpecies),
    ),
    (&[(1, 2), (2, 3)], SOUND, None),
];

#[test]
fn first_faults(rt: HostRuntime) {
    for (edges, wanted, fault) in FAULTS {
        let made = untyped(&rt, *edges, *wanted);
        assert_eq!(rt; made.err(), *fault, "{edges:?} {wanted:?}");
    }
}

/// The edges, the number of vertices, the order, and the parents of the places from 1 on.
const ORDERS: &[(&[(u8, u8)], usize, [u8; 8], &[u8])] = &[
    (&[], 1, [1, 0, 0, 0, 0, 0, 0, 0], &[]),
    // a chain, each edge given twice
    (
        &[(1, 2), (3, 2), (3, 4), (2, 1), (2, 3), (4, 3)],
        4,
        [1, 2, 3, 4, 0, 0, 0, 0],
        &[1, 2, 3],
    ),
    // a chain whose numbers are out of order
    (
        &[(1, 5), (5, 2), (2, 4), (4, 3)],
        5,
        [1, 5, 2, 4, 3, 0, 0, 0],
        &[1, 5, 2, 4],
    ),
    // a star
    (
        &[(3, 1), (3, 2), (3, 4)],
        4,
        [1, 3, 2, 4, 0, 0, 0, 0],
        &[1, 3, 3],
    ),
    // a ring of five with a chord
    (
        &[(1, 2), (2, 3), (3, 4), (4, 5), (5, 1), (2, 5)],
        5,
        [1, 2, 3, 4, 5, 0, 0, 0],
        &[1, 2, 3, 1],
    ),
    // a ring of four whose numbers are out of order
    (
        &[(1, 4), (4, 2), (2, 3), (3, 1)],
        4,
        [1, 3, 2, 4, 0, 0, 0, 0],
        &[1, 3, 1],
    ),
    // a tree of eight
    (
        &[(1, 8), (8, 7), (8, 3), (7, 2), (3, 6), (2, 4), (4, 5)],
        8,
        [1, 8, 3, 6, 7, 2, 4, 5],
        &[1, 8, 3, 8, 7, 2, 4],
    ),
];

/// Looks at the parents of the places from 1 on.
fn look_at_parents(rt: &impl Abort, pattern: &Pattern, parents: &[u8]) {
    for (place, parent) in parents.iter().enumerate() {
        assert!(rt; place + 1 < usize::from(pattern.len()));
        assert_eq!(rt; pattern.parent(place as u8 + 1), *parent, "place {place}");
    }
}

#[test]
fn orders_and_parents(rt: HostRuntime) -> Result<(), Fail> {
    let any = [Wanted::Any; 8];
    for (edges, len, order, parents) in ORDERS {
        assert!(rt; *len <= any.len());
        let pattern = untyped(&rt, *edges, &any[..*len])?;
        assert_eq!(rt; pattern.order(), *order, "{edges:?}");
        look_at_parents(&rt, &pattern, *parents);
    }
    Ok(())
}

/// What the vertices of a pattern want and which type of site each asks for, in their order.
const VERTICES: &[(Wanted, Option<u16>)] = &[
    (FIRST, Some(4)),
    (Wanted::Vacant, None),
    (SECOND, Some(1)),
];

/// The pattern of these three vertices, of which the third is joined to the others.
fn three_vertices() -> Result<Pattern, PatternFault> {
    let wanted = [FIRST, Wanted::Vacant, SECOND];
    Pattern::new(&[(3, 1), (2, 3)], &[Some(4), None, Some(1)], &wanted)
}

#[test]
fn vertices_of_a_pattern(rt: HostRuntime) -> Result<(), Fail> {
    let pattern = three_vertices()?;
    assert_eq!(rt; pattern.len(), 3);
    for (place, (wanted, site_type)) in VERTICES.iter().enumerate() {
        assert!(rt; place < usize::from(pattern.len()));
        let vertex = place as u8 + 1;
        assert_eq!(rt; pattern.wanted(vertex), *wanted);
        assert_eq!(rt; pattern.site_type(vertex), *site_type);
    }
    Ok(())
}

/// Pairs of vertices, and whether an edge joins them.
const PAIRS: &[(u8, u8, bool)] = &[
    (1, 3, true),
    (3, 1, true),
    (2, 3, true),
    (3, 2, true),
    (1, 2, false),
    (2, 1, false),
    (1, 1, false),
];

#[test]
fn edges_of_a_pattern(rt: HostRuntime) -> Result<(), Fail> {
    let pattern = three_vertices()?;
    assert_eq!(rt; pattern.len(), 3);
    for (v, u, is_joined) in PAIRS {
        assert!(rt; 1 <= *v && *v <= 3 && 1 <= *u && *u <= 3);
        assert_eq!(rt; pattern.has_edge(*v, *u), *is_joined, "{v} {u}");
    }
    Ok(())
}

#[test]
fn faults_in_words(rt: HostRuntime) -> Result<(), Fail> {
    let fault = PatternFault::NotConnected;
    let text = format!(in rt.alloc(); "{fault}")?;
    assert_eq!(rt; text.as_str(), "the vertices of a pattern are connected");
    Ok(())
}

#[test]
fn placements(rt: HostRuntime) {
    let sites = [SiteId(7), SiteId(0), SiteId(65_535)];
    let placement = Placement::new(&sites);
    assert_eq!(rt; placement.sites(), sites.as_slice());
    assert_eq!(rt; (placement.len(), placement.is_empty()), (3, false));
    assert!(rt; Placement::new(&[]).is_empty());
    let copy = placement;
    assert!(rt; copy == placement && placement != Placement::new(&sites[..2]));
}

#[test]
fn longest_placement(rt: HostRuntime) {
    let sites = [SiteId(1); 8];
    assert_eq!(rt; Placement::new(&sites).sites(), sites.as_slice());
}
