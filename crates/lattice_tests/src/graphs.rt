ghost use Rattle.std.specs.Prelude.{◌<◌};

use kmc_base::SiteId;
use lattice_core::{Graph, GraphFault};
use std::alloc::{AllocError, Global};
use std::process::Abort;
use std::test::Fail;

/// The list of a row of a text.
fn list(alloc: Global, row: &str) -> Result<Vec<SiteId>, Fail> {
    let mut list = Vec::new(alloc);
    for word in row.split_whitespace() {
        list.push(SiteId(word.parse::<u32>()?))?;
    }
    Ok(list)
}

/// The lists of a text: those of the sites are between bars, from site 0 on.
fn lists(alloc: Global, text: &str) -> Result<Vec<Vec<SiteId>>, Fail> {
    let mut lists = Vec::new(alloc);
    for row in text.split('|') {
        lists.push(list(alloc, row)?)?;
    }
    Ok(lists)
}

/// The graph of such lists, or its fault. The type of each site is 7.
pub(super) fn graph(
    rt: &impl Abort,
    alloc: Global,
    lists: Vec<Vec<SiteId>>,
) -> Result<Result<Graph, GraphFault>, Fail> {
    let count = lists.len();
    assert!(rt; 1 <= count && count <= 65_536);
    let types = vec![in alloc; 7u16; count]?;
    assert_eq!(rt; types.len(), lists.len());
    Ok(Graph::new(types, lists))
}

/// The fault of the lists of a text.
fn fault_of(rt: &impl Abort, alloc: Global, text: &str) -> Result<Option<GraphFault>, Fail> {
    let lists = lists(alloc, text)?;
    Ok(graph(rt, alloc, lists)?.err())
}

/// The site of a row and a column, both modulo the size of a grid.
fn site_at(rows: u32, columns: u32, row: u32, column: u32) -> SiteId
    requires rows { 0 < rows }
    requires columns { 0 < columns }
{
    SiteId(
        (row % rows)
            .wrapping_mul(columns)
            .wrapping_add(column % columns),
    )
}

/// The neighbours of a site of a grid, which are these displacements away, forth and back.
fn neighbours(
    alloc: Global,
    rows: u32,
    columns: u32,
    site: u32,
    displacements: &[(u32, u32)],
) -> Result<Vec<SiteId>, AllocError>
    requires rows { 0 < rows }
    requires columns { 0 < columns }
{
    let row = site / columns;
    let column = site % columns;
    let mut list = Vec::new(alloc);
    for (down, right) in displacements {
        let below = row.wrapping_add(*down);
        let beside = column.wrapping_add(*right);
        list.push(site_at(rows, columns, below, beside))?;
        let above = row.wrapping_add(rows).wrapping_sub(*down);
        let before = column.wrapping_add(columns).wrapping_sub(*right);
        list.push(site_at(rows, columns, above, before))?;
    }
    Ok(list)
}

/// Sites in rows of so many columns, each joined to those at these displacements, both modulo the size.
pub(super) fn grid(
    alloc: Global,
    rows: u32,
    columns: u32,
    displacements: &[(u32, u32)],
) -> Result<Vec<Vec<SiteId>>, Fail>
    requires rows { 0 < rows }
    requires columns { 0 < columns }
{
    let mut lists = Vec::new(alloc);
    for site in 0..rows.wrapping_mul(columns) {
        lists.push(neighbours(alloc, rows, columns, site, displacements)?)?;
    }
    Ok(lists)
}

/// The ball of these centres, in numbers from 1, as decks have them.
pub(super) fn deck_ball(
    rt: &impl Abort,
    alloc: Global,
    graph: &Graph,
    centres: &[SiteId],
    radius: u32,
) -> Result<Vec<u32>, Fail> {
    let count = graph.len();
    assert!(rt; centres.iter().all(|site| site.0 < count));
    let ball = graph.ball(alloc, centres, radius)?;
    let mut numbers = Vec::new(alloc);
    for site in &ball {
        numbers.push(site.0.wrapping_add(1))?;
    }
    Ok(numbers)
}

pub(super) const RECTANGULAR: &[(u32, u32)] = &[(0, 1), (1, 0)];

const HEXAGONAL: &[(u32, u32)] = &[(0, 1), (1, 0), (1, 1)];

/// The ball of radius 3 round two neighbours in the middle of a hexagonal lattice of ten by ten sites.
pub(super) const BALL_OF_TWO: &[u32] = &[
    22, 23, 24, 25, 26, 32, 33, 34, 35, 36, 37, 42, 43, 44, 45, 46, 47, 48, 52, 53, 54, 55, 56, 57,
    58, 59, 63, 64, 65, 66, 67, 68, 69, 74, 75, 76, 77, 78, 79, 85, 86, 87, 88, 89,
];

#[test]
fn balls_of_fired_sites(rt: HostRuntime) -> Result<(), Fail> {
    let alloc = rt.alloc();
    let made = graph(&rt, alloc, grid(alloc, 10, 10, HEXAGONAL)?)?;
    let large = made.ok().ok_or("a fault")?;
    let centres = [SiteId(55), SiteId(54), SiteId(55)];
    let ball = deck_ball(&rt, alloc, &large, &centres, 3)?;
    assert_eq!(rt; ball.as_slice(), BALL_OF_TWO);
    Ok(())
}

#[test]
fn balls_of_no_site_and_of_all_sites(rt: HostRuntime) -> Result<(), Fail> {
    let alloc = rt.alloc();
    let made = graph(&rt, alloc, grid(alloc, 10, 10, HEXAGONAL)?)?;
    let large = made.ok().ok_or("a fault")?;
    assert_eq!(rt; deck_ball(&rt, alloc, &large, &[], 3)?.len(), 0);
    let last = deck_ball(&rt, alloc, &large, &[SiteId(99)], 0)?;
    assert_eq!(rt; last.as_slice(), [100u32].as_slice());
    let all = deck_ball(&rt, alloc, &large, &[SiteId(0)], u32::MAX)?;
    assert_eq!(rt; all.len(), 100);
    Ok(())
}

#[test]
fn balls_on_a_small_lattice(rt: HostRuntime) -> Result<(), Fail> {
    let alloc = rt.alloc();
    let made = graph(&rt, alloc, grid(alloc, 3, 3, HEXAGONAL)?)?;
    let small = made.ok().ok_or("a fault")?;
    let ball = deck_ball(&rt, alloc, &small, &[SiteId(0), SiteId(1)], 3)?;
    assert_eq!(rt; ball.as_slice(), [1u32, 2, 3, 4, 5, 6, 7, 8, 9].as_slice());
    Ok(())
}

#[test]
fn neighbours_on_a_small_lattice(rt: HostRuntime) -> Result<(), Fail> {
    let alloc = rt.alloc();
    let made = graph(&rt, alloc, grid(alloc, 2, 2, RECTANGULAR)?)?;
    let small = made.ok().ok_or("a fault")?;
    assert!(rt; 0 < small.len());
    let neighbours = [SiteId(1), SiteId(2)];
    assert_eq!(rt; small.neighbours(SiteId(0)), neighbours.as_slice());
    Ok(())
}

#[test]
fn neighbours_and_slots(rt: HostRuntime) -> Result<(), Fail> {
    let alloc = rt.alloc();
    let made = graph(&rt, alloc, grid(alloc, 5, 5, RECTANGULAR)?)?;
    let graph = made.ok().ok_or("a fault")?;
    let site = SiteId(0);
    assert_eq!(rt; graph.len(), 25);
    assert_eq!(rt; graph.site_type(site), 7);
    let neighbours = [SiteId(1), SiteId(4), SiteId(5), SiteId(20)];
    assert_eq!(rt; graph.neighbours(site), neighbours.as_slice());
    assert_eq!(rt; graph.slot_of(site, SiteId(5)), Some(2));
    assert_eq!(rt; graph.slot_of(site, SiteId(6)), None);
    assert_eq!(rt; graph.at_slot(site, 2), Some(SiteId(5)));
    assert_eq!(rt; graph.at_slot(site, 4), None);
    Ok(())
}

const FAULTS: &[(&str, Option<GraphFault>)] = &[
    // one fault of each kind, and none
    ("1 2|2 0|1 0 0", None),
    ("2 9|0|0", Some(GraphFault::BadSite(0))),
    ("1|0 1", Some(GraphFault::SelfNeighbour(1))),
    ("1 2|0|", Some(GraphFault::OneSided(0, 2))),
    ("2 1||", Some(GraphFault::OneSided(0, 1))),
    ("1|0 2|", Some(GraphFault::OneSided(1, 2))),
    // two faults of one site
    ("0 9|", Some(GraphFault::BadSite(0))),
    ("9 1|", Some(GraphFault::BadSite(0))),
    ("1 0|", Some(GraphFault::SelfNeighbour(0))),
    // the least site first
    ("0|9", Some(GraphFault::SelfNeighbour(0))),
    ("9|1", Some(GraphFault::BadSite(0))),
    ("1|9", Some(GraphFault::OneSided(0, 1))),
    ("1|1", Some(GraphFault::OneSided(0, 1))),
    ("|0 1 9", Some(GraphFault::BadSite(1))),
];

#[test]
fn first_faults(rt: HostRuntime) -> Result<(), Fail> {
    for (text, fault) in FAULTS {
        assert_eq!(rt; fault_of(&rt, rt.alloc(), *text)?, *fault, "{text}");
    }
    Ok(())
}

/// 33 neighbours of site 0, the last of which do not list it, and then 32, one of them twice.
const MANY: &str =
    "1 2 3 4 5 6 7 8 9 10 11 12 13 14 15 16 17 18 19 20 21 22 23 24 25 26 27 28 29 30 31 32 33";

const FULL: &str =
    "1 2 3 4 5 6 7 8 9 10 11 12 13 14 15 16 17 18 19 20 21 22 23 24 25 26 27 28 29 30 31 32 32";

const BACK: &str = "|0|0|0|0|0|0|0|0|0|0|0|0|0|0|0|0|0|0|0|0|0|0|0|0|0|0|0|0|0|0|0|0";

/// The first list and the last lists of a text, and its fault.
const CROWDED: &[(&str, &str, Option<GraphFault>)] = &[
    (FULL, "", None),
    (FULL, "|", None),
    (MANY, "|0", Some(GraphFault::TooMany(0))),
    (MANY, "|", Some(GraphFault::TooMany(0))),
    (MANY, "|33 40", Some(GraphFault::TooMany(0))),
    (MANY, "", Some(GraphFault::BadSite(0))),
];

#[test]
fn too_many_neighbours(rt: HostRuntime) -> Result<(), Fail> {
    let alloc = rt.alloc();
    for (first, last, fault) in CROWDED {
        let text = format!(in alloc; "{first}{BACK}{last}")?;
        assert_eq!(rt; fault_of(&rt, alloc, &text)?, *fault, "{text}");
    }
    Ok(())
}

#[test]
fn itself_among_too_many_neighbours(rt: HostRuntime) -> Result<(), Fail> {
    let text = format!(in rt.alloc(); "0 {MANY}{BACK}|0")?;
    let fault = fault_of(&rt, rt.alloc(), &text)?;
    assert_eq!(rt; fault, Some(GraphFault::SelfNeighbour(0)));
    Ok(())
}

const FAULTS_IN_WORDS: &[(GraphFault, &str)] = &[
    (
        GraphFault::BadSite(3),
        "site 3 lists a number that is no site",
    ),
    (GraphFault::SelfNeighbour(3), "site 3 is its own neighbour"),
    (GraphFault::TooMany(3), "site 3 has too many neighbours"),
    (
        GraphFault::OneSided(3, 5),
        "site 3 lists 5, which does not list it",
    ),
    (GraphFault::OutOfMemory, "out of memory"),
];

#[test]
fn faults_in_words(rt: HostRuntime) -> Result<(), Fail> {
    for (fault, words) in FAULTS_IN_WORDS {
        assert_eq!(rt; format!(in rt.alloc(); "{fault}")?.as_str(), *words);
    }
    Ok(())
}
