use crate::decks::read_text;
use deck_shape::Name;
use energetics_deck::{ClusterPart, EnergeticsPart};
use pattern_rows::StateRow;
use std::process::Abort;
use std::test::Fail;

/// Every word of the file. Variants a and b take words of the cluster around them from lines below them; variant c takes
/// its energy and its multiplicity from lines above it.
const DECK: &[u8] =
    b"# pairs and one triple\nenergetics\ncluster pair\nsites 2\nneighboring 1-2\nlattice_state\n1 CO* 1\n2 O* 1\nvariant a\nsite_types top 2\ncluster_eng 0.5\nend_variant\nvariant b\ngraph_multiplicity 1\nend_variant\ngraph_multiplicity 2\nsite_types bridge top\ncluster_eng -1.25\nvariant c\nsite_types hollow 1\nend_variant\nend_cluster\ncluster triple\nsites 3\nneighboring 2-1 3-2 1-2\nlattice_state\n& & &\n1 * 1\n2 CO* 2\ncluster_eng 2e-9\nend_cluster\nend_energetics\n";

/// A word, and its line.
type Word = (&'static [u8], u32);

/// What a row wants: an entity, a species and a dentate.
type Row = (u8, Word, u64);

/// What a cluster is: its sites, edges, rows (None for any state), types and share.
type Cluster = (
    u8,
    &'static [(u8, u8)],
    &'static [Option<Row>],
    &'static [Word],
    i64,
);

const PAIR: &[Option<Row>] = &[Some((1, (b"CO*", 7), 1)), Some((2, (b"O*", 8), 1))];

const CLUSTERS: &[Cluster] = &[
    (2, &[(1, 2)], PAIR, &[(b"top", 10), (b"2", 10)], 250_000_000),
    (
        2,
        &[(1, 2)],
        PAIR,
        &[(b"bridge", 17), (b"top", 17)],
        -1_250_000_000,
    ),
    (
        2,
        &[(1, 2)],
        PAIR,
        &[(b"hollow", 20), (b"1", 20)],
        -625_000_000,
    ),
    (
        3,
        &[(1, 2), (2, 3)],
        &[None, Some((1, (b"*", 28), 1)), Some((2, (b"CO*", 29), 2))],
        &[],
        2,
    ),
];

const TYPE_WORDS: &[Word] = &[
    (b"top", 10),
    (b"2", 10),
    (b"bridge", 17),
    (b"top", 17),
    (b"hollow", 20),
    (b"1", 20),
];

fn is_word(name: &Name, want: &Word) -> bool {
    name.span.bytes(DECK) == want.0 && name.line == want.1
}

fn are_words(names: &[Name], want: &[Word]) -> bool {
    for (name, word) in names.iter().zip(want) {
        if !is_word(name, word) {
            return false;
        }
    }
    names.len() == want.len()
}

fn is_row(row: &StateRow, want: &Option<Row>) -> bool {
    match (row, want) {
        (StateRow::Any, None) => true,
        (
            StateRow::Is {
                entity,
                species,
                dentate,
            },
            Some((e, word, d)),
        ) => *entity == *e && *dentate == *d && is_word(species, word),
        _ => false,
    }
}

fn are_rows(rows: &[StateRow], want: &[Option<Row>]) -> bool {
    for (row, wanted) in rows.iter().zip(want) {
        if !is_row(row, wanted) {
            return false;
        }
    }
    rows.len() == want.len()
}

fn compare(rt: &impl Abort, cluster: &ClusterPart, want: &Cluster) {
    let (sites, edges, rows, types, share) = want;
    assert_eq!(rt; cluster.sites, *sites);
    assert_eq!(rt; cluster.edges.as_slice(), *edges);
    assert!(rt; are_rows(cluster.rows.as_slice(), *rows));
    assert!(rt; are_words(cluster.types.as_slice(), *types));
    assert_eq!(rt; cluster.share, *share);
}

#[test]
fn reads_all_words(rt: HostRuntime) -> Result<(), Fail> {
    let part = read_text(rt.alloc(), DECK)?;
    let clusters = part.clusters.as_slice();
    assert_eq!(rt; clusters.len(), 4);
    for (cluster, want) in clusters.iter().zip(CLUSTERS) {
        compare(&rt, cluster, want);
    }
    assert!(rt; are_words(part.type_words.as_slice(), TYPE_WORDS));
    Ok(())
}

/// Energies, graph multiplicities, and the shares: half a neV is rounded away from zero.
const SHARES: &[(&str, &str, i64)] = &[
    ("-0.000000003", "2", -2),
    ("0.000000003", "2", 2),
    ("-0.000000001", "2", -1),
    ("0.000000004", "3", 1),
    ("0.000000005", "3", 2),
    ("0", "7", 0),
    ("1000", "1000", 1_000_000_000),
    ("1000", "1", 1_000_000_000_000),
    ("-1000", "1", -1_000_000_000_000),
];

/// The share of the one cluster of a file.
fn only_share(part: &EnergeticsPart) -> Option<i64> {
    match part.clusters.as_slice() {
        [cluster] => Some(cluster.share),
        _ => None,
    }
}

#[test]
fn shares_are_rounded_away_from_zero(rt: HostRuntime) -> Result<(), Fail> {
    let alloc = rt.alloc();
    for (energy, multiplicity, share) in SHARES {
        let text = format!(in alloc;
            "energetics\ncluster a\nsites 1\nlattice_state\n1 A 1\ncluster_eng {energy}\ngraph_multiplicity {multiplicity}\nend_cluster\nend_energetics\n"
        )?;
        let part = read_text(alloc, text.as_bytes())?;
        assert_eq!(rt; only_share(&part), Some(*share), "{text}");
    }
    Ok(())
}
