use crate::decks::{fault_of, read_text};
use std::alloc::{AllocError, Global};
use std::test::Fail;

/// A cluster of so many variants, and another one without variants, of this energy.
fn many_clusters(alloc: Global, variants: u32, energy: &str) -> Result<String, AllocError> {
    let mut text = String::from_str(
        alloc,
        "energetics\ncluster a\nsites 1\nlattice_state\n1 A 1\ncluster_eng 1\n",
    )?;
    for _ in 0..variants {
        text.push_str("variant v\nend_variant\n")?;
    }
    text.push_str("end_cluster\ncluster b\nsites 1\nlattice_state\n1 A 1\ncluster_eng ")?;
    text.push_str(energy)?;
    text.push_str("\nend_cluster\nend_energetics\n")?;
    Ok(text)
}

/// The number of variants of the first of two clusters, the energy of the other one, and the fault.
const COUNTS: &[(u32, &str, Option<(u32, u8)>)] = &[
    (255, "1", None),
    (256, "1", Some((526, 30))),
    (256, "x", Some((524, 11))),
    (1000, "1", Some((2014, 30))),
];

#[test]
fn there_are_at_most_256_clusters(rt: HostRuntime) -> Result<(), Fail> {
    let alloc = rt.alloc();
    for (variants, energy, fault) in COUNTS {
        let text = many_clusters(alloc, *variants, energy)?;
        assert_eq!(rt; fault_of(alloc, text.as_bytes())?, *fault, "{variants}");
    }
    Ok(())
}

#[test]
fn reads_256_clusters(rt: HostRuntime) -> Result<(), Fail> {
    let text = many_clusters(rt.alloc(), 255, "1")?;
    let part = read_text(rt.alloc(), text.as_bytes())?;
    assert_eq!(rt; part.clusters.len(), 256);
    Ok(())
}

/// Lines of a cluster at a limit.
const ACCEPTED: &[&str] = &[
    "sites 8\nneighboring 1-2 2-3 3-4 4-5 5-6 6-7 7-8\nsite_types a b c d e f g h\nlattice_state\n1 A 1\n2 A 1\n3 A 1\n4 A 1\n5 A 1\n6 A 1\n7 A 1\n8 A 1\ncluster_eng 1\n",
    "sites 1\nlattice_state\n8 A 1\ngraph_multiplicity 1000\ncluster_eng 1\n",
    "sites 1\nlattice_state\n& & &\ngraph_multiplicity 1\ncluster_eng 1000\n",
    "sites 1\nneighboring\nlattice_state\n1 * 1\ncluster_eng -1000.000000000\n",
];

#[test]
fn accepts_what_is_at_a_limit(rt: HostRuntime) -> Result<(), Fail> {
    let alloc = rt.alloc();
    for lines in ACCEPTED {
        let text = format!(in alloc;
            "energetics\ncluster a\n{lines}end_cluster\nend_energetics\n"
        )?;
        assert_eq!(rt; fault_of(alloc, text.as_bytes())?, None, "{text}");
    }
    Ok(())
}
