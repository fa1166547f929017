use crate::decks::fault_of;
use std::alloc::{AllocError, Global};
use std::test::Fail;

/// The lines of a file without faults.
const LINES: &[&str] = &[
    "energetics",
    "cluster a",
    "sites 2",
    "neighboring 1-2",
    "lattice_state",
    "1 A 1",
    "1 A 2",
    "site_types t 1",
    "graph_multiplicity 1",
    "cluster_eng 1",
    "end_cluster",
    "end_energetics",
];

/// The file with another text in the place of a line.
fn with_line(alloc: Global, number: usize, line: &str) -> Result<String, AllocError> {
    let mut text = String::new(alloc);
    for (i, own) in LINES.iter().enumerate() {
        text.push_str(if i < number && number - i == 1 {
            line
        } else {
            own
        })?;
        text.push_str("\n")?;
    }
    Ok(text)
}

/// The number of a line, what stands in its place, and the line and the kind of the fault.
const OF_LINES: &[(usize, &str, u32, u8)] = &[
    (10, "cluster_eng x", 10, 11),
    (3, "sites x", 3, 12),
    (9, "graph_multiplicity 1.5", 9, 12),
    (3, "sites 0", 3, 13),
    (3, "sites 9", 3, 13),
    (9, "graph_multiplicity 0", 9, 13),
    (9, "graph_multiplicity 1001", 9, 13),
    (10, "cluster_eng 1000.000000001", 10, 13),
    (10, "cluster_eng -1000.000000001", 10, 13),
    (10, "cluster_eng 1e401", 10, 13),
    (8, "site_types t", 8, 15),
    (8, "site_types t 1 t", 8, 15),
    (7, "", 5, 16),
    (7, "1 A 2\n2 B 1", 5, 16),
    (7, "1 A", 7, 17),
    (6, "1 A 1 1", 6, 17),
    (6, "& A 1", 6, 17),
    (6, "1 & 1", 6, 17),
    (6, "1 A &", 6, 17),
    (6, "& & 1", 6, 17),
    (6, "0 A 1", 6, 17),
    (6, "9 A 1", 6, 17),
    (7, "1 A x", 7, 17),
    (4, "neighboring 1-2 2", 4, 20),
    (4, "neighboring 1-2 1-1", 4, 20),
    (4, "neighboring 1-2 1-3", 4, 20),
    (4, "neighboring", 4, 21),
    (4, "", 3, 21),
    (7, "1 A 1", 7, 22),
    (7, "1 B 2", 7, 23),
    (7, "1 B 1", 7, 22),
];

#[test]
fn faults_of_lines(rt: HostRuntime) -> Result<(), Fail> {
    let alloc = rt.alloc();
    for (number, new, line, kind) in OF_LINES {
        let text = with_line(alloc, *number, new)?;
        let fault = fault_of(alloc, text.as_bytes())?;
        assert_eq!(rt; fault, Some((*line, *kind)), "{text}");
    }
    Ok(())
}

/// The further lines of a cluster of one site, from the sixth of the file on, and the fault.
const BELOW: &[(&str, Option<(u32, u8)>)] = &[
    ("cluster_eng x\ngraph_multiplicity 0\n", Some((6, 11))),
    ("graph_multiplicity 0\ncluster_eng x\n", Some((6, 13))),
    ("cluster_eng x\nsite_types t t\n", Some((6, 11))),
    ("site_types t t\ncluster_eng x\n", Some((6, 15))),
    ("cluster_eng x\nneighboring 1-1\n", Some((6, 11))),
    ("neighboring 1-1\ncluster_eng x\n", Some((6, 20))),
    (
        "cluster_eng x\nvariant v\ngraph_multiplicity 0\nend_variant\n",
        Some((6, 11)),
    ),
    (
        "variant v\ngraph_multiplicity 0\nend_variant\ncluster_eng x\n",
        Some((7, 13)),
    ),
    (
        "variant v\ncluster_eng x\nend_variant\nvariant w\ncluster_eng 1\nsite_types t t\nend_variant\n",
        Some((7, 11)),
    ),
    (
        "variant v\ncluster_eng 1\nsite_types t t\nend_variant\nvariant w\ncluster_eng x\nend_variant\n",
        Some((8, 15)),
    ),
    (
        "cluster_eng x\nvariant v\ncluster_eng 1\nend_variant\n",
        Some((6, 11)),
    ),
    (
        "graph_multiplicity 0\nvariant v\ncluster_eng 1\ngraph_multiplicity 1\nend_variant\n",
        Some((6, 13)),
    ),
    (
        "site_types t t\nvariant v\ncluster_eng 1\nsite_types t\nend_variant\n",
        Some((6, 15)),
    ),
    (
        "cluster_eng 1\nvariant v\nend_variant\nvariant v\nend_variant\n",
        None,
    ),
];

#[test]
fn faults_of_variants_and_the_cluster_around_them(rt: HostRuntime) -> Result<(), Fail> {
    let alloc = rt.alloc();
    for (lines, fault) in BELOW {
        let text = format!(in alloc;
            "energetics\ncluster a\nsites 1\nlattice_state\n1 A 1\n{lines}end_cluster\nend_energetics\n"
        )?;
        assert_eq!(rt; fault_of(alloc, text.as_bytes())?, *fault, "{text}");
    }
    Ok(())
}

/// The lines of a cluster, from the third of the file on, and the line and the kind of the fault. A number of sites with
/// a fault leaves no fault of edges, types and the number of rows.
const FAULTY_SITES: &[(&str, u32, u8)] = &[
    (
        "sites x\nneighboring 3-4 x 1-1\nsite_types t t\nlattice_state\n1 A 1\n",
        3,
        12,
    ),
    (
        "neighboring x 3-4\nsite_types t t t\nlattice_state\n1 A 1\nsites 9\n",
        7,
        13,
    ),
    (
        "lattice_state\n1 A 1\nsites 9\nvariant v\nsite_types t t\nend_variant\n",
        5,
        13,
    ),
    ("lattice_state\n1 A 1\n1 A 1\nsites 9\n", 5, 22),
    ("lattice_state\n1 A 1\n2 A &\nsites 9\n", 5, 17),
    ("lattice_state\n1 A 1\nsites 9\n", 5, 13),
];

#[test]
fn faults_beside_a_faulty_number_of_sites(rt: HostRuntime) -> Result<(), Fail> {
    let alloc = rt.alloc();
    for (lines, line, kind) in FAULTY_SITES {
        let text = format!(in alloc;
            "energetics\ncluster a\n{lines}cluster_eng 1\nend_cluster\nend_energetics\n"
        )?;
        let fault = fault_of(alloc, text.as_bytes())?;
        assert_eq!(rt; fault, Some((*line, *kind)), "{text}");
    }
    Ok(())
}

/// The names of three clusters, the energies of the first and the third, and the fault.
const OF_NAMES: &[(&str, &str, &str, &str, &str, Option<(u32, u8)>)] = &[
    ("a", "b", "c", "1", "1", None),
    ("a", "b", "a", "1", "1", Some((14, 18))),
    ("a", "a", "a", "1", "1", Some((8, 18))),
    ("a", "b", "b", "x", "1", Some((6, 11))),
    ("a", "b", "b", "1", "x", Some((14, 18))),
];

#[test]
fn names_of_clusters_differ(rt: HostRuntime) -> Result<(), Fail> {
    let alloc = rt.alloc();
    for (first, second, third, energy, last, fault) in OF_NAMES {
        let text = format!(in alloc;
            "energetics\ncluster {first}\nsites 1\nlattice_state\n1 A 1\ncluster_eng {energy}\nend_cluster\ncluster {second}\nsites 1\nlattice_state\n1 A 1\ncluster_eng 1\nend_cluster\ncluster {third}\nsites 1\nlattice_state\n1 A 1\ncluster_eng {last}\nend_cluster\nend_energetics\n"
        )?;
        assert_eq!(rt; fault_of(alloc, text.as_bytes())?, *fault, "{text}");
    }
    Ok(())
}
