use dec_text::split;
use deck_words::LineFault;
use kmc_base::{OutOfMemory, SiteId};
use lattice_core::Graph;
use site_rows::{TypeIndex, graph_of, is_no_site, read_rows, type_of};
use std::alloc::Global;
use std::test::Fail;

/// The names of two types.
fn two_names(alloc: Global) -> Result<[Vec<u8>; 2], Fail> {
    Ok([b"top".to_vec(alloc)?, b"hollow".to_vec(alloc)?])
}

/// Words of a type, and the number of the type among those two, or 0.
const TYPES: &[(&[u8], usize)] = &[
    (b"2", 2),
    (b"3", 0),
    (b"0", 0),
    (b"top", 1),
    (b"hollow", 2),
    (b"hollo", 0),
];

#[test]
fn words_of_types(rt: HostRuntime) -> Result<(), Fail> {
    let names = two_names(rt.alloc())?;
    let index = TypeIndex::new(rt.alloc(), &names)?;
    for (word, number) in TYPES {
        assert_eq!(rt; type_of(&names, *word), *number);
        assert_eq!(rt; index.type_of(*word), *number);
    }
    Ok(())
}

/// The number of sites, where it is known, and whether a number is that of no site.
const NO_SITES: &[(Option<u64>, u64, bool)] = &[
    (Some(2), 0, true),
    (Some(2), 1, false),
    (Some(2), 2, false),
    (Some(2), 3, true),
    (None, 3, false),
];

#[test]
fn numbers_of_no_site(rt: HostRuntime) {
    for (sites, number, is_none) in NO_SITES {
        assert_eq!(rt; is_no_site(*sites, *number), *is_none);
    }
}

/// The line and the kind of the first fault of the rows of a short text.
fn fault_of(
    alloc: Global,
    sites: Option<u64>,
    text: &[u8],
) -> Result<Option<(u32, u8)>, OutOfMemory> {
    if text.len() > 1000 {
        return Err(OutOfMemory);
    }
    let lines = split(alloc, text)?;
    match read_rows(alloc, text, sites, &lines)? {
        Ok(_) => Ok(None),
        Err(LineFault { line, kind }) => Ok(Some((line, kind))),
    }
}

/// Rows of two sites, and their first fault: its line and its kind.
const FAULTS: &[(&[u8], Option<(u32, u8)>)] = &[
    (b"1 0.0 0.0 t 1 2\n2 1.0 0.0 t 1 1\n", None),
    (b"2 1.0 0.0 t 0\n\n1 0.0 0.0 t 1\n", Some((3, 17))),
    (b"1 0.0 x t 0\n", Some((1, 17))),
    (b"1 0.0 1e999 t 1 3\n", Some((1, 13))),
    (b"1 0.0 0.0 t 0\n1 0.0 0.0 t 1 3\n", Some((2, 24))),
    (b"1 0.0 0.0 t 2 1 3\n", Some((1, 25))),
    (b"1 0.0 0.0 t 2 1 2\n2 0.0 0.0 t 0\n", Some((1, 26))),
    (b"1 0.0 0.0 t 0\n2 0.0 0.0 t 1 1\n", Some((2, 28))),
    // Of two rows for a neighbour the first counts.
    (
        b"1 0.0 0.0 t 1 2\n2 0.0 0.0 t 0\n2 0.0 0.0 t 1 1\n",
        Some((1, 28)),
    ),
    // A neighbour is not one-sided where its row names what is no site, has another form, or is not there.
    (b"1 0.0 0.0 t 1 2\n2 0.0 0.0 t 1 3\n", Some((2, 25))),
    (b"1 0.0 0.0 t 1 2\n2 0.0 x t 0\n", Some((2, 17))),
    (b"1 0.0 0.0 t 1 2\n", None),
];

#[test]
fn faults_of_rows(rt: HostRuntime) -> Result<(), Fail> {
    for (text, fault) in FAULTS {
        assert_eq!(rt; fault_of(rt.alloc(), Some(2), *text)?, *fault);
    }
    Ok(())
}

#[test]
fn too_many_neighbours(rt: HostRuntime) -> Result<(), Fail> {
    let crowded =
        b"1 0 0 t 33 2 3 4 5 6 7 8 9 10 11 12 13 14 15 16 17 18 19 20 21 22 23 24 25 26 27 28 29 30 31 32 33 34\n";
    let fault = fault_of(rt.alloc(), None, crowded)?;
    assert_eq!(rt; fault, Some((1, 27)));
    Ok(())
}

/// The lattice of the rows of a short text of two sites.
fn lattice_of(alloc: Global, text: &[u8]) -> Result<Graph, Fail> {
    if text.len() > 1000 {
        return Err("too long")?;
    }
    let lines = split(alloc, text)?;
    let Ok(rows) = read_rows(alloc, text, Some(2), &lines)? else {
        return Err("a fault of a row")?;
    };
    if rows.len() != 2 {
        return Err("a site without a row")?;
    }
    let names = two_names(alloc)?;
    let index = TypeIndex::new(alloc, &names)?;
    Ok(graph_of(alloc, text, 2, &index, &rows)?)
}

#[test]
fn lattice_of_rows(rt: HostRuntime) -> Result<(), Fail> {
    let graph = lattice_of(rt.alloc(), b"2 1.0 0.0 2 1 1\n1 0.0 0.0 t 2 2 2\n")?;
    assert_eq!(rt; graph.len(), 2);
    let types = [graph.site_type(SiteId(0)), graph.site_type(SiteId(1))];
    assert_eq!(rt; types, [0, 2]);
    assert_eq!(rt; graph.neighbours(SiteId(0)), [SiteId(1)].as_slice());
    Ok(())
}
