use crate::lattice_files::{fault_of, read_text};
use kmc_base::SiteId;
use std::alloc::Global;
use std::test::Fail;

/// A cell of one site that is repeated, with so many equal rows.
fn equal_rows(alloc: Global, nx: u32, ny: u32, count: u32) -> Result<String, Fail> {
    let mut text = format!(in alloc;
        "lattice periodic_cell\nrepeat_cell {nx} {ny}\nn_cell_sites 1\nn_site_types 1\nsite_type_names t\nsite_types 1\nneighboring_structure\n"
    )?;
    for _ in 0..count {
        text.push_str("1-1 north\n")?;
    }
    text.push_str("end_neighboring_structure\nend_lattice\n")?;
    Ok(text)
}

/// A cell of so many sites and one more, the first of which is joined to each other one, by a row for each direction.
fn star(alloc: Global, rays: u32) -> Result<String, Fail> {
    let count = u64::from(rays) + 1;
    let mut text = format!(in alloc;
        "lattice periodic_cell\nrepeat_cell 1 1\nn_cell_sites {count}\nn_site_types 1\nsite_type_names t\nsite_types"
    )?;
    for _ in 0..count {
        text.push_str(" 1")?;
    }
    text.push_str("\nneighboring_structure\n")?;
    for ray in 2..=count {
        let rows = format!(in alloc; "1-{ray} self\n{ray}-1 self\n")?;
        text.push_str(&rows)?;
    }
    text.push_str("end_neighboring_structure\nend_lattice\n")?;
    Ok(text)
}

#[test]
fn equal_rows_count_once(rt: HostRuntime) -> Result<(), Fail> {
    let alloc = rt.alloc();
    let text = equal_rows(alloc, 256, 256, 10_000)?;
    let part = read_text(alloc, text.as_bytes())?;
    assert_eq!(rt; part.graph.len(), 65_536);
    assert_eq!(rt;
        part.graph.neighbours(SiteId(0)),
        [SiteId(1), SiteId(255)].as_slice()
    );
    Ok(())
}

/// Numbers of neighbours of a site, and the line and the kind of the fault.
const CROWDED: &[(u32, Option<(u32, u8)>)] = &[(32, None), (33, Some((7, 27)))];

#[test]
fn crowded_sites(rt: HostRuntime) -> Result<(), Fail> {
    let alloc = rt.alloc();
    for (rays, fault) in CROWDED {
        let text = star(alloc, *rays)?;
        assert_eq!(rt; fault_of(alloc, text.as_bytes())?, *fault, "{rays}");
    }
    Ok(())
}
