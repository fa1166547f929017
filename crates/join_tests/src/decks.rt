//! The deck of files without faults.

use crate::first_faults::{LATTICE, MECHANISM, SIMULATION};
use deck::Deck;
use deck_join::{DeckRefusal, read_deck};
use kmc_base::{FileId, MemoryFolder, SpeciesId};
use pattern_types::{Pattern, Wanted};
use std::alloc::Global;
use std::test::Fail;

/// An energetics file of a pair of A* on sites of the types `top` and 2, of 0.3 eV over a multiplicity of 2, and of any
/// state beside a vacant site.
const PAIRS: &str =
    "energetics\ncluster one\nsites 2\nneighboring 1-2\nlattice_state\n1 A* 1\n2 B** 2\nsite_types top 2\ngraph_multiplicity 2\ncluster_eng 0.3\nend_cluster\ncluster two\nsites 2\nneighboring 2-1\nlattice_state\n1 * 1\n& & &\ncluster_eng -0.1\nend_cluster\nend_energetics\n";

/// A folder of these files.
fn folder_of(alloc: Global, energetics: &str) -> Result<MemoryFolder, Fail> {
    let mut files = Vec::new(alloc);
    files.push((
        FileId::Simulation,
        Vec::from_slice(alloc, SIMULATION.as_bytes())?,
    ))?;
    files.push((FileId::Lattice, Vec::from_slice(alloc, LATTICE.as_bytes())?))?;
    files.push((
        FileId::Energetics,
        Vec::from_slice(alloc, energetics.as_bytes())?,
    ))?;
    files.push((
        FileId::Mechanism,
        Vec::from_slice(alloc, MECHANISM.as_bytes())?,
    ))?;
    let folder = MemoryFolder::new(files, Vec::new(alloc), Vec::new(alloc), Vec::new(alloc));
    Ok(folder.with_room(1000).map_err(|(_, error)| error)?)
}

/// The deck of a folder.
fn deck_of(alloc: Global, folder: &mut MemoryFolder) -> Result<Deck, Fail> {
    match read_deck(alloc, folder) {
        Ok(deck) => Ok(deck),
        Err(DeckRefusal::Load(_)) => Err("not loaded")?,
        Err(DeckRefusal::Fault(_)) => Err("a fault")?,
        Err(DeckRefusal::OutOfMemory) => Err("out of memory")?,
    }
}

#[test]
fn clusters_and_processes(rt: HostRuntime) -> Result<(), Fail> {
    let deck = deck_of(rt.alloc(), &mut folder_of(rt.alloc(), PAIRS)?)?;
    let clusters = deck.chem.clusters.as_slice();
    let processes = deck.chem.processes.as_slice();
    assert_eq!(rt; clusters.len(), 2);
    assert_eq!(rt; processes.len(), 1);
    assert_eq!(rt;
        [clusters[0].share, clusters[1].share],
        [150_000_000, -100_000_000]
    );
    assert_eq!(rt; deck.chem.temperature, 500_000);
    assert_eq!(rt; deck.chem.radius, 1);
    assert_eq!(rt; deck.process_names.len(), 1);
    assert!(rt; deck.process_names.as_slice()[0].as_slice() == b"one".as_slice());
    assert!(rt; processes[0].forward);
    assert_eq!(rt; [processes[0].gas, processes[0].activation], [0, 0]);
    assert_eq!(rt; processes[0].proximity, 500_000_000);
    assert!(rt; processes[0].gas_change.is_empty());
    assert!(rt; deck.opening.is_empty());
    Ok(())
}

/// A vertex of a pattern wants this state, on a site of this type.
pub(crate) fn wants(pattern: &Pattern, v: u8, wanted: Wanted, site_type: Option<u16>) -> bool {
    1 <= v && v <= pattern.len() && pattern.wanted(v) == wanted && pattern.site_type(v) == site_type
}

#[test]
fn patterns_of_clusters(rt: HostRuntime) -> Result<(), Fail> {
    let deck = deck_of(rt.alloc(), &mut folder_of(rt.alloc(), PAIRS)?)?;
    let clusters = deck.chem.clusters.as_slice();
    assert_eq!(rt; clusters.len(), 2);
    let (pair, other) = (&clusters[0].pattern, &clusters[1].pattern);
    let first = Wanted::Holds {
        entity: 1,
        species: SpeciesId(0),
        dentate: 1,
    };
    let second = Wanted::Holds {
        entity: 2,
        species: SpeciesId(1),
        dentate: 2,
    };
    assert!(rt; wants(pair, 1, first, Some(1)));
    assert!(rt; wants(pair, 2, second, Some(2)));
    assert!(rt; wants(other, 1, Wanted::Vacant, None));
    assert!(rt; wants(other, 2, Wanted::Any, None));
    Ok(())
}
