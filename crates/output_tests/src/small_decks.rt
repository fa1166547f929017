//! The decks of the tests, and what is on the lattice of one of them.
ghost use Rattle.std.specs.Prelude.{◌≡◌, ◌∷◌, [], All, IfOk, length, slice_index};
ghost use Rattle.deck.specs.Soundness.{HasSoundGas, IsSound, dentates_in};
ghost use Rattle.lattice_core.specs.Config.{IsWellFormed};
ghost use Rattle.lattice_core.specs.Lattice.{site_count};
ghost use Rattle.pattern_types.specs.Parts.{vertex_count};
ghost use Rattle.rate_rules.specs.Soundness.{IsSoundChemistry, IsSoundProcess};

use deck::Deck;
use kmc_base::{Sequence, SiteId, SpeciesId};
use lattice_core::{Config, Graph};
use pattern_types::Wanted;
use rate_rules::{Chemistry, Process};
use run_plan::{Plan, Sampling};
use species_book::SpeciesBook;
use std::alloc::{AllocError, Global};
use std::test::Fail;
use test_parts::{holds, whole_side};

/// The dentates of the two surface species, of which the second takes two sites.
const DENTATES: [u8; 2] = [1, 2];

/// Nothing ends a run, and nothing is sampled.
const PLAN: Plan = Plan {
    seed: 1,
    max_steps: 0,
    max_time: None,
    history: Sampling::Off,
    procstat: Sampling::Off,
    specnum: Sampling::Off,
};

/// Two gas species, and two surface species.
fn book(alloc: Global) -> Result<SpeciesBook, AllocError>
    ensures dentates { IfOk result (λ book. book.dentates ≡ 1 ∷ 2 ∷ []) }
    ensures gas { IfOk result (λ book. length book.gas ≡ 2) }
{
    let gas = vec![in alloc;
        Vec::from_slice(alloc, b"CO")?,
        Vec::from_slice(alloc, b"O2")?,
    ]?;
    let surface = vec![in alloc;
        Vec::from_slice(alloc, b"CO*")?,
        Vec::from_slice(alloc, b"O2**")?,
    ]?;
    Ok(SpeciesBook::new(gas, surface, vec![in alloc; 1, 2]?))
}

/// Five sites in a row.
fn row(alloc: Global) -> Result<Graph, Fail>
    ensures { IfOk result (λ graph. site_count graph ≡ 5) }
{
    let neighbours = vec![in alloc;
        vec![in alloc; SiteId(1)]?,
        vec![in alloc; SiteId(0), SiteId(2)]?,
        vec![in alloc; SiteId(1), SiteId(3)]?,
        vec![in alloc; SiteId(2), SiteId(4)]?,
        vec![in alloc; SiteId(3)]?,
    ]?;
    let types = vec![in alloc; 0u16; 5]?;
    Ok(Graph::new(types, neighbours).ok().ok_or("a fault")?)
}

/// One direction of the adsorption of species 0.
fn adsorption(alloc: Global, forward: bool, dentates: &[u8]) -> Result<Process, Fail>
    ensures sound { IfOk result (IsSoundProcess (λ s. slice_index dentates.now s)) }
    ensures gas { IfOk result (HasSoundGas 2) }
    ensures one_site { IfOk result (λ process. vertex_count process.before ≡ 1) }
{
    let adsorbed = holds(1, 0, 1);
    let (before, after, change) = if forward {
        (Wanted::Vacant, adsorbed, -1)
    } else {
        (adsorbed, Wanted::Vacant, 1)
    };
    Ok(Process {
        before: whole_side(&[], &[None], &[before], dentates).ok_or("no side")?,
        after: whole_side(&[], &[None], &[after], dentates).ok_or("no side")?,
        forward,
        gas: 0,
        gas_change: Sequence::new(vec![in alloc; (0, change)]?),
        factor: None,
        activation: 0,
        proximity: 0,
    })
}

/// A chemistry at 300.005 K on five sites: the two directions of an adsorption, and no clusters.
fn chemistry(alloc: Global, dentates: &[u8]) -> Result<Chemistry, Fail>
    ensures sound { IfOk result (IsSoundChemistry (λ s. slice_index dentates.now s)) }
    ensures gas { IfOk result (λ chem. All (HasSoundGas 2) chem.processes) }
    ensures two { IfOk result (λ chem. length chem.processes ≡ 2) }
    ensures clusters { IfOk result (λ chem. chem.clusters ≡ []) }
    ensures sites { IfOk result (λ chem. site_count chem.graph ≡ 5) }
{
    let graph = row(alloc)?;
    prove!(graph.len() == 5);
    let forward = adsorption(alloc, true, dentates)?;
    let reverse = adsorption(alloc, false, dentates)?;
    Ok(Chemistry {
        graph,
        processes: Sequence::new(vec![in alloc; forward, reverse]?),
        clusters: Sequence::new(Vec::new(alloc)),
        temperature: 300_005,
        radius: 0,
    })
}

/// The names of the two processes.
fn process_names(alloc: Global) -> Result<Vec<Sequence<u8>>, AllocError>
    ensures { IfOk result (λ names. length names.items ≡ 2) }
{
    let forward = Sequence::new(Vec::from_slice(alloc, b"CO_adsorption/fwd")?);
    let reverse = Sequence::new(Vec::from_slice(alloc, b"CO_adsorption/rev")?);
    Ok(vec![in alloc; forward, reverse]?)
}

/// A deck of two gas species, two surface species, five sites and two processes.
pub(crate) fn small_deck(alloc: Global) -> Result<Deck, Fail>
    ensures sound { IfOk result IsSound }
    ensures dentates { IfOk result (λ deck. deck.book.dentates ≡ 1 ∷ 2 ∷ []) }
    ensures gas { IfOk result (λ deck. length deck.book.gas ≡ 2) }
    ensures sites { IfOk result (λ deck. site_count deck.chem.graph ≡ 5) }
{
    let book = book(alloc)?;
    let chem = chemistry(alloc, &DENTATES)?;
    let names = process_names(alloc)?;
    Ok(Deck {
        chem,
        plan: PLAN,
        book,
        process_names: Sequence::new(names),
        opening: Sequence::new(Vec::new(alloc)),
    })
}

/// Five sites: the first is vacant, an adsorbate of species 1 has its dentate 1 on the third and its dentate 2 on the
/// second, and each of the last two has an adsorbate of species 0.
pub(crate) fn small_config(alloc: Global, book: &SpeciesBook) -> Result<Config, Fail>
    requires { book.now.dentates ≡ 1 ∷ 2 ∷ [] }
    ensures long { IfOk result (λ config. length config ≡ 5) }
    ensures well_formed { IfOk result (IsWellFormed (dentates_in book.now)) }
{
    let mut config = Config::vacant(alloc, 5)?;
    config.set(SpeciesId(1), &[SiteId(2), SiteId(1)]);
    config.set(SpeciesId(0), &[SiteId(3)]);
    config.set(SpeciesId(0), &[SiteId(4)]);
    Ok(config)
}

/// A deck of one site, without species and processes.
pub(crate) fn empty_deck(alloc: Global) -> Result<Deck, Fail>
    ensures sound { IfOk result IsSound }
    ensures gas { IfOk result (λ deck. deck.book.gas ≡ []) }
    ensures sites { IfOk result (λ deck. site_count deck.chem.graph ≡ 1) }
{
    let graph = Graph::new(vec![in alloc; 0u16]?, vec![in alloc; Vec::new(alloc)]?)
        .ok()
        .ok_or("a fault")?;
    prove!(graph.len() == 1);
    let chem = Chemistry {
        graph,
        processes: Sequence::new(Vec::new(alloc)),
        clusters: Sequence::new(Vec::new(alloc)),
        temperature: 300_005,
        radius: 0,
    };
    let book = SpeciesBook::new(Vec::new(alloc), Vec::new(alloc), Vec::new(alloc));
    Ok(Deck {
        chem,
        plan: PLAN,
        book,
        process_names: Sequence::new(Vec::new(alloc)),
        opening: Sequence::new(Vec::new(alloc)),
    })
}
