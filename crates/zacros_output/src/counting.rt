ghost use Rattle.std.specs.Prelude.{◌≡◌, ◌==◌, ◌+◌, ◌*◌, ◌≤◌, ◌<◌, ◌^◌, ℕ, IfOk, count_by, if◌then◌else◌, length, map, slice_index, vec_len};
ghost use Rattle.std.specs.List.{range_with_len};
ghost use Rattle.deck.specs.Soundness.{IsSound, dentates_in};
ghost use Rattle.lattice_core.specs.Config.{IsWellFormed};
ghost use Rattle.zacros_output.specs.Adsorbates.{adsorbates};

use deck::Deck;
use kmc_base::OutOfMemory;
use lattice_core::{Config, Steps};
use std::alloc::Global;
use std::marker::Brand;
use std::sync::ledger::{Blank, Ledger};

/// Counts one more adsorbate of a species, if a site has the class of its dentate 1.
fn count_home(counts: &mut [u64], class: u32)
    requires { (place : ℕ) → place < length counts.old → slice_index counts.old place < 2 ^ 63 }
    ensures { (place : ℕ) → place < length counts.old → slice_index counts.new place
        ≡ slice_index counts.old place + (if class == place * 8 + 1 then 1 else 0) }
{
    let place = (class / 8) as usize;
    if class % 8 == 1 && place < counts.len() {
        counts[place] += 1;
    }
}

/// For each of so many species, how many of some sites have the class of its dentate 1, in one pass over the sites.
fn count_homes(alloc: Global, classes: &[u32], species: usize) -> Result<Vec<u64>, OutOfMemory>
    ensures { IfOk result (λ counts. counts.items
        ≡ map (λ place. count_by (λ class. class == place * 8 + 1) classes.now) (range_with_len 0 species)) }
{
    let mut counts = vec![in alloc; 0u64; species]?;
    for class in classes {
        count_home(&mut counts, *class);
    }
    Ok(counts)
}

/// The same of a configuration, whose sites are all read once.
fn adsorbates_on<L: Ledger>(
    alloc: Global,
    deck: &Deck,
    config: &Config,
    blank: Blank,
) -> Result<Vec<u64>, OutOfMemory>
    requires name { blank.name ≡ L.name }
    requires parts { blank.parts ≡ L.parts }
    requires has_a_part { 0 < L.parts }
    requires deck { IsSound deck.now }
    requires well_formed { IsWellFormed (dentates_in deck.now.book) config.now }
    ensures { IfOk result (λ counts. counts.items ≡ adsorbates deck.now.book config.now) }
{
    // This count of reads is not used.
    let mut steps = Steps::<L>::new(blank);
    count_homes(
        alloc,
        config.classes(&mut steps),
        deck.book.surface_names().len(),
    )
}

/// The number of adsorbates of each surface species, in one pass over the lattice.
pub fn adsorbates(alloc: Global, deck: &Deck, config: &Config) -> Result<Vec<u64>, OutOfMemory>
    requires deck { IsSound deck.now }
    requires well_formed { IsWellFormed (dentates_in deck.now.book) config.now }
    ensures { IfOk result (λ counts. counts.items ≡ adsorbates deck.now.book config.now) }
{
    adsorbates_on::<Brand>(alloc, deck, config, Blank::new(1))
}
