ghost use Rattle.std.specs.Prelude.{◌≡◌, ◌≤◌, ◌<◌, ◌↔◌, ℕ, IsNone, IsTrue, Some, length, slice_get, slice_index};
ghost use Rattle.std.specs.Option.{option_map};
ghost use Rattle.species_book.specs.Book.{are_distinct, names_of, place_of, species};

use kmc_base::{MAX_SPECIES, SpeciesId};
use std::marker::Model;

/// The names of a deck's gas species and surface species, and the dentates of the latter.
#[derive(Debug, Drop)]
pub struct SpeciesBook {
    gas: Vec<Vec<u8>>,
    surface: Vec<Vec<u8>>,
    dentates: Vec<u8>,
}

impl Model for SpeciesBook {
    ghost use Rattle.species_book.specs.Book.{Book, IsBook, names_of};

    ghost Value = { Book };

    ghost view = { λ b. record { gas = names_of b.gas.items; surface = names_of b.surface.items; dentates = b.dentates.items } };

    ghost invariant = { λ b. IsBook (record { gas = names_of b.gas.items; surface = names_of b.surface.items; dentates = b.dentates.items }) };
}

impl SpeciesBook {
    /// A book of these names, each in the order of the deck; `dentates` has how many dentates each surface
    /// species has. No list has a name twice, or more than `MAX_SPECIES` names.
    pub fn new(gas: Vec<Vec<u8>>, surface: Vec<Vec<u8>>, dentates: Vec<u8>) -> SpeciesBook
        requires gas_differ { IsTrue (are_distinct (names_of gas.items)) }
        requires surface_differ { IsTrue (are_distinct (names_of surface.items)) }
        requires gas_few { length gas.items ≤ MAX_SPECIES }
        requires surface_few { length surface.items ≤ MAX_SPECIES }
        requires dentates_match { length dentates.items ≡ length surface.items }
        ensures gas { result.gas ≡ names_of gas.items }
        ensures surface { result.surface ≡ names_of surface.items }
        ensures dentates { result.dentates ≡ dentates.items }
    {
        SpeciesBook {
            gas,
            surface,
            dentates,
        }
    }

    /// The place of a gas species, from 0, or None where no gas species has this name.
    pub fn gas(&self, name: &[u8]) -> Option<u8>
        ensures place { result ≡ place_of self.now.gas name.now }
        ensures found { (i : ℕ) → (result ≡ Some i) ↔ (slice_get self.now.gas i ≡ Some name.now) }
        ensures none { IsNone result ↔ ((i : ℕ) → slice_get self.now.gas i ≡ Some name.now → ⊥) }
    {
        find(&self.gas, name)
    }

    /// The surface species of a name, or None where no surface species has it.
    pub fn surface(&self, name: &[u8]) -> Option<SpeciesId>
        ensures place { result ≡ option_map species (place_of self.now.surface name.now) }
        ensures found { (i : ℕ) → (result ≡ Some (species i)) ↔ (slice_get self.now.surface i ≡ Some name.now) }
        ensures none { IsNone result ↔ ((i : ℕ) → slice_get self.now.surface i ≡ Some name.now → ⊥) }
    {
        find(&self.surface, name).map(|place| SpeciesId(u16::from(place)))
    }

    /// How many dentates a surface species of the book has.
    pub fn dentates(&self, id: SpeciesId) -> u8
        requires { id.0 < length self.now.surface }
        ensures { result ≡ slice_index self.now.dentates id.0 }
    {
        self.dentates[id.0 as usize]
    }

    /// The names of the gas species, in the order of their places.
    pub fn gas_names(&self) -> &[Vec<u8>]
        ensures names { names_of result.now ≡ self.now.gas }
        ensures few { length result.now ≤ MAX_SPECIES }
    {
        self.gas.as_slice()
    }

    /// The names of the surface species, in order of their ids.
    pub fn surface_names(&self) -> &[Vec<u8>]
        ensures names { names_of result.now ≡ self.now.surface }
        ensures few { length result.now ≤ MAX_SPECIES }
        ensures dentates_match { length self.now.dentates ≡ length self.now.surface }
    {
        self.surface.as_slice()
    }
}

/// The place of a name in a list whose names differ.
fn find(names: &[Vec<u8>], name: &[u8]) -> Option<u8>
    requires differ { IsTrue (are_distinct (names_of names.now)) }
    requires few { length names.now ≤ MAX_SPECIES }
    ensures place { result ≡ place_of (names_of names.now) name.now }
    ensures found { (i : ℕ) → (result ≡ Some i) ↔ (slice_get (names_of names.now) i ≡ Some name.now) }
    ensures none { IsNone result ↔ ((i : ℕ) → slice_get (names_of names.now) i ≡ Some name.now → ⊥) }
{
    place_of(names, name)
}

/// The first place of a name in a list.
fn place_of(names: &[Vec<u8>], name: &[u8]) -> Option<u8>
    requires { length names.now ≤ MAX_SPECIES }
    ensures { result ≡ place_of (names_of names.now) name.now }
{
    for (place, candidate) in names.iter().enumerate() {
        if candidate.as_slice() == name {
            return Some(place as u8);
        }
    }
    None
}
