//! Looking up species by name.

use kmc_base::SpeciesId;
use species_book::SpeciesBook;
use std::alloc::{AllocError, Global};
use std::test::Fail;

/// A book of a gas species and three surface species, of which the last has two dentates.
fn book(alloc: Global) -> Result<SpeciesBook, AllocError> {
    let gas = vec![in alloc; Vec::from_slice(alloc, b"G")?]?;
    let first = Vec::from_slice(alloc, b"A*")?;
    let second = Vec::from_slice(alloc, b"B*")?;
    let third = Vec::from_slice(alloc, b"C**")?;
    let surface = vec![in alloc; first, second, third]?;
    Ok(SpeciesBook::new(gas, surface, vec![in alloc; 1, 1, 2]?))
}

#[test]
fn looks_gas_species_up(rt: HostRuntime) -> Result<(), Fail> {
    let book = book(rt.alloc())?;
    assert_eq!(rt; book.gas(b"G"), Some(0));
    assert_eq!(rt; book.gas(b"A*"), None);
    assert_eq!(rt; book.gas_names().len(), 1);
    Ok(())
}

/// Names, and the number of the surface species.
const SURFACE: &[(&[u8], Option<u16>)] = &[
    (b"A*", Some(0)),
    (b"C**", Some(2)),
    (b"C*", None),
    (b"G", None),
];

#[test]
fn looks_surface_species_up(rt: HostRuntime) -> Result<(), Fail> {
    let book = book(rt.alloc())?;
    for (name, number) in SURFACE {
        assert_eq!(rt; book.surface(*name), number.map(SpeciesId));
    }
    Ok(())
}

/// How many dentates the surface species of a name has.
fn dentates_of(book: &SpeciesBook, name: &[u8]) -> Option<u8> {
    let species = book.surface(name)?;
    Some(book.dentates(species))
}

#[test]
fn parts_of_surface_species(rt: HostRuntime) -> Result<(), Fail> {
    let book = book(rt.alloc())?;
    assert_eq!(rt; dentates_of(&book, b"C**"), Some(2));
    let last = book.surface_names().last().map(|name| name.as_slice());
    assert_eq!(rt; last, Some(b"C**".as_slice()));
    Ok(())
}
