//! The species of a deck.

ghost use Rattle.std.specs.Prelude.{◌≡◌, IfOk, map};
ghost use Rattle.deck_shape.specs.Names.{name_at};
ghost use Rattle.sim_deck.specs.Soundness.{IsSoundPart};
ghost use Rattle.sim_deck.specs.Values.{values_at};
ghost use Rattle.species_book.specs.Book.{names_of as names_in};
ghost use Rattle.deck_join.specs.Species.{book_of, words_of};

use deck_shape::Name;
use kmc_base::OutOfMemory;
use sim_deck::SimPart;
use species_book::SpeciesBook;
use std::alloc::Global;

/// Names by themselves, outside of the text.
fn words_of(alloc: Global, text: &[u8], names: &[Name]) -> Result<Vec<Vec<u8>>, OutOfMemory>
    ensures { IfOk result (λ words. names_in words.items ≡ words_of (map (name_at text.now) names.now)) }
{
    let mut words = Vec::new(alloc);
    for name in names {
        words.push(Vec::from_slice(alloc, name.span.bytes(text))?)?;
    }
    Ok(words)
}

/// The species of a simulation file.
pub(crate) fn book_of(
    alloc: Global,
    text: &[u8],
    part: &SimPart,
) -> Result<SpeciesBook, OutOfMemory>
    requires { IsSoundPart (values_at text.now part.now) }
    ensures { IfOk result (λ book. book ≡ book_of (values_at text.now part.now)) }
{
    let gas = words_of(alloc, text, part.gas.as_slice())?;
    let surface = words_of(alloc, text, part.surface.as_slice())?;
    let dentates = part.dentates.as_slice().to_vec(alloc)?;
    Ok(SpeciesBook::new(gas, surface, dentates))
}
