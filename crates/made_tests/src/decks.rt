//! What is read from the made decks.

ghost use Rattle.std.specs.Prelude.{◌≡◌, ◌≤◌, IfOk, map};
ghost use Rattle.std.specs.List.{All};
ghost use Rattle.deck_join.specs.Texts.{IsShort, deck_files};
ghost use Rattle.deck_maker.specs.declared.decks.TheConstants.{MAX_DECK};

use deck::Deck;
use deck_join::{Text, load_deck};
use deck_maker::make;
use deck_shape::DeckFault;
use kmc_base::{FileId, MAX_FILE_BYTES, Sequence};
use run_plan::{Plan, Sampling};
use std::alloc::Global;
use std::test::Fail;

/// The text of a file.
fn text_of(alloc: Global, bytes: &[u8]) -> Result<Text, Fail>
    ensures { IfOk result IsShort }
{
    if bytes.len() > MAX_FILE_BYTES {
        return Err("too long")?;
    }
    Ok(Text::Bytes(Sequence::new(bytes.to_vec(alloc)?)))
}

/// The text of each file, with the file.
fn texts_of(alloc: Global, files: &[Vec<u8>; 4]) -> Result<[(FileId, Text); 4], Fail>
    ensures files { IfOk result (λ texts. map (λ text. text.0) texts ≡ deck_files) }
    ensures short { IfOk result (All (λ text. IsShort text.1)) }
{
    Ok([
        (FileId::Simulation, text_of(alloc, &files[0])?),
        (FileId::Lattice, text_of(alloc, &files[1])?),
        (FileId::Energetics, text_of(alloc, &files[2])?),
        (FileId::Mechanism, text_of(alloc, &files[3])?),
    ])
}

/// The deck of a number, as it is read.
fn deck_of(alloc: Global, number: u32) -> Result<Deck, Fail>
    requires { number ≤ MAX_DECK }
{
    let texts = texts_of(alloc, &make(alloc, number)?)?;
    match load_deck(alloc, &texts) {
        Ok(deck) => Ok(deck),
        Err(DeckFault::Fault(_)) => Err("a fault")?,
        Err(DeckFault::OutOfMemory) => Err("out of memory")?,
    }
}

/// What is expected of a deck.
#[derive(Clone, Copy)]
struct Expected {
    seed: u64,
    /// In K.
    kelvin: u32,
    side: u32,
    max_steps: u64,
}

/// A deck is as it is expected. A run ends at 1 s at the latest, which is 10^18 attoseconds.
fn is_as_expected(deck: &Deck, expected: Expected) -> bool {
    let Expected {
        seed,
        kelvin,
        side,
        max_steps,
    } = expected;
    let plan = Plan {
        seed,
        max_steps,
        max_time: Some(1_000_000_000_000_000_000),
        history: Sampling::Off,
        procstat: Sampling::Off,
        specnum: Sampling::Off,
    };
    deck.plan == plan
        && u64::from(deck.chem.temperature) == 1000 * u64::from(kelvin)
        && u64::from(deck.chem.graph.len()) == u64::from(side) * u64::from(side)
        && deck.chem.processes.len() == 5
        && deck.chem.clusters.len() == 4
}

/// Numbers of decks, and the seed, the temperature, the side of the lattice and the greatest number of events of each.
const ROWS: &[(u32, u64, u32, u32, u64)] = &[
    (0, 1000, 500, 10, 200),
    (1, 1001, 500, 100, 5000),
    (98, 1098, 990, 10, 200),
    (99, 1099, 990, 100, 5000),
];

#[test]
fn decks_of_the_table(rt: HostRuntime) -> Result<(), Fail> {
    for (number, seed, kelvin, side, max_steps) in ROWS {
        let deck = deck_of(rt.alloc(), *number)?;
        let expected = Expected {
            seed: *seed,
            kelvin: *kelvin,
            side: *side,
            max_steps: *max_steps,
        };
        assert!(rt; is_as_expected(&deck, expected), "deck {number}");
    }
    Ok(())
}

// Two decks of each temperature.
#[test]
fn every_deck(rt: HostRuntime) -> Result<(), Fail> {
    for pair in 0..50u32 {
        let kelvin = 500 + 10 * pair;
        let small = Expected {
            seed: 1000 + 2 * u64::from(pair),
            kelvin,
            side: 10,
            max_steps: 200,
        };
        let large = Expected {
            seed: 1001 + 2 * u64::from(pair),
            kelvin,
            side: 100,
            max_steps: 5000,
        };
        assert!(rt;
            is_as_expected(&deck_of(rt.alloc(), 2 * pair)?, small),
            "pair {pair}"
        );
        assert!(rt;
            is_as_expected(&deck_of(rt.alloc(), 2 * pair + 1)?, large),
            "pair {pair}"
        );
    }
    Ok(())
}
