//! The heads and the samples of the three outputs.
ghost use Rattle.std.specs.Prelude.{◌≡◌, ◌<◌, ◌^◌, length};
ghost use Rattle.deck.specs.Soundness.{IsSound, dentates_in};
ghost use Rattle.lattice_core.specs.Config.{IsWellFormed};
ghost use Rattle.lattice_core.specs.Lattice.{site_count};

use crate::samples::{EXTREME, FIRST, LAST_TIME, LATE, LATER, Sample};
use crate::small_decks::{empty_deck, small_config, small_deck};
use deck::Deck;
use kmc_base::{OutId, OutOfMemory};
use lattice_core::Config;
use std::alloc::Global;
use std::test::Fail;
use zacros_output::{
    View, history_head, history_piece, procstat_head, procstat_piece, specnum_head, specnum_piece,
};

/// Adds the head of an output.
fn push_head(deck: &Deck, out: OutId, text: &mut Vec<u8>) -> Result<(), OutOfMemory> {
    match out {
        OutId::History => history_head(deck, text),
        OutId::Procstat => procstat_head(deck, text),
        OutId::Specnum => specnum_head(deck, text),
    }
}

/// Whether the deck is the one without species; an output, what is in it, and what is in it once the head is added.
const HEADS: &[(bool, OutId, &str, &str)] = &[
    (
        false,
        OutId::History,
        "",
        "history 1\nsites 5\nsurface CO* O2**\ngas CO O2\n",
    ),
    (
        false,
        OutId::Procstat,
        "",
        "procstat 1\nprocess 1 CO_adsorption/fwd\nprocess 2 CO_adsorption/rev\n",
    ),
    (
        false,
        OutId::Specnum,
        "there\n",
        "there\nspecnum 1\ncolumns sample event time temperature energy CO* O2** CO O2\n",
    ),
    (
        true,
        OutId::History,
        "there",
        "therehistory 1\nsites 1\nsurface\ngas\n",
    ),
    (true, OutId::Procstat, "there\n", "there\nprocstat 1\n"),
    (
        true,
        OutId::Specnum,
        "",
        "specnum 1\ncolumns sample event time temperature energy\n",
    ),
];

#[test]
fn heads(rt: HostRuntime) -> Result<(), Fail> {
    for (is_empty, out, before, after) in HEADS {
        let deck = if *is_empty {
            empty_deck(rt.alloc())?
        } else {
            small_deck(rt.alloc())?
        };
        let mut text = Vec::from_slice(rt.alloc(), before.as_bytes())?;
        push_head(&deck, *out, &mut text)?;
        assert_eq!(rt; text.as_slice(), after.as_bytes());
    }
    Ok(())
}

/// Adds a sample of an output, of this number and time.
fn push_piece(
    deck: &Deck,
    view: &View<'_>,
    out: OutId,
    number: u64,
    time: u128,
    text: &mut Vec<u8>,
) -> Result<(), OutOfMemory>
    requires deck { IsSound deck.now }
    requires sites { length view.now.config.now ≡ site_count deck.now.chem.graph }
    requires well_formed { IsWellFormed (dentates_in deck.now.book) view.now.config.now }
    requires time { time < 2 ^ 127 }
{
    match out {
        OutId::History => history_piece(deck, view, number, time, text),
        OutId::Procstat => procstat_piece(deck, view, number, time, text),
        OutId::Specnum => specnum_piece(deck, view, number, time, text),
    }
}

/// A text, and a sample of the small deck after it.
fn with_piece(alloc: Global, out: OutId, before: &str, sample: &Sample) -> Result<Vec<u8>, Fail> {
    if sample.time > LAST_TIME {
        return Err("too late")?;
    }
    let deck = small_deck(alloc)?;
    let config = small_config(alloc, &deck.book)?;
    let view = View {
        event: sample.event,
        energy: sample.energy,
        config: &config,
        gas: &sample.gas,
        counts: &sample.counts,
    };
    let mut text = Vec::from_slice(alloc, before.as_bytes())?;
    push_piece(&deck, &view, out, sample.number, sample.time, &mut text)?;
    Ok(text)
}

/// An output and what is in it, a sample, and what is in the output once the sample is added.
const PIECES: &[(OutId, &str, Sample, &str)] = &[
    (
        OutId::History,
        "",
        FIRST,
        "configuration 0 event 0 time 0.000000000000000000 energy 0.000000000\n2 O2** 2 3\n3 O2** 1 3\n4 CO* 1 4\n5 CO* 1 5\ngas_counts 0 0\n",
    ),
    (
        OutId::History,
        "",
        LATER,
        "configuration 12 event 345 time 0.000000000000000001 energy -1.300000000\n2 O2** 2 3\n3 O2** 1 3\n4 CO* 1 4\n5 CO* 1 5\ngas_counts -12 7\n",
    ),
    (
        OutId::History,
        "there\n",
        LATE,
        "there\nconfiguration 9999999 event 1099511627775 time 1000000000000.000000000000000001 energy 0.000000001\n2 O2** 2 3\n3 O2** 1 3\n4 CO* 1 4\n5 CO* 1 5\ngas_counts 3 -1\n",
    ),
    (
        OutId::History,
        "",
        EXTREME,
        "configuration 18446744073709551615 event 18446744073709551615 time 170141183460469231731.687303715884105727 energy -170141183460469231731687303715.884105728\n2 O2** 2 3\n3 O2** 1 3\n4 CO* 1 4\n5 CO* 1 5\ngas_counts -9223372036854775808 9223372036854775807\n",
    ),
    (
        OutId::Procstat,
        "",
        FIRST,
        "sample 0 event 0 time 0.000000000000000000\ncounts 0 0\n",
    ),
    (
        OutId::Procstat,
        "there\n",
        LATER,
        "there\nsample 12 event 345 time 0.000000000000000001\ncounts 20 8\n",
    ),
    (
        OutId::Procstat,
        "",
        LATE,
        "sample 9999999 event 1099511627775 time 1000000000000.000000000000000001\ncounts 1099511627775 0\n",
    ),
    (
        OutId::Procstat,
        "",
        EXTREME,
        "sample 18446744073709551615 event 18446744073709551615 time 170141183460469231731.687303715884105727\ncounts 0 18446744073709551615\n",
    ),
    (
        OutId::Specnum,
        "",
        FIRST,
        "0 0 0.000000000000000000 300.005 0.000000000 2 1 0 0\n",
    ),
    (
        OutId::Specnum,
        "there\n",
        LATER,
        "there\n12 345 0.000000000000000001 300.005 -1.300000000 2 1 -12 7\n",
    ),
    (
        OutId::Specnum,
        "",
        LATE,
        "9999999 1099511627775 1000000000000.000000000000000001 300.005 0.000000001 2 1 3 -1\n",
    ),
    (
        OutId::Specnum,
        "",
        EXTREME,
        "18446744073709551615 18446744073709551615 170141183460469231731.687303715884105727 300.005 -170141183460469231731687303715.884105728 2 1 -9223372036854775808 9223372036854775807\n",
    ),
];

#[test]
fn pieces(rt: HostRuntime) -> Result<(), Fail> {
    for (out, before, sample, after) in PIECES {
        let text = with_piece(rt.alloc(), *out, *before, sample)?;
        assert_eq!(rt; text.as_slice(), after.as_bytes());
    }
    Ok(())
}

/// A sample of the deck without species, on a vacant lattice at the start.
fn empty_piece(alloc: Global, out: OutId) -> Result<Vec<u8>, Fail> {
    let deck = empty_deck(alloc)?;
    let config = Config::vacant(alloc, 1)?;
    let view = View {
        event: 0,
        energy: 0,
        config: &config,
        gas: &[],
        counts: &[],
    };
    let mut text = Vec::new(alloc);
    push_piece(&deck, &view, out, 0, 0, &mut text)?;
    Ok(text)
}

const EMPTY_PIECES: &[(OutId, &str)] = &[
    (
        OutId::History,
        "configuration 0 event 0 time 0.000000000000000000 energy 0.000000000\ngas_counts\n",
    ),
    (
        OutId::Procstat,
        "sample 0 event 0 time 0.000000000000000000\ncounts\n",
    ),
    (
        OutId::Specnum,
        "0 0 0.000000000000000000 300.005 0.000000000\n",
    ),
];

// Where a list is empty, its line ends after the word before it.
#[test]
fn pieces_of_empty_lists(rt: HostRuntime) -> Result<(), Fail> {
    for (out, expected) in EMPTY_PIECES {
        let text = empty_piece(rt.alloc(), *out)?;
        assert_eq!(rt; text.as_slice(), expected.as_bytes());
    }
    Ok(())
}
