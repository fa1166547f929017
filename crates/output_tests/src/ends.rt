//! The texts of the end of a run, and the numbers of adsorbates.

use crate::samples::{EXTREME, FIRST, LAST_TIME, LATE, LATER, Sample};
use crate::small_decks::{empty_deck, small_config, small_deck};
use kmc_report::Stop;
use lattice_core::Config;
use std::alloc::Global;
use std::test::Fail;
use zacros_output::{View, adsorbates, done_line, summary_text};

/// A text, and the line of the end of a run after it.
fn with_done(
    alloc: Global,
    before: &str,
    events: u64,
    time: u128,
    stop: Stop,
) -> Result<Vec<u8>, Fail> {
    if time > LAST_TIME {
        return Err("too late")?;
    }
    let mut text = Vec::from_slice(alloc, before.as_bytes())?;
    done_line(events, time, stop, &mut text)?;
    Ok(text)
}

/// What is there, the number of events, the time of the last one, why the run has ended, and what is there once the line is
/// added.
const DONE: &[(&str, u64, u128, Stop, &str)] = &[
    (
        "",
        0,
        0,
        Stop::Still,
        "done events 0 time 0.000000000000000000 stop still\n",
    ),
    (
        "there\n",
        9_999_999,
        1,
        Stop::Samples,
        "there\ndone events 9999999 time 0.000000000000000001 stop samples\n",
    ),
    (
        "",
        1_099_511_627_775,
        1_000_000_000_000_000_000_000_000_000_000,
        Stop::Steps,
        "done events 1099511627775 time 1000000000000.000000000000000000 stop steps\n",
    ),
    (
        "there",
        u64::MAX,
        LAST_TIME,
        Stop::Horizon,
        "theredone events 18446744073709551615 time 170141183460469231731.687303715884105727 stop horizon\n",
    ),
];

#[test]
fn done_lines(rt: HostRuntime) -> Result<(), Fail> {
    for (before, events, time, stop, after) in DONE {
        let text = with_done(rt.alloc(), *before, *events, *time, *stop)?;
        assert_eq!(rt; text.as_slice(), after.as_bytes());
    }
    Ok(())
}

/// A text, and the summary of a run of the small deck after it.
fn with_summary(alloc: Global, before: &str, sample: &Sample, stop: Stop) -> Result<Vec<u8>, Fail> {
    if sample.time > LAST_TIME {
        return Err("too late")?;
    }
    let deck = small_deck(alloc)?;
    let config = small_config(alloc, &deck.book)?;
    let view = View {
        event: sample.event,
        energy: sample.energy,
        config: &config,
        gas: &sample.gas,
        counts: &sample.counts,
    };
    let mut text = Vec::from_slice(alloc, before.as_bytes())?;
    summary_text(&deck, &view, sample.time, stop, &mut text)?;
    Ok(text)
}

/// What is there, what the last event shows, why the run has ended, and what is there once the summary is added.
const SUMMARIES: &[(&str, Sample, Stop, &str)] = &[
    (
        "",
        FIRST,
        Stop::Steps,
        "sites 5\nevents 0\ntime 0.000000000000000000\nsurface CO* 2\nsurface O2** 1\ngas CO 0\ngas O2 0\nenergy 0.000000000\nstop steps\n",
    ),
    (
        "there\n",
        LATER,
        Stop::Horizon,
        "there\nsites 5\nevents 345\ntime 0.000000000000000001\nsurface CO* 2\nsurface O2** 1\ngas CO -12\ngas O2 7\nenergy -1.300000000\nstop horizon\n",
    ),
    (
        "",
        LATE,
        Stop::Samples,
        "sites 5\nevents 1099511627775\ntime 1000000000000.000000000000000001\nsurface CO* 2\nsurface O2** 1\ngas CO 3\ngas O2 -1\nenergy 0.000000001\nstop samples\n",
    ),
    (
        "",
        EXTREME,
        Stop::Still,
        "sites 5\nevents 18446744073709551615\ntime 170141183460469231731.687303715884105727\nsurface CO* 2\nsurface O2** 1\ngas CO -9223372036854775808\ngas O2 9223372036854775807\nenergy -170141183460469231731687303715.884105728\nstop still\n",
    ),
];

#[test]
fn summaries(rt: HostRuntime) -> Result<(), Fail> {
    for (before, sample, stop, after) in SUMMARIES {
        let text = with_summary(rt.alloc(), *before, sample, *stop)?;
        assert_eq!(rt; text.as_slice(), after.as_bytes());
    }
    Ok(())
}

/// The numbers of adsorbates of the small deck.
fn small_counts(alloc: Global) -> Result<Vec<u64>, Fail> {
    let deck = small_deck(alloc)?;
    let config = small_config(alloc, &deck.book)?;
    Ok(adsorbates(alloc, &deck, &config)?)
}

// An adsorbate of two dentates counts once.
#[test]
fn numbers_of_adsorbates(rt: HostRuntime) -> Result<(), Fail> {
    let counts = small_counts(rt.alloc())?;
    assert_eq!(rt; counts.as_slice(), [2, 1].as_slice());
    let deck = empty_deck(rt.alloc())?;
    let config = Config::vacant(rt.alloc(), 1)?;
    assert!(rt; adsorbates(rt.alloc(), &deck, &config)?.is_empty());
    Ok(())
}
