//! Which samples of an output are given, and which events they show.

use crate::plans::{Limits, plan_of};
use kmc_base::{MAX_EVENTS, OutId};
use kmc_report::{
    MAX_SAMPLES, Sampler, each_sample_once, sample_time, sampling_of, shown_while_current,
};
use run_plan::Sampling;
use std::alloc::{AllocError, Global};
use std::test::Fail;

/// A quarter of a second.
const QUARTER: u128 = 250_000_000_000_000_000;

/// History every fourth event, procstat every third, specnum every quarter of a second.
const SAMPLED: Limits = Limits {
    max_steps: MAX_EVENTS,
    max_time: None,
    history: 4,
    procstat: 3,
    specnum: QUARTER,
};

/// Specnum every 5 attoseconds.
const BY_FIVE: Limits = Limits {
    history: 1,
    procstat: 0,
    specnum: 5,
    ..SAMPLED
};

/// A run: the times of its events from event 0 on, and the end of its time samples; and the samples of an output, each with
/// the event that it shows.
struct Case {
    limits: Limits,
    out: OutId,
    times: &'static [u128],
    end: u128,
    samples: &'static [(u64, usize)],
}

const CASES: &[Case] = &[
    // No event fires, and nothing else changes up to one second: five samples, the last of them at the end.
    Case {
        limits: SAMPLED,
        out: OutId::Specnum,
        times: &[0],
        end: 1_000_000_000_000_000_000,
        samples: &[(0, 0), (1, 0), (2, 0), (3, 0), (4, 0)],
    },
    // The end is one attosecond before a sample.
    Case {
        limits: SAMPLED,
        out: OutId::Specnum,
        times: &[0, 1],
        end: QUARTER - 1,
        samples: &[(0, 0)],
    },
    // Nine events at one time.
    Case {
        limits: SAMPLED,
        out: OutId::Procstat,
        times: &[0, 1, 1, 1, 1, 1, 1, 1, 1, 1],
        end: 1,
        samples: &[(0, 0), (1, 3), (2, 6), (3, 9)],
    },
    Case {
        limits: SAMPLED,
        out: OutId::History,
        times: &[0, 1, 1, 1, 2],
        end: 2,
        samples: &[(0, 0), (1, 4)],
    },
    // Two events at the time of a sample: it shows the later one.
    Case {
        limits: BY_FIVE,
        out: OutId::Specnum,
        times: &[0, 5, 5, 12],
        end: 15,
        samples: &[(0, 0), (1, 2), (2, 2), (3, 3)],
    },
    // An event at time 0.
    Case {
        limits: BY_FIVE,
        out: OutId::Specnum,
        times: &[0, 0, 26],
        end: 26,
        samples: &[(0, 1), (1, 1), (2, 1), (3, 1), (4, 1), (5, 1)],
    },
    Case {
        limits: BY_FIVE,
        out: OutId::History,
        times: &[0, 0, 26],
        end: 26,
        samples: &[(0, 0), (1, 1), (2, 2)],
    },
    Case {
        limits: BY_FIVE,
        out: OutId::Procstat,
        times: &[0, 0, 26],
        end: 26,
        samples: &[],
    },
];

/// Adds the samples that show an event: those at the event, and those before the next one, or up to the end.
fn add_samples(
    sampler: &mut Sampler,
    case: &Case,
    event: usize,
    samples: &mut Vec<(u64, usize)>,
) -> Result<(), AllocError> {
    if let Some(number) = sampler.at_event(case.out, event as u64) {
        samples.push((number, event))?;
    }
    for _ in 0..20 {
        let given = match case.times.get(event.saturating_add(1)) {
            Some(next) => sampler.before(case.out, *next),
            None => sampler.up_to(case.out, case.end),
        };
        if let Some(number) = given {
            samples.push((number, event))?;
        }
    }
    Ok(())
}

/// The samples of a run.
fn samples_of(alloc: Global, case: &Case) -> Result<Vec<(u64, usize)>, AllocError> {
    let mut sampler = Sampler::new(&plan_of(&case.limits));
    let mut samples = Vec::new(alloc);
    for event in 0..case.times.len() {
        add_samples(&mut sampler, case, event, &mut samples)?;
    }
    Ok(samples)
}

#[test]
fn samples_of_runs(rt: HostRuntime) -> Result<(), Fail> {
    for (row, case) in CASES.iter().enumerate() {
        let samples = samples_of(rt.alloc(), case)?;
        assert_eq!(rt; samples.as_slice(), case.samples, "at {row}");
    }
    each_sample_once();
    shown_while_current();
    Ok(())
}

/// How many samples at times are given up to a time, in one call more than an output may have samples.
fn count_up_to(sampler: &mut Sampler, end: u128) -> u64 {
    let mut count = 0u64;
    for _ in 0..MAX_SAMPLES + 1 {
        if sampler.up_to(OutId::Specnum, end).is_some() {
            count = count.saturating_add(1);
        }
    }
    count
}

#[test]
fn at_most_the_limit(rt: HostRuntime) {
    let mut sampler = Sampler::new(&plan_of(&BY_FIVE));
    assert_eq!(rt; count_up_to(&mut sampler, 1_000_000_000), 10_000_000);
    let given = sampler.given();
    assert_eq!(rt; given.of(OutId::Specnum), 10_000_000);
    assert_eq!(rt; given.of(OutId::History), 0);
}

/// The outputs of `SAMPLED`, how they are sampled, and the time of their sample 3 that shows an event at 7 attoseconds.
const SAMPLINGS: &[(OutId, Sampling, u128)] = &[
    (OutId::History, Sampling::Event(4), 7),
    (OutId::Procstat, Sampling::Event(3), 7),
    (OutId::Specnum, Sampling::Time(QUARTER), 3 * QUARTER),
];

#[test]
fn samplings_and_times(rt: HostRuntime) {
    for (out, sampling, time) in SAMPLINGS {
        let found = sampling_of(&plan_of(&SAMPLED), *out);
        assert_eq!(rt; found, *sampling);
        assert_eq!(rt; sample_time(found, 7, 3), *time);
    }
}
