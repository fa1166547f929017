//! Why a run stops, and up to what time its outputs are sampled.

use crate::plans::{Limits, plan_of};
use kmc_base::{END_OF_TIME, MAX_EVENTS};
use kmc_report::{MAX_SAMPLES, Stop, end_of_samples, stop_at};
use std::process::Abort;

/// No output is sampled, and there are no limits.
const FREE: Limits = Limits {
    max_steps: MAX_EVENTS,
    max_time: None,
    history: 0,
    procstat: 0,
    specnum: 0,
};

/// At most 9 events and 20 attoseconds.
const SHORT: Limits = Limits {
    max_steps: 9,
    max_time: Some(20),
    ..FREE
};

/// The end of `SHORT` comes at the first event.
const NO_EVENT: Limits = Limits {
    max_steps: 0,
    ..SHORT
};

/// The history is sampled at every other event.
const EVERY_OTHER: Limits = Limits { history: 2, ..FREE };

/// The numbers of events are sampled at every event, and no event is allowed after the last of these samples.
const EVERY: Limits = Limits {
    procstat: 1,
    max_steps: 9_999_999,
    ..FREE
};

/// The numbers of molecules are sampled every 3 attoseconds.
const BY_TIME: Limits = Limits { specnum: 3, ..FREE };

/// Limits, an event, its time, the least time of an entry, and why the run stops.
const STOPS: &[(Limits, u64, u128, Option<u128>, Option<Stop>)] = &[
    (FREE, 0, 0, Some(0), None),
    (FREE, 7, 5, Some(END_OF_TIME), None),
    (FREE, 7, 5, Some(END_OF_TIME + 1), Some(Stop::Horizon)),
    (FREE, 7, 5, None, Some(Stop::Still)),
    (FREE, MAX_EVENTS, 5, Some(6), Some(Stop::Steps)),
    (SHORT, 8, 20, Some(20), None),
    (SHORT, 8, 20, Some(21), Some(Stop::Horizon)),
    (SHORT, 9, 20, Some(21), Some(Stop::Steps)),
    (SHORT, 9, 20, None, Some(Stop::Steps)),
    (NO_EVENT, 0, 0, Some(1), Some(Stop::Steps)),
    (EVERY_OTHER, 19_999_997, 5, Some(6), None),
    (EVERY_OTHER, 19_999_998, 5, Some(6), Some(Stop::Samples)),
    (EVERY, 9_999_998, 5, Some(6), None),
    (EVERY, 9_999_999, 5, None, Some(Stop::Samples)),
    (BY_TIME, 3, 29_999_996, Some(END_OF_TIME), None),
    (BY_TIME, 3, 29_999_997, None, Some(Stop::Samples)),
];

/// Compares one row, whose number is for the message.
fn check_stop(rt: &impl Abort, row: usize, case: &(Limits, u64, u128, Option<u128>, Option<Stop>)) {
    let (limits, event, time, least, stop) = *case;
    assert!(rt; time <= END_OF_TIME);
    assert_eq!(rt;
        stop_at(&plan_of(&limits), event, time, least),
        stop,
        "at {row}"
    );
}

#[test]
fn reasons_to_stop(rt: HostRuntime) {
    assert_eq!(rt; MAX_SAMPLES, 10_000_000);
    for (row, case) in STOPS.iter().enumerate() {
        check_stop(&rt, row, case);
    }
}

/// Limits, why a run stops after an event at 5 attoseconds, and the last time of its time samples.
const ENDS: &[(Limits, Stop, u128)] = &[
    (FREE, Stop::Samples, 5),
    (FREE, Stop::Steps, 5),
    (FREE, Stop::Still, 5),
    (FREE, Stop::Horizon, 5),
    (SHORT, Stop::Samples, 5),
    (SHORT, Stop::Steps, 5),
    (SHORT, Stop::Still, 20),
    (SHORT, Stop::Horizon, 20),
];

#[test]
fn ends_of_time_samples(rt: HostRuntime) {
    for (limits, stop, end) in ENDS {
        assert_eq!(rt; end_of_samples(&plan_of(limits), 5, *stop), *end);
    }
}
