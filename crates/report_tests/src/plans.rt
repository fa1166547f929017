//! Plans of the tests.
ghost use Rattle.std.specs.Prelude.{◌≤◌, IfSome};
ghost use Rattle.run_plan.specs.Soundness.{IsPeriod, IsSoundPlan};

use kmc_base::{END_OF_TIME, MAX_EVENTS};
use run_plan::{Plan, Sampling};

/// Sampled at events with this period; off if it is 0.
pub(crate) fn at_events(period: u64) -> Sampling
    ensures { IsPeriod result }
{
    if 1 <= period && period <= MAX_EVENTS {
        Sampling::Event(period)
    } else {
        Sampling::Off
    }
}

/// Sampled at times with this period, in attoseconds; off if it is 0.
pub(crate) fn at_times(period: u128) -> Sampling
    ensures { IsPeriod result }
{
    if 1 <= period && period <= END_OF_TIME {
        Sampling::Time(period)
    } else {
        Sampling::Off
    }
}

/// Limits of a run, and how its outputs are sampled: history and procstat with periods in events, specnum with one in
/// attoseconds. A period of 0 is off.
#[derive(Clone, Copy)]
pub(crate) struct Limits {
    pub(crate) max_steps: u64,
    pub(crate) max_time: Option<u128>,
    pub(crate) history: u64,
    pub(crate) procstat: u64,
    pub(crate) specnum: u128,
}

/// The greatest time, if there is one.
fn time_up_to_the_end(max_time: Option<u128>) -> Option<u128>
    ensures { IfSome result (λ time. time ≤ END_OF_TIME) }
{
    match max_time {
        Some(time) => Some(time.min(END_OF_TIME)),
        None => None,
    }
}

/// A plan of these limits.
pub(crate) fn plan_of(limits: &Limits) -> Plan
    ensures { IsSoundPlan result }
{
    Plan {
        seed: 1,
        max_steps: limits.max_steps.min(MAX_EVENTS),
        max_time: time_up_to_the_end(limits.max_time),
        history: at_events(limits.history),
        procstat: at_events(limits.procstat),
        specnum: at_times(limits.specnum),
    }
}
