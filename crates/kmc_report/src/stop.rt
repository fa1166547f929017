ghost use Rattle.std.specs.Prelude.{◌≡◌, ◌≤◌};
ghost use Rattle.kmc_report.specs.Stops.{end_of_samples as end_of_samples_at, end_of_time as end_of, is_full as is_full_at, samples_due as due_at, some_output_is_full as some_is_full_at, stop_at as stops_at, stop_before as stops_before};
ghost use Rattle.run_plan.specs.Soundness.{IsPeriod, IsSoundPlan};

use kmc_base::END_OF_TIME;
use run_plan::{Plan, Sampling};

/// Why a run has ended: the first of these that holds after its event.
#[derive(Clone, Copy, Debug, PartialEq, Eq, Hash)]
pub enum Stop {
    /// Some output has 10,000,000 samples or more due; no more than these are written.
    Samples,
    /// The deck's greatest number of events, `max_steps`, is reached.
    Steps,
    /// No instance has a time: nothing can fire any more.
    Still,
    /// The next event would come after the greatest time: `max_time` of the deck, or the end of time.
    Horizon,
}

/// The greatest number of samples of an output.
pub const MAX_SAMPLES: u64 = 10_000_000;

/// How many samples of an output are due at an event and its time.
fn samples_due(sampling: Sampling, event: u64, time: u128) -> u128
    requires period { IsPeriod sampling }
    requires time { time ≤ END_OF_TIME }
    ensures { result ≡ due_at sampling event time }
{
    match sampling {
        Sampling::Off => 0,
        Sampling::Event(period) => u128::from(event / period) + 1,
        Sampling::Time(period) => time / period + 1,
    }
}

/// Whether an output has as many samples as it may have.
fn is_full(sampling: Sampling, event: u64, time: u128) -> bool
    requires period { IsPeriod sampling }
    requires time { time ≤ END_OF_TIME }
    ensures { result ≡ is_full_at sampling event time }
{
    u128::from(MAX_SAMPLES) <= samples_due(sampling, event, time)
}

/// Whether some output has as many samples as it may have.
fn some_output_is_full(plan: &Plan, event: u64, time: u128) -> bool
    requires plan { IsSoundPlan plan.now }
    requires time { time ≤ END_OF_TIME }
    ensures { result ≡ some_is_full_at plan.now event time }
{
    is_full(plan.history, event, time)
        || is_full(plan.procstat, event, time)
        || is_full(plan.specnum, event, time)
}

/// The greatest time of a plan, in attoseconds.
fn end_of_time(plan: &Plan) -> u128
    ensures { result ≡ end_of plan.now }
{
    plan.max_time.unwrap_or(END_OF_TIME)
}

/// Why a run stops before the event that comes next, by the time of that event.
fn stop_before(plan: &Plan, least: Option<u128>) -> Option<Stop>
    ensures { result ≡ stops_before plan.now least }
{
    match least {
        None => Some(Stop::Still),
        Some(time) if end_of_time(plan) < time => Some(Stop::Horizon),
        Some(_) => None,
    }
}

/// Whether and why a run stops after an event, by the event's time and by the least time of the entries, which is that of
/// the event that comes next. All times are in attoseconds.
pub fn stop_at(plan: &Plan, event: u64, time: u128, least: Option<u128>) -> Option<Stop>
    requires plan { IsSoundPlan plan.now }
    requires time { time ≤ END_OF_TIME }
    ensures { result ≡ stops_at plan.now event time least }
{
    if some_output_is_full(plan, event, time) {
        Some(Stop::Samples)
    } else if event == plan.max_steps {
        Some(Stop::Steps)
    } else {
        stop_before(plan, least)
    }
}

/// The last time at which time samples are taken, in attoseconds, by the time of the last event and the reason of the stop.
pub fn end_of_samples(plan: &Plan, time: u128, stop: Stop) -> u128
    ensures { result ≡ end_of_samples_at plan.now time stop }
{
    match stop {
        Stop::Samples | Stop::Steps => time,
        Stop::Still | Stop::Horizon => plan.max_time.unwrap_or(time),
    }
}
