ghost use Rattle.std.specs.Prelude.{◌≡◌, ◌+◌, ◌^◌, ◌≤◌, ◌<◌, IfSome};
ghost use Rattle.kmc_report.specs.Sampler.{after_giving, given_of, next_at_event, next_before, next_if, none_given, one_more};
ghost use Rattle.kmc_report.specs.Samples.{is_due_at as is_due_at_event, is_due_before as is_due_before_time, sample_time as sample_time_of, sampling_of as sampling_by};
ghost use Rattle.run_plan.specs.Soundness.{IsPeriod, IsSoundPlan};

use crate::stop::MAX_SAMPLES;
use kmc_base::OutId;
use run_plan::{Plan, Sampling};
use std::marker::Model;

/// How many samples of each output were given.
#[derive(Clone, Copy, Debug, PartialEq, Eq)]
pub struct Given {
    /// Of `history_output.txt`.
    pub history: u64,
    /// Of `procstat_output.txt`.
    pub procstat: u64,
    /// Of `specnum_output.txt`.
    pub specnum: u64,
}

/// Gives the samples of the outputs of a run in order, each once.
///
/// A contract sees it as the plan of the run and how many samples of each output it has given.
#[derive(Debug, Drop)]
pub struct Sampler {
    plan: Plan,
    given: Given,
}

impl Model for Sampler {
    ghost use Rattle.std.specs.Prelude.{◌≤◌};
    ghost use Rattle.kmc_report.specs.Sampler.{SamplerState};
    ghost use Rattle.kmc_report.specs.declared.stop.TheConstants.{MAX_SAMPLES};
    ghost use Rattle.run_plan.specs.Soundness.{IsSoundPlan};

    ghost Value = { SamplerState };

    ghost view = { λ s. record { plan = s.plan; given = s.given } };

    ghost invariant = { λ s. IsSoundPlan s.plan × (s.given.history ≤ MAX_SAMPLES) × (s.given.procstat ≤ MAX_SAMPLES) × (s.given.specnum ≤ MAX_SAMPLES) };
}

/// When an output is sampled by a plan.
pub fn sampling_of(plan: &Plan, out: OutId) -> Sampling
    ensures value { result ≡ sampling_by plan.now out }
    ensures period { IsSoundPlan plan.now → IsPeriod result }
{
    match out {
        OutId::History => plan.history,
        OutId::Procstat => plan.procstat,
        OutId::Specnum => plan.specnum,
    }
}

/// The time of a sample, in attoseconds, by the time of the event that it shows.
pub fn sample_time(sampling: Sampling, time: u128, number: u64) -> u128
    requires period { IsPeriod sampling }
    requires number { number < MAX_SAMPLES }
    ensures value { result ≡ sample_time_of sampling time number }
    ensures range { time < 2 ^ 127 → result < 2 ^ 127 }
{
    match sampling {
        Sampling::Off | Sampling::Event(_) => time,
        Sampling::Time(period) => u128::from(number) * period,
    }
}

/// Whether the sample of a number is due at an event.
fn is_due_at(sampling: Sampling, event: u64, number: u64) -> bool
    requires period { IsPeriod sampling }
    requires number { number ≤ MAX_SAMPLES }
    ensures { result ≡ is_due_at_event sampling event number }
{
    match sampling {
        Sampling::Event(period) => number * period == event,
        Sampling::Off | Sampling::Time(_) => false,
    }
}

/// Whether the sample of a number is due at a time before this one.
fn is_due_before(sampling: Sampling, time: u128, number: u64) -> bool
    requires period { IsPeriod sampling }
    requires number { number ≤ MAX_SAMPLES }
    ensures { result ≡ is_due_before_time sampling time number }
{
    match sampling {
        Sampling::Time(period) => u128::from(number) * period < time,
        Sampling::Off | Sampling::Event(_) => false,
    }
}

/// Whether the sample of a number is due at a time up to this one.
fn is_due_up_to(sampling: Sampling, end: u128, number: u64) -> bool
    requires period { IsPeriod sampling }
    requires number { number ≤ MAX_SAMPLES }
    ensures { result ≡ is_due_before_time sampling (end + 1) number }
{
    match sampling {
        Sampling::Time(period) => u128::from(number) * period <= end,
        Sampling::Off | Sampling::Event(_) => false,
    }
}

impl Given {
    /// How many samples of an output were given.
    pub fn of(&self, out: OutId) -> u64
        ensures { result ≡ given_of self.now out }
    {
        match out {
            OutId::History => self.history,
            OutId::Procstat => self.procstat,
            OutId::Specnum => self.specnum,
        }
    }

    /// These, and one more of an output.
    fn one_more(self, out: OutId) -> Given
        requires { given_of self out < MAX_SAMPLES }
        ensures { result ≡ one_more self out }
    {
        let mut given = self;
        match out {
            OutId::History => given.history += 1,
            OutId::Procstat => given.procstat += 1,
            OutId::Specnum => given.specnum += 1,
        }
        given
    }
}

impl Sampler {
    /// The sampler of a run by its plan: no sample was given yet.
    pub fn new(plan: &Plan) -> Sampler
        requires { IsSoundPlan plan.now }
        ensures { result ≡ record { plan = plan.now; given = none_given } }
    {
        Sampler {
            plan: *plan,
            given: Given {
                history: 0,
                procstat: 0,
                specnum: 0,
            },
        }
    }

    /// How many samples of each output were given.
    pub fn given(&self) -> Given
        ensures { result ≡ self.now.given }
    {
        self.given
    }

    /// How an output is sampled, and the number of its next sample.
    fn next(&self, out: OutId) -> (Sampling, u64)
        ensures sampling { result.0 ≡ sampling_by self.now.plan out }
        ensures period { IsPeriod result.0 }
        ensures number { result.1 ≡ given_of self.now.given out }
        ensures range { result.1 ≤ MAX_SAMPLES }
    {
        (sampling_of(&self.plan, out), self.given.of(out))
    }

    /// Gives the next sample of an output if it is due, and the limit of samples is not reached.
    fn give(&mut self, out: OutId, is_due: bool) -> Option<u64>
        ensures value { result ≡ next_if is_due (given_of self.old.given out) }
        ensures state { self.new ≡ after_giving self.old out result }
    {
        let number = self.given.of(out);
        if number < MAX_SAMPLES && is_due {
            self.given = self.given.one_more(out);
            Some(number)
        } else {
            None
        }
    }

    /// Gives the number of the next sample of an output if that is due at this event. `None` if it is not, or if the output
    /// has as many samples as it may have.
    pub fn at_event(&mut self, out: OutId, event: u64) -> Option<u64>
        ensures period { IsPeriod (sampling_by self.old.plan out) }
        ensures value { result ≡ next_at_event self.old out event }
        ensures state { self.new ≡ after_giving self.old out result }
        ensures range { IfSome result (λ number. number < MAX_SAMPLES) }
    {
        let (sampling, number) = self.next(out);
        self.give(out, is_due_at(sampling, event, number))
    }

    /// Gives the number of the next sample of an output if that is due at a time, and this time is before the next event's.
    /// `None` if it is not, or if the output has as many samples as it may have.
    pub fn before(&mut self, out: OutId, next: u128) -> Option<u64>
        ensures period { IsPeriod (sampling_by self.old.plan out) }
        ensures value { result ≡ next_before self.old out next }
        ensures state { self.new ≡ after_giving self.old out result }
        ensures range { IfSome result (λ number. number < MAX_SAMPLES) }
    {
        let (sampling, number) = self.next(out);
        self.give(out, is_due_before(sampling, next, number))
    }

    /// Gives the number of the next sample of an output if that is due at a time, and this time is not after the end.
    /// `None` if it is not, or if the output has as many samples as it may have.
    pub fn up_to(&mut self, out: OutId, end: u128) -> Option<u64>
        ensures value { result ≡ next_before self.old out (end + 1) }
        ensures state { self.new ≡ after_giving self.old out result }
        ensures range { IfSome result (λ number. number < MAX_SAMPLES) }
    {
        let (sampling, number) = self.next(out);
        self.give(out, is_due_up_to(sampling, end, number))
    }
}
