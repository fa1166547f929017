//! Laws of the runs of decks. The functions do nothing: their contracts are the laws.
ghost use Rattle.kmc_run.specs.RunSamples.{RunNeverFalls, RunsGoToTheirStop, SamplesAreDue, WritesItsSamples};

/// A run goes through all events from 0 on, up to the first at which it stops.
pub fn runs_go_to_their_stop()
    ensures { RunsGoToTheirStop }
{}

/// The times of the events of a run never fall, and none is after the end of its time samples.
pub fn run_never_falls()
    ensures { RunNeverFalls }
{}

/// What a run writes to an output is its begin and its head, if it is sampled, and then its samples.
pub fn writes_its_samples()
    ensures { WritesItsSamples }
{}

/// The samples of an output of a sound deck are those that are due, each once and in order. Each shows what is current at
/// its time, and is one write.
pub fn samples_are_due()
    ensures { SamplesAreDue }
{}
