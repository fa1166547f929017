//! Laws of the trajectory of a deck. The functions do nothing: their contracts are the laws.
ghost use Rattle.kmc_core.specs.Times.{TimeNeverFalls};

/// No event of a run is before the one that precedes it.
pub fn time_never_falls()
    ensures { TimeNeverFalls }
{}
