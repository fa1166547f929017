//! Laws of the samples of a whole run. The functions do nothing: their contracts are the laws.
ghost use Rattle.kmc_report.specs.Runs.{EachSampleOnce, ShownWhileCurrent};

/// Each sample that is due is there once, in order.
pub fn each_sample_once()
    ensures { EachSampleOnce }
{}

/// A sample shows the state that is current at its time: never a later event than that, and never an earlier one.
pub fn shown_while_current()
    ensures { ShownWhileCurrent }
{}
