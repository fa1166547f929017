use crate::closed::Closed;
use crate::unclosed::Unclosed;
use kmc_report::Stop;

/// What firing makes of a run: the next event, open, or the run as it was, and why it ends.
#[derive(Debug, Drop)]
pub enum Fired {
    /// The next event has fired, and its instances are still to be listed.
    Next(Unclosed),
    /// The run stops at its event, for this reason.
    Ended(Closed, Stop),
}
