/// Another pass had the turn, or had it between the load and the compare-and-exchange. A word is
/// `holder * 2^48 + done mask`.
#[derive(Clone, Copy, Debug, PartialEq, Eq)]
pub struct Busy {
    /// The word that the load found.
    pub was: u64,
    /// The word that the last step found: the same where it had a holder, else what the compare-and-exchange found.
    pub seen: u64,
}

/// Why a finding was not put. The finding is in it.
#[derive(Debug, Drop)]
pub enum PutRefused<F> {
    /// Another pass had the turn: `was` and `seen` are the words of `Busy`.
    Busy { was: u64, seen: u64, finding: F },
    /// The parts found no memory for it, and are as they were.
    OutOfMemory { finding: F },
}
