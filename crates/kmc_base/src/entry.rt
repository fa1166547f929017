use crate::firing_time::When;

/// What is known of one instance of a process: an elementary step at one placement on the lattice.
#[derive(Clone, Copy, Debug, PartialEq, Eq, Hash)]
pub struct Entry {
    /// The code of the process and its placement: `process * 2^55 + anchor * 2^35` plus the slots of the
    /// other sites of the placement. It is below 2^65.
    pub code: u128,
    /// The base-2 logarithm of the rate in 1/s with 30 fraction bits, or None where it has no rate.
    pub lg: Option<i64>,
    /// The number of the event at which its time was drawn; 0 at the start of the run.
    pub born: u64,
    /// The time of that event, in attoseconds (10^-18 s).
    pub born_time: u128,
    /// When it fires.
    pub when: When,
}

/// When an instance fires, and which. The order is that in which instances fire: the earlier time first, and at one
/// time the lesser code.
#[derive(Clone, Copy, Debug, PartialEq, Eq, PartialOrd, Ord, Hash)]
pub struct Firing {
    /// The time in attoseconds (10^-18 s).
    pub time: u128,
    /// The code of the instance.
    pub code: u128,
}
