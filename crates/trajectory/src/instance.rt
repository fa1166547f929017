/// An instance of a process that a state offers: an elementary step at one placement on the lattice.
#[derive(Clone, Copy, Debug)]
pub struct Instance {
    /// The code of the process and its placement, as in an entry.
    pub code: u128,
    /// The base-2 logarithm of its rate in 1/s, in units of 2^-30, or None if it has no rate.
    pub lg: Option<i64>,
}
