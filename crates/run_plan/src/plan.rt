/// When an output is sampled.
#[derive(Clone, Copy, Debug, PartialEq, Eq)]
pub enum Sampling {
    /// Never.
    Off,
    /// At the events 0, N, 2N and so on; N is from 1 to 2^40 - 1.
    Event(u64),
    /// At the times 0, D, 2D and so on; D is in attoseconds, from 1 to 10^30.
    Time(u128),
}

/// The seed of a run, its limits, and when its outputs are sampled.
#[derive(Clone, Copy, Debug, PartialEq, Eq)]
pub struct Plan {
    /// The random seed, from `random_seed`; 0 where that is absent.
    pub seed: u64,
    /// The greatest number of events, from `max_steps`; 2^40 - 1 where that is absent or `infinity`.
    pub max_steps: u64,
    /// The greatest time in attoseconds, at most 10^30, from `max_time`; None where that is absent or `infinity`.
    pub max_time: Option<u128>,
    /// When `history_output.txt` is sampled, from `snapshots`.
    pub history: Sampling,
    /// When `procstat_output.txt` is sampled, from `process_statistics`.
    pub procstat: Sampling,
    /// When `specnum_output.txt` is sampled, from `species_numbers`.
    pub specnum: Sampling,
}
