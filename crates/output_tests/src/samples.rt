//! What the samples of the tests show.

/// What a sample shows beside what is on the sites: its number, the event, the time in attoseconds, the energy in neV,
/// the gas molecules, and how often each process has fired.
#[derive(Clone, Copy, Debug)]
pub(crate) struct Sample {
    pub(crate) number: u64,
    pub(crate) event: u64,
    pub(crate) time: u128,
    pub(crate) energy: i128,
    pub(crate) gas: [i64; 2],
    pub(crate) counts: [u64; 2],
}

/// The greatest time that can be printed.
pub(crate) const LAST_TIME: u128 = 170_141_183_460_469_231_731_687_303_715_884_105_727;

pub(crate) const FIRST: Sample = Sample {
    number: 0,
    event: 0,
    time: 0,
    energy: 0,
    gas: [0, 0],
    counts: [0, 0],
};

/// At one attosecond, with an energy of 1.3 eV below 0.
pub(crate) const LATER: Sample = Sample {
    number: 12,
    event: 345,
    time: 1,
    energy: -1_300_000_000,
    gas: [-12, 7],
    counts: [20, 8],
};

/// One attosecond after 10^12 seconds, with an energy of one neV above 0.
pub(crate) const LATE: Sample = Sample {
    number: 9_999_999,
    event: 1_099_511_627_775,
    time: 1_000_000_000_000_000_000_000_000_000_001,
    energy: 1,
    gas: [3, -1],
    counts: [1_099_511_627_775, 0],
};

/// The greatest numbers that fit, and the least energy and the least number of molecules.
pub(crate) const EXTREME: Sample = Sample {
    number: u64::MAX,
    event: u64::MAX,
    time: LAST_TIME,
    energy: i128::MIN,
    gas: [i64::MIN, i64::MAX],
    counts: [0, u64::MAX],
};
