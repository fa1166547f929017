//! The ranges of the numbers that all files have, and of those of the simulation file.

use deck_values::{ANY_WHOLE, ENERGY, ScaledRange, WholeRange};
use sim_deck::{
    DENTATES, EVENT_LIMIT, EVENT_PERIOD, FRACTION, PRESSURE, SPECIES_COUNT, TEMPERATURE,
    TIME_LIMIT, TIME_PERIOD,
};

const WHOLE: &[(WholeRange, u64, u64)] = &[
    (ANY_WHOLE, 0, 18_446_744_073_709_551_615),
    (SPECIES_COUNT, 0, 64),
    (DENTATES, 1, 8),
    (EVENT_LIMIT, 0, 1_099_511_627_775),
    (EVENT_PERIOD, 1, 1_099_511_627_775),
];

const SCALED: &[(ScaledRange, u32, i128, i128)] = &[
    (TEMPERATURE, 3, 1, 10_000_000),
    (ENERGY, 9, -1_000_000_000_000, 1_000_000_000_000),
    (TIME_LIMIT, 18, 0, 1_000_000_000_000_000_000_000_000_000_000),
    (
        TIME_PERIOD,
        18,
        1,
        1_000_000_000_000_000_000_000_000_000_000,
    ),
];

#[test]
fn ranges_of_whole_numbers(rt: HostRuntime) {
    for (range, least, most) in WHOLE {
        assert_eq!(rt; (range.least, range.most), (*least, *most));
    }
}

#[test]
fn ranges_of_decimals(rt: HostRuntime) {
    for (range, places, least, most) in SCALED {
        let found = (range.places, range.least, range.most);
        assert_eq!(rt; found, (*places, *least, *most));
    }
    assert_eq!(rt; (PRESSURE.power, FRACTION.power), (9, 0));
}
