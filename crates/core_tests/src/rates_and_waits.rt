use fixed_math::{exp2, gap, lg_decimal, log2, wait};
use kmc_base::When;

#[test]
fn logarithms(rt: HostRuntime) {
    for (number, logarithm) in [(1, 0), (1 << 64, 68_719_476_736)] {
        assert_eq!(rt; log2(number), logarithm, "at {number}");
    }
}

#[test]
fn logarithms_of_decimals(rt: HostRuntime) {
    for (digits, power, lg) in [(1, 13, Some(46_369_610_716)), (0, 0, None)] {
        assert_eq!(rt; lg_decimal(digits, power), lg, "at {digits} * 10^{power}");
    }
}

#[test]
fn powers_of_two(rt: HostRuntime) {
    for (power, pair) in [
        (0, (1_073_741_824, 0)),
        (-1_073_741_824, (1_073_741_824, -1)),
        (53_787_166_047, (1_145_398_095, 50)),
    ] {
        assert_eq!(rt; exp2(power), pair, "at {power}");
    }
}

/// The draw in the middle.
const MIDDLE: u64 = (1 << 63) - 1;

#[test]
fn gaps(rt: HostRuntime) {
    for (draw, width) in [(0, 47_632_711_552), (MIDDLE, 744_261_118), (u64::MAX, 0)] {
        assert_eq!(rt; gap(draw), width, "at {draw}");
    }
}

#[test]
fn waiting_times(rt: HostRuntime) {
    // An ordinary rate; a mean wait just below 2^121 attoseconds, but no gap; the end of time; a mean wait of 2^121
    // attoseconds; no rate.
    let end = 1_000_000_000_000_000_000_000_000_000_000;
    for (lg, draw, now, when) in [
        (
            Some(10_416_910_329),
            MIDDLE,
            0,
            When::At(832_495_377_675_556),
        ),
        (Some(-65_718_684_000), u64::MAX, 5, When::At(6)),
        (Some(0), u64::MAX, end - 1, When::At(end)),
        (Some(0), u64::MAX, end, When::Never),
        (Some(-65_718_685_000), u64::MAX, 5, When::Never),
        (None, u64::MAX, 5, When::Never),
    ] {
        assert_eq!(rt; wait(lg, draw, now), when);
    }
}
