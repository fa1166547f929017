//! Decimals, whole numbers, and numbers that are printed.

ghost use Rattle.std.specs.Prelude.{◌≤◌};

use dec_text::{
    DecimalFault, NotWhole, OutOfRange, print_fixed, printed_reads_back, read_decimal, read_whole,
};
use std::alloc::Global;
use std::process::Abort;
use std::test::Fail;

/// What was read, as the sign, the digits and the power.
fn parts(word: &str) -> Result<(bool, u64, i32), DecimalFault> {
    let decimal = read_decimal(word.as_bytes())?;
    Ok((decimal.negative, decimal.digits, decimal.power))
}

/// Words, and the digits and the power of ten that are read from them.
const DECIMALS: &[(&str, u64, i32)] = &[
    ("1.0d+13", 1, 13),
    ("2.5E2", 25, 1),
    (".5", 5, -1),
    ("7.", 7, 0),
    ("+0.00", 0, 0),
    ("-0", 0, 0),
    ("0e999", 0, 0),
    ("0e99999999999999999999999999999999999999999", 0, 0),
    ("123456789012345678901", 123456789012345678, 3),
    ("123456789012345678", 123456789012345678, 0),
    ("1234567890123456789", 123456789012345678, 1),
    (
        "1234567890123456789012345678901234567890",
        123456789012345678,
        22,
    ),
    ("0.0001234567890123456789", 123456789012345678, -21),
    ("100000000000000000009", 1, 20),
    ("1e400", 1, 400),
    ("10e399", 1, 400),
    ("0.1e401", 1, 400),
    ("1000D-403", 1, -400),
];

#[test]
fn reads_decimals(rt: HostRuntime) {
    for (word, digits, power) in DECIMALS {
        assert_eq!(rt; parts(*word), Ok((false, *digits, *power)), "{word}");
    }
    assert_eq!(rt; parts("-.5e-1"), Ok((true, 5, -2)));
}

/// Words that are not decimals, and decimals of too great or too small a power.
const NO_DECIMALS: &[&str] = &[
    "", ".", "+", "1e", "1e+", "--3", "+-3", "1d", "1.2.3", "e5", "1\t", "1\r", "1#", "1e5x",
    "1 2", "\u{e9}1",
];

const FAR_POWERS: &[&str] = &[
    "1e999",
    "1e401",
    "10e400",
    "1e-401",
    "0.1e-400",
    "1e99999999999999999999999999999999999999999",
];

/// Looks at the fault of each of these words.
fn look_at_faults(rt: &impl Abort, words: &[&str], fault: DecimalFault) {
    for word in words {
        assert_eq!(rt; parts(*word), Err(fault), "{word}");
    }
}

#[test]
fn refuses_decimals(rt: HostRuntime) {
    look_at_faults(&rt, NO_DECIMALS, DecimalFault::Form);
    look_at_faults(&rt, FAR_POWERS, DecimalFault::Power);
}

const WHOLE_NUMBERS: &[(&str, Result<u64, NotWhole>)] = &[
    ("0", Ok(0)),
    ("+007", Ok(7)),
    ("18446744073709551615", Ok(18446744073709551615)),
    ("18446744073709551616", Err(NotWhole)),
    ("99999999999999999999999999999999999999999", Err(NotWhole)),
    ("", Err(NotWhole)),
    ("+", Err(NotWhole)),
    ("-1", Err(NotWhole)),
    ("-+1", Err(NotWhole)),
    ("1.0", Err(NotWhole)),
];

#[test]
fn reads_whole_numbers(rt: HostRuntime) {
    for (word, want) in WHOLE_NUMBERS {
        assert_eq!(rt; read_whole(word.as_bytes()), *want, "{word}");
    }
}

/// Decimals, the places that they are scaled by, and what they are then.
const SCALED: &[(&str, u32, Result<i128, OutOfRange>)] = &[
    ("1.5", 0, Ok(2)),
    ("-1.5", 0, Ok(-2)),
    ("0.4999", 0, Ok(0)),
    ("-0.0000000005", 9, Ok(-1)),
    ("1000", 9, Ok(1_000_000_000_000)),
    ("1000.0000000005", 9, Err(OutOfRange)),
    ("-1e400", 27, Err(OutOfRange)),
    ("1e-400", 27, Ok(0)),
];

#[test]
fn scales_decimals(rt: HostRuntime) -> Result<(), Fail> {
    for (word, places, want) in SCALED {
        let scaled = read_decimal(word.as_bytes())?.scaled(
            *places,
            -1_000_000_000_000,
            1_000_000_000_000,
        );
        assert_eq!(rt; scaled, *want, "{word}");
    }
    Ok(())
}

#[test]
fn faults_in_words(rt: HostRuntime) -> Result<(), Fail> {
    use DecimalFault::{Form, Power};
    let text = format!(in rt.alloc(); "{Form}; {Power}; {NotWhole}; {OutOfRange}")?;
    assert_eq!(rt;
        text.as_str(),
        "not a decimal number; power outside -400 to 400; not a whole number; out of range"
    );
    Ok(())
}

/// What is printed after two bytes that were there.
fn printed(alloc: Global, value: i128, decimals: u32) -> Result<Vec<u8>, Fail>
    requires some { 1 ≤ decimals }
    requires most { decimals ≤ 18 }
{
    let mut out = Vec::from_slice(alloc, b"t=")?;
    print_fixed(value, decimals, &mut out)?;
    Ok(out)
}

const PRINTED: &[(i128, u32, &str)] = &[
    (0, 18, "t=0.000000000000000000"),
    (1, 18, "t=0.000000000000000001"),
    (-3_000_000_000, 9, "t=-3.000000000"),
    (500_000, 3, "t=500.000"),
    (-1, 1, "t=-0.1"),
    (i128::MIN, 1, "t=-17014118346046923173168730371588410572.8"),
];

#[test]
fn prints_fixed(rt: HostRuntime) -> Result<(), Fail> {
    printed_reads_back();
    for (value, decimals, want) in PRINTED {
        let text = printed(rt.alloc(), *value, *decimals)?;
        assert_eq!(rt; text.as_slice(), want.as_bytes(), "{want}");
    }
    Ok(())
}
