//! Which of several faults counts.

use deck_words::{LineFault, earliest, fault_of};

const NONE: Option<LineFault> = None;

const AT_2: Option<LineFault> = Some(LineFault { line: 2, kind: 17 });

const LESSER_AT_2: Option<LineFault> = Some(LineFault { line: 2, kind: 13 });

const AT_3: Option<LineFault> = Some(LineFault { line: 3, kind: 4 });

/// Two faults, where there are any, and the one that counts.
const PAIRS: &[[Option<LineFault>; 3]] = &[
    [NONE, NONE, NONE],
    [AT_2, NONE, AT_2],
    [NONE, AT_2, AT_2],
    [AT_2, AT_3, AT_2],
    [AT_3, AT_2, AT_2],
    [AT_2, LESSER_AT_2, LESSER_AT_2],
    [LESSER_AT_2, AT_2, LESSER_AT_2],
];

#[test]
fn earlier_of_two_faults(rt: HostRuntime) {
    for [first, second, counts] in PAIRS {
        assert_eq!(rt; earliest(*first, *second), *counts);
    }
}

#[test]
fn faults_of_readings(rt: HostRuntime) {
    let read: Result<u64, LineFault> = Ok(7);
    assert_eq!(rt; fault_of(read), None);
    let faulty: Result<u64, LineFault> = Err(LineFault { line: 2, kind: 12 });
    assert_eq!(rt; fault_of(faulty), Some(LineFault { line: 2, kind: 12 }));
}
