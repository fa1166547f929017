//! The numbers of the kinds of faults.

use deck_words::kind::*;

const KINDS: &[(u8, u8)] = &[
    (FILE_ABSENT, 1),
    (FILE_TOO_LONG, 2),
    (STRAY_ROW, 3),
    (UNKNOWN_WORD, 4),
    (UNSUPPORTED_WORD, 5),
    (ARGUMENT_COUNT, 6),
    (REPEATED_WORD, 7),
    (MISSING_WORD, 8),
    (NOT_CLOSED, 9),
    (UNKNOWN_LATTICE, 10),
    (NOT_NUMBER, 11),
    (NOT_WHOLE, 12),
    (OUT_OF_RANGE, 13),
    (BAD_CHOICE, 14),
    (LIST_LENGTH, 15),
    (ROW_COUNT, 16),
    (ROW_FORM, 17),
    (REPEATED_NAME, 18),
    (BAD_NAME, 19),
    (BAD_EDGE, 20),
    (NOT_CONNECTED, 21),
    (DOUBLE_DENTATE, 22),
    (TWO_SPECIES, 23),
    (REPEATED_SITE, 24),
    (BAD_SITE, 25),
    (SELF_NEIGHBOUR, 26),
    (TOO_MANY_NEIGHBOURS, 27),
    (ONE_SIDED, 28),
    (TOO_MANY_SITES, 29),
    (TOO_MANY_PARTS, 30),
    (UNKNOWN_SPECIES, 31),
    (UNKNOWN_GAS, 32),
    (UNKNOWN_TYPE, 33),
    (BAD_DENTATE, 34),
    (MISSING_DENTATE, 35),
];

#[test]
fn kinds_by_number(rt: HostRuntime) {
    for (kind, number) in KINDS {
        assert_eq!(rt; *kind, *number);
    }
}
