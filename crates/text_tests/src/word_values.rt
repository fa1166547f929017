//! What words mean: numbers in ranges, lists of them, names and edges.

use dec_text::Span;
use deck_values::{
    AnyDecimal, ScaledRange, WholeRange, absent_list, amount_in, any_decimal, edge_of, list_on,
    names_on, scaled_in, species_on, up_to, whole_in, words_on,
};
use deck_words::LineFault;
use kmc_base::OutOfMemory;
use std::alloc::{AllocError, Global};
use std::test::Fail;

const DIGIT: WholeRange = WholeRange { least: 1, most: 8 };

const FEW: ScaledRange = ScaledRange {
    places: 9,
    least: 0,
    most: 5,
};

/// A word, and what it is as a digit from 1 to 8, as at most 5 billionths, and as a decimal up to 1.
const NUMBERS: &[(&[u8], Result<u64, u8>, Result<i128, u8>, Result<u64, u8>)] = &[
    (b"8", Ok(8), Err(13), Err(13)),
    (b"9", Err(13), Err(13), Err(13)),
    (b"5e-9", Err(12), Ok(5), Ok(5)),
    (b"-1", Err(12), Err(13), Err(13)),
    (b"1e999", Err(12), Err(13), Err(13)),
    (b"1e", Err(12), Err(11), Err(11)),
];

#[test]
fn numbers_in_ranges(rt: HostRuntime) {
    for (word, whole, units, small) in NUMBERS {
        assert_eq!(rt; whole_in(DIGIT, *word), *whole);
        assert_eq!(rt; scaled_in(FEW, *word), *units);
        assert_eq!(rt; amount_in(FEW, *word).is_ok(), units.is_ok());
        assert_eq!(rt; up_to(0, *word).map(|n| n.digits), *small);
    }
}

#[test]
fn any_number(rt: HostRuntime) {
    let number = any_decimal(b"-7.5").map(|n| (n.negative, n.digits));
    assert_eq!(rt; number, Ok((true, 75)));
}

#[test]
fn edges(rt: HostRuntime) {
    assert_eq!(rt; edge_of(b"01-+2"), Some((1, 2)));
    assert_eq!(rt; edge_of(b"1"), None);
}

const TEXT: &[u8] = b"1 x 1";

const WORDS: [Span; 3] = [
    Span { start: 0, end: 1 },
    Span { start: 2, end: 3 },
    Span { start: 4, end: 5 },
];

/// A fault of this kind on line 7.
fn on_line_7(kind: Option<u8>) -> Option<LineFault> {
    kind.map(|kind| LineFault { line: 7, kind })
}

/// How many of the words there are, how many there should be, and the kind of the fault as a list of numbers.
const LISTS: &[(usize, Option<u64>, Option<u8>)] = &[
    (1, Some(1), None),
    (1, Some(2), Some(15)),
    (1, None, None),
    (2, Some(1), Some(11)),
];

/// The fault of the first words as a list of numbers.
fn list_fault(
    alloc: Global,
    len: usize,
    count: Option<u64>,
) -> Result<Option<LineFault>, OutOfMemory> {
    let words = WORDS.get(..len).unwrap_or(&[]);
    Ok(list_on(alloc, &AnyDecimal, count, 7, TEXT, words)?.err())
}

#[test]
fn lists_on_lines(rt: HostRuntime) -> Result<(), Fail> {
    for (len, count, kind) in LISTS {
        let fault = list_fault(rt.alloc(), *len, *count)?;
        assert_eq!(rt; fault, on_line_7(*kind));
    }
    Ok(())
}

/// How many members there should be, and whether their absence is a fault.
const ABSENT: &[(Option<u64>, bool)] = &[(None, false), (Some(0), false), (Some(1), true)];

#[test]
fn absent_lists(rt: HostRuntime) {
    for (count, is_fault) in ABSENT {
        let list: Result<Vec<u64>, LineFault> = absent_list(rt.alloc(), *count, 9);
        assert_eq!(rt; list.is_err(), *is_fault);
    }
}

/// How many of the words there are, how many there should be, and the kind of the fault as names.
const NAMES: &[(usize, Option<u64>, Option<u8>)] = &[
    (2, Some(2), None),
    (2, Some(3), Some(15)),
    (3, Some(3), Some(18)),
    (3, Some(2), Some(15)),
];

/// The fault of the first words as names, and as names of species.
fn name_faults(
    alloc: Global,
    len: usize,
    count: Option<u64>,
) -> Result<[Option<LineFault>; 2], OutOfMemory> {
    let words = WORDS.get(..len).unwrap_or(&[]);
    let names = names_on(alloc, count, 7, TEXT, words)?;
    let species = species_on(alloc, count, 7, TEXT, words)?;
    Ok([names.err(), species.err()])
}

#[test]
fn names_on_lines(rt: HostRuntime) -> Result<(), Fail> {
    for (len, count, kind) in NAMES {
        let faults = name_faults(rt.alloc(), *len, *count)?;
        assert_eq!(rt; faults, [on_line_7(*kind); 2]);
    }
    Ok(())
}

/// The fault of three words of which there should be so many.
fn words_fault(alloc: Global, count: Option<u64>) -> Result<Option<LineFault>, AllocError> {
    let words = Vec::from_array(alloc, WORDS)?;
    Ok(words_on(count, 7, words).err())
}

#[test]
fn words_on_lines(rt: HostRuntime) -> Result<(), Fail> {
    assert_eq!(rt; words_fault(rt.alloc(), Some(3))?, None);
    assert_eq!(rt; words_fault(rt.alloc(), None)?, None);
    assert_eq!(rt; words_fault(rt.alloc(), Some(2))?, on_line_7(Some(15)));
    Ok(())
}
