//! What is read of rows: their words, and the earliest of their faults.

ghost use Rattle.std.specs.Prelude.{◌-◌, ◌^◌, ◌<◌, length};

use dec_text::split;
use deck_values::{ANY_WHOLE, Readings, or_form_fault, row_words, whole_in, with_reading};
use deck_words::{LineFault, at_line};
use std::alloc::Global;
use std::test::Fail;

/// The numbers of the rows of one word, and the earliest fault.
fn numbers(alloc: Global, text: &[u8]) -> Result<Readings<u64>, Fail>
    requires { length text.now < 2 ^ 32 - 1 }
{
    let mut all = Readings {
        values: Vec::new(alloc),
        fault: None,
    };
    for line in &split(alloc, text)? {
        let word = match row_words(line) {
            [word] => Some(*word),
            _ => None,
        };
        let number = match or_form_fault(line.number, word) {
            Ok(word) => at_line(line.number, whole_in(ANY_WHOLE, word.bytes(text))),
            Err(fault) => Err(fault),
        };
        all = with_reading(all, number)?;
    }
    Ok(all)
}

/// Rows, their numbers, and the line and the kind of the earliest fault.
const ROWS: &[(&[u8], &[u64], Option<LineFault>)] = &[
    (b"7\n8\n", &[7, 8], None),
    (
        b"7\n\n1 2\n9",
        &[7, 9],
        Some(LineFault { line: 3, kind: 17 }),
    ),
    (b"x\n1 2\n9", &[9], Some(LineFault { line: 1, kind: 12 })),
    (b"", &[], None),
];

#[test]
fn numbers_of_rows(rt: HostRuntime) -> Result<(), Fail> {
    for (text, values, fault) in ROWS {
        assert!(rt; text.len() < 100);
        let read = numbers(rt.alloc(), *text)?;
        assert_eq!(rt; read.values.as_slice(), *values);
        assert_eq!(rt; read.fault, *fault);
    }
    Ok(())
}
