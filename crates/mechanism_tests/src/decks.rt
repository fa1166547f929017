use deck_shape::{DeckFault, Fault, read_shape};
use kmc_base::{FileId, MAX_FILE_BYTES, OutOfMemory};
use mechanism_deck::{MechanismPart, read};
use std::alloc::{AllocError, Global};

/// The values of a text, or its first fault of form or of a value.
pub(crate) fn read_text(alloc: Global, text: &[u8]) -> Result<MechanismPart, DeckFault> {
    if text.len() > MAX_FILE_BYTES {
        return Err(DeckFault::OutOfMemory);
    }
    let shape = read_shape(alloc, FileId::Mechanism, text)?;
    read(alloc, text, &shape)
}

/// The line and the kind of the fault of a text; None where it has none.
pub(crate) fn fault_of(alloc: Global, text: &[u8]) -> Result<Option<(u32, u8)>, OutOfMemory> {
    match read_text(alloc, text) {
        Ok(_) => Ok(None),
        Err(DeckFault::Fault(Fault { line, kind, .. })) => Ok(Some((line, kind))),
        Err(DeckFault::OutOfMemory) => Err(OutOfMemory),
    }
}

/// The lines of a file of one reversible step, which has every word.
const LINES: &[&str] = &[
    "mechanism",
    "reversible_step a",
    "gas_reacs_prods A -1 B 2",
    "sites 2",
    "neighboring 1-2",
    "initial",
    "1 * 1",
    "2 X 1",
    "final",
    "1 X 1",
    "2 * 1",
    "site_types t 1",
    "pre_expon 1e13",
    "pe_ratio 0.5",
    "activ_eng 0.75",
    "prox_factor 0.25",
    "end_reversible_step",
    "end_mechanism",
];

/// A line of the file: one of two others where it has their number.
fn line_of(
    number: u32,
    own: &'static str,
    a: (u32, &'static str),
    b: (u32, &'static str),
) -> &'static str {
    if number == a.0 {
        a.1
    } else if number == b.0 {
        b.1
    } else {
        own
    }
}

/// The file with two other lines, by their numbers; line 0 is none.
pub(crate) fn with_lines(
    alloc: Global,
    a: (u32, &'static str),
    b: (u32, &'static str),
) -> Result<String, AllocError> {
    let mut text = String::new(alloc);
    for (line, number) in LINES.iter().zip(1u32..100) {
        text.push_str(line_of(number, *line, a, b))?;
        text.push_str("\n")?;
    }
    Ok(text)
}
