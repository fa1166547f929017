ghost use Rattle.std.specs.Prelude.{◌≡◌, ◌-◌, ◌^◌, ◌<◌, ◌≤◌, IfOk, IfErr, length, Ok, count_by};
ghost use Rattle.dec_text.specs.Bytes.{is_line_feed};
ghost use Rattle.dec_text.specs.Spans.{line_at};
ghost use Rattle.deck_shape.specs.Blocks.{file_at};
ghost use Rattle.deck_shape.specs.LineFaults.{file_of_text, line_count};
ghost use Rattle.deck_shape.specs.Reading.{after_line, first_block};
ghost use Rattle.deck_shape.specs.Shapes.{IsFaultOf, IsShapeOf};
ghost use Rattle.deck_shape.specs.Views.{reading_at};

use crate::check::{closes_file, fault_at, is_row, rule_at};
use crate::fault::{DeckFault, Fault};
use crate::reading::{Reading, first_block};
use crate::shape::Shape;
use dec_text::{FIRST_LINE, Line, next_line};
use deck_words::BlockForm;
use deck_words::kind::NOT_CLOSED;
use kmc_base::{FileId, OutOfMemory};
use std::alloc::Global;

/// How many line ends a text has.
fn line_feed_count(bytes: &[u8]) -> usize
    ensures { result ≡ count_by is_line_feed bytes.now }
{
    bytes.iter().filter(|b| **b == b'\n').count()
}

/// How many lines a text has, those without words among them.
fn line_count(bytes: &[u8]) -> usize
    ensures value { result ≡ line_count bytes.now }
    ensures few { result ≤ length bytes.now }
{
    let ended = line_feed_count(bytes);
    match bytes {
        [.., last] if *last != b'\n' => ended + 1,
        _ => ended,
    }
}

/// What is read of a file: a line without faults.
fn after_line(
    reading: Reading,
    alloc: Global,
    bytes: &[u8],
    line: Line,
) -> Result<Reading, OutOfMemory>
    ensures { IfOk result (λ next. reading_at bytes.now next ≡ after_line (line_at bytes.now line) (reading_at bytes.now reading)) }
{
    if is_row(bytes, &line) {
        return reading.after_row(alloc, line);
    }
    match rule_at(&reading, bytes, &line) {
        Some(rule) => reading.after_word(alloc, bytes, line, rule.role),
        None => Ok(reading),
    }
}

/// A fault of a file.
fn fault(file: FileId, line: u32, kind: u8) -> DeckFault
    ensures { result ≡ DeckFault.Fault record { file = file; line = line; kind = kind } }
{
    DeckFault::Fault(Fault { file, line, kind })
}

/// The blocks of a file, or its first fault of form.
fn read_file(alloc: Global, file: FileId, form: BlockForm, bytes: &[u8]) -> Result<Shape, DeckFault>
    requires { length bytes.now < 2 ^ 32 - 1 }
    ensures shape { IfOk result (λ shape. file_of_text form bytes.now ≡ Ok (file_at bytes.now shape)) }
    ensures fault { IfErr result (IsFaultOf file (file_of_text form bytes.now)) }
{
    let mut place = FIRST_LINE;
    let mut reading = Reading::new(alloc, form);
    while let Some(line) = next_line(alloc, bytes, &mut place)? {
        if let Some(kind) = fault_at(&reading, bytes, &line) {
            return Err(fault(file, line.number, kind));
        }
        if closes_file(&reading, bytes, &line) {
            return Ok(reading.close(line.number));
        }
        reading = after_line(reading, alloc, bytes, line)?;
    }
    Err(fault(file, line_count(bytes) as u32 + 1, NOT_CLOSED))
}

/// The shape of a file: its blocks with their word lines and rows, or its first fault of form.
///
/// The faults of form are `kind::STRAY_ROW` to `kind::UNKNOWN_LATTICE`. A file is read up to its first faulty line, or
/// its closing word; of the kinds that hold at that line the least is the fault.
pub fn read_shape(alloc: Global, file: FileId, bytes: &[u8]) -> Result<Shape, DeckFault>
    requires { length bytes.now < 2 ^ 32 - 1 }
    ensures shape { IfOk result (IsShapeOf file bytes.now) }
    ensures fault { IfErr result (IsFaultOf file (file_of_text (first_block file) bytes.now)) }
{
    read_file(alloc, file, first_block(file), bytes)
}
