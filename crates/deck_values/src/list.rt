ghost use Rattle.std.specs.Prelude.{◌≡◌, ◌∷◌, ◌++◌, [], IfOk, map, length};
ghost use Rattle.dec_text.specs.Spans.{bytes_at};
ghost use Rattle.deck_words.specs.Faults.{both, value_map};
ghost use Rattle.deck_values.specs.Lists.{absent_list, fault_if, has_members, has_other_length, list_on};

use dec_text::Span;
use deck_words::kind::LIST_LENGTH;
use deck_words::{LineFault, ReadWord, at_line, with_fault};
use kmc_base::OutOfMemory;
use std::alloc::Global;

/// A fault on a line, where it holds.
pub fn fault_if(holds: bool, line: u32, kind: u8) -> Option<LineFault>
    ensures { result ≡ fault_if holds line kind }
{
    if holds {
        Some(LineFault { line, kind })
    } else {
        None
    }
}

/// A list has another length than is stated; `None` means that the stated number has a fault itself.
pub fn has_other_length(count: Option<u64>, members: usize) -> bool
    ensures { result ≡ has_other_length count members }
{
    match count {
        Some(count) => members as u64 != count,
        None => false,
    }
}

/// A list that is absent should have members.
fn has_members(count: Option<u64>) -> bool
    ensures { result ≡ has_members count }
{
    match count {
        Some(count) => count > 0,
        None => false,
    }
}

/// The members so far and one more, or the earliest of their faults.
pub fn with_next<T: Drop>(
    so_far: Result<Vec<T>, LineFault>,
    next: Result<T, LineFault>,
) -> Result<Result<Vec<T>, LineFault>, OutOfMemory>
    ensures { IfOk result (λ all. value_map (λ items. items.items) all ≡ value_map (λ parts. parts.0.items ++ parts.1 ∷ []) (both so_far next)) }
{
    match deck_words::both(so_far, next) {
        Ok((mut items, item)) => {
            items.push(item)?;
            Ok(Ok(items))
        }
        Err(fault) => Ok(Err(fault)),
    }
}

/// The members of the list on a line, each read in one way, or the fault of the line: of its least kind, which is
/// `LIST_LENGTH` or that of a member. The length is checked where the stated number has no fault itself.
pub fn list_on<R: ReadWord>(
    alloc: Global,
    reading: &R,
    count: Option<u64>,
    line: u32,
    bytes: &[u8],
    words: &[Span],
) -> Result<Result<Vec<R::Value>, LineFault>, OutOfMemory>
    requires { R.is_usable reading.now }
    ensures { IfOk result (λ list. value_map (λ members. members.items) list
        ≡ list_on (R.value_of reading.now) count line (map (bytes_at bytes.now) words.now)) }
{
    let mut members = Ok(Vec::new(alloc));
    for word in words {
        members = with_next(members, at_line(line, reading.read(word.bytes(bytes))))?;
    }
    let other_length = has_other_length(count, words.len());
    Ok(with_fault(fault_if(other_length, line, LIST_LENGTH), members))
}

/// A list that is absent: it is empty, or a fault of the closing line where it should have members.
pub fn absent_list<T: Drop>(
    alloc: Global,
    count: Option<u64>,
    end_line: u32,
) -> Result<Vec<T>, LineFault>
    ensures { value_map (λ members. members.items) result ≡ absent_list count end_line }
{
    with_fault(
        fault_if(has_members(count), end_line, LIST_LENGTH),
        Ok(Vec::new(alloc)),
    )
}
