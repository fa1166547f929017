ghost use Rattle.std.specs.Prelude.{◌≡◌, ◌≤◌, ◌<◌, ◌+◌, ◌^◌, ◌++◌, OnErr, OnOk, length};
ghost use Rattle.zacros_output.specs.Procstat.{procstat_head, procstat_piece, process_line, process_lines};
ghost use Rattle.zacros_output.specs.Shown.{shown};

use crate::view::View;
use crate::words::{
    push_next_counts, push_next_number, push_next_word, push_sample_start, push_text,
};
use deck::Deck;
use kmc_base::{OutOfMemory, Sequence};

/// Adds the line of a process: its number, from 1, and its name.
fn push_process(out: &mut Vec<u8>, number: u64, name: &[u8]) -> Result<(), OutOfMemory>
    ensures { OnOk result (out.new.items ≡ out.old.items ++ process_line number name.now) }
{
    push_text(out, b"process")?;
    push_next_number(out, number)?;
    push_next_word(out, name)?;
    push_text(out, b"\n")
}

/// Adds a line for each process.
fn push_processes(out: &mut Vec<u8>, names: &[Sequence<u8>]) -> Result<(), OutOfMemory>
    ensures { OnOk result (out.new.items ≡ out.old.items ++ process_lines names.now) }
{
    for (place, name) in names.iter().enumerate() {
        push_process(out, place as u64 + 1, name.as_slice())?;
    }
    Ok(())
}

/// Adds the head of `procstat_output.txt`.
///
/// # Errors
///
/// Where memory is refused, `out` is as it was.
#[tactic(auto, unfolding(crate::specs::Procstat::procstat_head))]
pub fn procstat_head(deck: &Deck, out: &mut Vec<u8>) -> Result<(), OutOfMemory>
    ensures ok { OnOk result (out.new.items ≡ out.old.items ++ procstat_head deck.now) }
    ensures err { OnErr result (out.new.items ≡ out.old.items) }
{
    let mut head = Vec::new(*out.allocator());
    push_text(&mut head, b"procstat 1\n")?;
    push_processes(&mut head, deck.process_names.as_slice())?;
    push_text(out, &head)
}

/// Adds a sample of `procstat_output.txt`, at a time in attoseconds.
///
/// # Errors
///
/// Where memory is refused, `out` is as it was.
#[tactic(auto, unfolding(crate::specs::Procstat::procstat_piece))]
pub fn procstat_piece(
    _deck: &Deck,
    view: &View<'_>,
    sample: u64,
    time: u128,
    out: &mut Vec<u8>,
) -> Result<(), OutOfMemory>
    requires { time < 2 ^ 127 }
    ensures ok { OnOk result (out.new.items ≡ out.old.items ++ procstat_piece sample (shown view.now time)) }
    ensures err { OnErr result (out.new.items ≡ out.old.items) }
{
    let mut piece = Vec::new(*out.allocator());
    push_sample_start(&mut piece, b"sample", sample, view.event, time)?;
    push_text(&mut piece, b"\ncounts")?;
    push_next_counts(&mut piece, view.counts)?;
    push_text(&mut piece, b"\n")?;
    push_text(out, &piece)
}
