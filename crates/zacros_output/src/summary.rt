ghost use Rattle.std.specs.Prelude.{◌≡◌, ◌≤◌, ◌<◌, ◌+◌, ◌^◌, ◌++◌, OnErr, OnOk, length};
ghost use Rattle.deck.specs.Soundness.{IsSound, dentates_in};
ghost use Rattle.lattice_core.specs.Config.{IsWellFormed};
ghost use Rattle.species_book.specs.Book.{names_of};
ghost use Rattle.zacros_output.specs.Shown.{shown};
ghost use Rattle.zacros_output.specs.Summary.{done_line, gas_species_line, gas_species_lines, stop_text, stop_word, summary_text, surface_line, surface_lines};

use crate::counting::adsorbates;
use crate::view::View;
use crate::words::{
    push_energy, push_next_number, push_next_signed, push_next_word, push_text, push_time,
};
use deck::Deck;
use kmc_base::OutOfMemory;
use kmc_report::Stop;

/// The word for why a run has ended.
fn stop_word(stop: Stop) -> &'static [u8]
    ensures { result.now ≡ stop_word stop }
{
    match stop {
        Stop::Samples => b"samples",
        Stop::Steps => b"steps",
        Stop::Still => b"still",
        Stop::Horizon => b"horizon",
    }
}

/// Adds why a run has ended, which ends the line.
fn push_stop(out: &mut Vec<u8>, stop: Stop) -> Result<(), OutOfMemory>
    ensures { OnOk result (out.new.items ≡ out.old.items ++ stop_text stop) }
{
    push_text(out, b"stop")?;
    push_next_word(out, stop_word(stop))?;
    push_text(out, b"\n")
}

/// Adds the line that a run ends with: how many events there were, the time of the last one in attoseconds, and why the run
/// has ended.
///
/// # Errors
///
/// Where memory is refused, `out` is as it was.
#[tactic(auto, unfolding(crate::specs::Summary::done_line))]
pub fn done_line(events: u64, time: u128, stop: Stop, out: &mut Vec<u8>) -> Result<(), OutOfMemory>
    requires { time < 2 ^ 127 }
    ensures ok { OnOk result (out.new.items ≡ out.old.items ++ done_line events time stop) }
    ensures err { OnErr result (out.new.items ≡ out.old.items) }
{
    let mut line = Vec::new(*out.allocator());
    push_text(&mut line, b"done events")?;
    push_next_number(&mut line, events)?;
    push_text(&mut line, b" time ")?;
    push_time(&mut line, time)?;
    push_text(&mut line, b" ")?;
    push_stop(&mut line, stop)?;
    push_text(out, &line)
}

/// Adds the line of a surface species.
fn push_surface_line(out: &mut Vec<u8>, name: &[u8], count: u64) -> Result<(), OutOfMemory>
    ensures { OnOk result (out.new.items ≡ out.old.items ++ surface_line name.now count) }
{
    push_text(out, b"surface")?;
    push_next_word(out, name)?;
    push_next_number(out, count)?;
    push_text(out, b"\n")
}

/// Adds a line for each surface species.
fn push_surface_lines(
    out: &mut Vec<u8>,
    names: &[Vec<u8>],
    counts: &[u64],
) -> Result<(), OutOfMemory>
    requires { length names.now ≡ length counts.now }
    ensures { OnOk result (out.new.items ≡ out.old.items ++ surface_lines (names_of names.now) counts.now) }
{
    for (place, name) in names.iter().enumerate() {
        push_surface_line(out, name, counts[place])?;
    }
    Ok(())
}

/// Adds the line of a gas species.
fn push_gas_line(out: &mut Vec<u8>, name: &[u8], number: i64) -> Result<(), OutOfMemory>
    ensures { OnOk result (out.new.items ≡ out.old.items ++ gas_species_line name.now number) }
{
    push_text(out, b"gas")?;
    push_next_word(out, name)?;
    push_next_signed(out, number)?;
    push_text(out, b"\n")
}

/// Adds a line for each gas species.
fn push_gas_lines(out: &mut Vec<u8>, names: &[Vec<u8>], numbers: &[i64]) -> Result<(), OutOfMemory>
    requires { length names.now ≡ length numbers.now }
    ensures { OnOk result (out.new.items ≡ out.old.items ++ gas_species_lines (names_of names.now) numbers.now) }
{
    for (place, name) in names.iter().enumerate() {
        push_gas_line(out, name, numbers[place])?;
    }
    Ok(())
}

/// Adds the summary of a run that has ended at an event, at a time in attoseconds.
///
/// # Errors
///
/// Where memory is refused, `out` is as it was.
#[tactic(auto, unfolding(crate::specs::Summary::summary_text))]
pub fn summary_text(
    deck: &Deck,
    view: &View<'_>,
    time: u128,
    stop: Stop,
    out: &mut Vec<u8>,
) -> Result<(), OutOfMemory>
    requires deck { IsSound deck.now }
    requires well_formed { IsWellFormed (dentates_in deck.now.book) view.now.config.now }
    requires gas { length view.now.gas.now ≡ length deck.now.book.gas }
    requires time { time < 2 ^ 127 }
    ensures ok { OnOk result (out.new.items ≡ out.old.items ++ summary_text deck.now (shown view.now time) stop) }
    ensures err { OnErr result (out.new.items ≡ out.old.items) }
{
    let surface = adsorbates(*out.allocator(), deck, view.config)?;
    let mut text = Vec::new(*out.allocator());
    push_text(&mut text, b"sites")?;
    push_next_number(&mut text, u64::from(deck.chem.graph.len()))?;
    push_text(&mut text, b"\nevents")?;
    push_next_number(&mut text, view.event)?;
    push_text(&mut text, b"\ntime ")?;
    push_time(&mut text, time)?;
    push_text(&mut text, b"\n")?;
    push_surface_lines(&mut text, deck.book.surface_names(), &surface)?;
    push_gas_lines(&mut text, deck.book.gas_names(), view.gas)?;
    push_text(&mut text, b"energy ")?;
    push_energy(&mut text, view.energy)?;
    push_text(&mut text, b"\n")?;
    push_stop(&mut text, stop)?;
    push_text(out, &text)
}
