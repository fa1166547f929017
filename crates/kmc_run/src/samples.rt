//! What is written at an event.

ghost use Rattle.std.specs.Prelude.{◌≡◌, ◌≤◌, ◌<◌, ◌+◌, ◌^◌, ◌++◌, ℕ, IfOk, IsSomeAnd, OnOk, length};
ghost use Rattle.deck.specs.Soundness.{IsSound, dentates_in};
ghost use Rattle.kmc_base.specs.Entries.{least};
ghost use Rattle.kmc_core.specs.DeckSystem.{trajectory_of};
ghost use Rattle.kmc_core.specs.Run.{time_of_first};
ghost use Rattle.kmc_report.specs.Sampler.{given_before, given_of};
ghost use Rattle.kmc_report.specs.Samples.{sampling_of as sampling_by};
ghost use Rattle.kmc_run.specs.Given.{given_all, with_given};
ghost use Rattle.kmc_run.specs.Samples.{event_writes, of_each, piece_of, sample_write, shown_at, shown_until, time_of, time_writes, writes_at};
ghost use Rattle.kmc_run.specs.Writes.{Wrote, state_by};
ghost use Rattle.lattice_core.specs.Config.{IsWellFormed};
ghost use Rattle.lattice_core.specs.Lattice.{site_count};
ghost use Rattle.zacros_output.specs.Shown.{shown};

use crate::drive_fault::DriveFault;
use crate::writing::append;
use deck::Deck;
use kmc_base::{Folder, OutId, OutOfMemory};
use kmc_core::Closed;
use kmc_report::{MAX_SAMPLES, Sampler, end_of_samples, sample_time, sampling_of, stop_at};
use std::alloc::Global;
use zacros_output::{View, history_piece, procstat_piece, specnum_piece};

/// What a sample shows of a run.
pub(crate) fn view_of(closed: &Closed) -> View<'_>
    ensures sites { length result.config.now ≡ site_count closed.now.deck.chem.graph }
    ensures well_formed { IsWellFormed (dentates_in closed.now.deck.book) result.config.now }
    ensures gas { length result.gas.now ≡ length closed.now.deck.book.gas }
    ensures shown { IsSomeAnd (trajectory_of closed.now.deck closed.now.event)
        (λ s. (time : ℕ) → shown result time ≡ shown_at closed.now.deck closed.now.event time s) }
{
    View {
        event: closed.event(),
        energy: closed.energy(),
        config: closed.config(),
        gas: closed.gas(),
        counts: closed.counts(),
    }
}

/// Adds the piece of a sample of an output to a text, by the number of the sample, its time and what it shows.
fn add_piece(
    deck: &Deck,
    view: &View<'_>,
    out: OutId,
    number: u64,
    time: u128,
    text: &mut Vec<u8>,
) -> Result<(), OutOfMemory>
    requires deck { IsSound deck.now }
    requires sites { length view.now.config.now ≡ site_count deck.now.chem.graph }
    requires well_formed { IsWellFormed (dentates_in deck.now.book) view.now.config.now }
    requires time { time < 2 ^ 127 }
    ensures { OnOk result (text.new.items ≡ text.old.items ++ piece_of out deck.now number (shown view.now time)) }
{
    match out {
        OutId::History => history_piece(deck, view, number, time, text),
        OutId::Procstat => procstat_piece(deck, view, number, time, text),
        OutId::Specnum => specnum_piece(deck, view, number, time, text),
    }
}

/// The piece of a sample of an output, by its number and its time.
fn piece_of(
    alloc: Global,
    closed: &Closed,
    out: OutId,
    number: u64,
    time: u128,
) -> Result<Vec<u8>, OutOfMemory>
    requires { time < 2 ^ 127 }
    ensures { IfOk result (λ text. IsSomeAnd (trajectory_of closed.now.deck closed.now.event)
        (λ s. text.items ≡ piece_of out closed.now.deck number (shown_at closed.now.deck closed.now.event time s))) }
{
    let view = view_of(closed);
    let mut text = Vec::new(alloc);
    add_piece(closed.deck(), &view, out, number, time, &mut text)?;
    Ok(text)
}

/// Adds the sample of a number.
fn write_sample<F: Folder>(
    alloc: Global,
    closed: &Closed,
    out: OutId,
    number: u64,
    folder: &mut F,
) -> Result<(), DriveFault>
    requires { number < MAX_SAMPLES }
    ensures { Wrote (sample_write closed.now.deck closed.now.event out number) result
        (state_by F.files F.outs F.read_faults F.write_faults F.loads folder.old)
        (state_by F.files F.outs F.read_faults F.write_faults F.loads folder.new) }
{
    let sampling = sampling_of(&closed.deck().plan, out);
    let time = sample_time(sampling, closed.time(), number);
    let piece = piece_of(alloc, closed, out, number, time)?;
    append(folder, out, &piece)
}

/// Adds the event sample of an output, if one is due at the event.
fn write_event_sample<F: Folder>(
    alloc: Global,
    closed: &Closed,
    out: OutId,
    sampler: &mut Sampler,
    folder: &mut F,
) -> Result<(), DriveFault>
    requires plan { sampler.old.plan ≡ closed.now.deck.plan }
    requires given { given_of sampler.old.given out ≡ given_before (sampling_by sampler.old.plan out) closed.now.event (time_of closed.now.deck closed.now.event) }
    ensures wrote { Wrote (event_writes closed.now.deck closed.now.event out) result
        (state_by F.files F.outs F.read_faults F.write_faults F.loads folder.old)
        (state_by F.files F.outs F.read_faults F.write_faults F.loads folder.new) }
    ensures given { OnOk result (sampler.new ≡ record {
      plan = sampler.old.plan;
      given = with_given sampler.old.given out
          (given_before (sampling_by sampler.old.plan out) (closed.now.event + 1) (time_of closed.now.deck closed.now.event));
    }) }
{
    match sampler.at_event(out, closed.event()) {
        Some(number) => write_sample(alloc, closed, out, number, folder),
        None => Ok(()),
    }
}

/// Adds the event samples that are due at the event.
fn write_event_samples<F: Folder>(
    alloc: Global,
    closed: &Closed,
    sampler: &mut Sampler,
    folder: &mut F,
) -> Result<(), DriveFault>
    requires { sampler.old ≡ given_all closed.now.deck.plan closed.now.event (time_of closed.now.deck closed.now.event) }
    ensures wrote { Wrote (of_each (event_writes closed.now.deck closed.now.event)) result
        (state_by F.files F.outs F.read_faults F.write_faults F.loads folder.old)
        (state_by F.files F.outs F.read_faults F.write_faults F.loads folder.new) }
    ensures given { OnOk result (sampler.new
        ≡ given_all closed.now.deck.plan (closed.now.event + 1) (time_of closed.now.deck closed.now.event)) }
{
    write_event_sample(alloc, closed, OutId::History, sampler, folder)?;
    write_event_sample(alloc, closed, OutId::Procstat, sampler, folder)?;
    write_event_sample(alloc, closed, OutId::Specnum, sampler, folder)
}

/// Adds the time samples of an output that show the event until a time.
fn write_times_of<F: Folder>(
    alloc: Global,
    closed: &Closed,
    until: u128,
    out: OutId,
    sampler: &mut Sampler,
    folder: &mut F,
) -> Result<(), DriveFault>
    requires plan { sampler.old.plan ≡ closed.now.deck.plan }
    requires given { given_of sampler.old.given out ≡ given_before (sampling_by sampler.old.plan out) (closed.now.event + 1) (time_of closed.now.deck closed.now.event) }
    requires until { time_of closed.now.deck closed.now.event ≤ until }
    ensures wrote { Wrote (time_writes closed.now.deck closed.now.event until out) result
        (state_by F.files F.outs F.read_faults F.write_faults F.loads folder.old)
        (state_by F.files F.outs F.read_faults F.write_faults F.loads folder.new) }
    ensures given { OnOk result (sampler.new ≡ record {
      plan = sampler.old.plan;
      given = with_given sampler.old.given out (given_before (sampling_by sampler.old.plan out) (closed.now.event + 1) until);
    }) }
{
    while let Some(number) = sampler.before(out, until) {
        write_sample(alloc, closed, out, number, folder)?;
    }
    Ok(())
}

/// Adds the time samples that show the event until a time.
fn write_time_samples<F: Folder>(
    alloc: Global,
    closed: &Closed,
    until: u128,
    sampler: &mut Sampler,
    folder: &mut F,
) -> Result<(), DriveFault>
    requires given { sampler.old ≡ given_all closed.now.deck.plan (closed.now.event + 1) (time_of closed.now.deck closed.now.event) }
    requires until { time_of closed.now.deck closed.now.event ≤ until }
    ensures wrote { Wrote (of_each (time_writes closed.now.deck closed.now.event until)) result
        (state_by F.files F.outs F.read_faults F.write_faults F.loads folder.old)
        (state_by F.files F.outs F.read_faults F.write_faults F.loads folder.new) }
    ensures given { OnOk result (sampler.new ≡ given_all closed.now.deck.plan (closed.now.event + 1) until) }
{
    write_times_of(alloc, closed, until, OutId::History, sampler, folder)?;
    write_times_of(alloc, closed, until, OutId::Procstat, sampler, folder)?;
    write_times_of(alloc, closed, until, OutId::Specnum, sampler, folder)
}

/// The time of the event that comes next, if any instance has a time.
fn next_time(closed: &Closed) -> Option<u128>
    ensures { IsSomeAnd (trajectory_of closed.now.deck closed.now.event) (λ s. result ≡ time_of_first (least s.entries)) }
{
    match closed.least() {
        Some((time, _)) => Some(time),
        None => None,
    }
}

/// The time before which the time samples come that show the event.
fn shown_until(closed: &Closed) -> u128
    ensures { result ≡ shown_until closed.now.deck closed.now.event }
{
    let plan = &closed.deck().plan;
    let time = closed.time();
    let next = next_time(closed);
    match (stop_at(plan, closed.event(), time, next), next) {
        (Some(stop), _) => end_of_samples(plan, time, stop) + 1,
        (None, Some(next)) => next,
        (None, None) => unreachable!(),
    }
}

/// Adds the samples that show the event: the event samples, and then the time samples.
pub(crate) fn write_at<F: Folder>(
    alloc: Global,
    closed: &Closed,
    sampler: &mut Sampler,
    folder: &mut F,
) -> Result<(), DriveFault>
    requires given { sampler.old ≡ given_all closed.now.deck.plan closed.now.event (time_of closed.now.deck closed.now.event) }
    requires in_time { time_of closed.now.deck closed.now.event ≤ shown_until closed.now.deck closed.now.event }
    ensures wrote { Wrote (writes_at closed.now.deck closed.now.event) result
        (state_by F.files F.outs F.read_faults F.write_faults F.loads folder.old)
        (state_by F.files F.outs F.read_faults F.write_faults F.loads folder.new) }
    ensures given { OnOk result (sampler.new
        ≡ given_all closed.now.deck.plan (closed.now.event + 1) (shown_until closed.now.deck closed.now.event)) }
{
    write_event_samples(alloc, closed, sampler, folder)?;
    let until = shown_until(closed);
    write_time_samples(alloc, closed, until, sampler, folder)
}
