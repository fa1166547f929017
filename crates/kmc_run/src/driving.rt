ghost use Rattle.std.specs.Prelude.{◌≡◌, ◌≤◌, ℕ, ◌++◌, ◌∷◌, [], List, IfOk, IfErr, OnOk, IsSomeAnd, Some};
ghost use Rattle.std.specs.List.{flat_map};
ghost use Rattle.command_line.specs.declared.line.TheConstants.{MAX_WORKERS};
ghost use Rattle.deck.specs.Soundness.{IsSound};
ghost use Rattle.kmc_base.specs.Faults.{OnlyFailed, SameCounts};
ghost use Rattle.kmc_base.specs.declared.limits.TheConstants.{END_OF_TIME};
ghost use Rattle.kmc_core.specs.DeckSystem.{trajectory_of};
ghost use Rattle.kmc_core.specs.Run.{energy_of, stop_of};
ghost use Rattle.kmc_run.specs.Samples.{events_from, writes_at, run_writes};
ghost use Rattle.kmc_run.specs.Summaries.{IsSummary};
ghost use Rattle.kmc_run.specs.Writes.{Done, Ended, Wrote, failed_output, state_by};
ghost use Rattle.zacros_output.specs.Adsorbates.{adsorbates};

use crate::drive_fault::DriveFault;
use crate::heads::write_before;
use crate::samples::write_at;
use crate::summary::Summary;
use deck::Deck;
use kmc_base::{Folder, Gate, OutOfMemory, Sequence};
use kmc_core::{Closed, Fired, Stop, Unclosed};
use kmc_report::Sampler;
use std::alloc::Global;
use std::marker::Sync;
use std::thread::Threads;
use zacros_output::adsorbates;

/// The run at an event that has fired, with its instances listed.
fn close(alloc: Global, mut next: Unclosed) -> Result<Closed, OutOfMemory>
    ensures { IfOk result (λ closed. closed ≡ record { deck = next.deck; event = next.event }) }
{
    next.rescan(alloc)?;
    match next.close() {
        Ok(closed) => Ok(closed),
        Err(_) => unreachable!(),
    }
}

/// Runs from an event to the last one, and writes the samples that show each.
fn run_events<F: Folder>(
    alloc: Global,
    start: Closed,
    folder: &mut F,
) -> Result<(Closed, Stop), DriveFault>
    requires { start.event ≡ 0 }
    ensures deck { IfOk result (λ last. last.0.deck ≡ start.deck) }
    ensures stop { IfOk result (λ last. stop_of start.deck last.0.event ≡ Some last.1) }
    ensures last { IfOk result (λ last. ((es : List ℕ) × (events_from start.deck start.event ≡ es ++ last.0.event ∷ []))) }
    ensures wrote { Wrote (flat_map (writes_at start.deck) (events_from start.deck start.event)) result
        (state_by F.files F.outs F.read_faults F.write_faults F.loads folder.old)
        (state_by F.files F.outs F.read_faults F.write_faults F.loads folder.new) }
{
    let mut sampler = Sampler::new(&start.deck().plan);
    let mut closed = start;
    loop {
        write_at(alloc, &closed, &mut sampler, folder)?;
        match closed.fire() {
            Fired::Ended(last, stop) => return Ok((last, stop)),
            Fired::Next(next) => closed = close(alloc, next)?,
        }
    }
}

/// The summary of a run at its last event.
fn summary_of(alloc: Global, last: &Closed, stop: Stop) -> Result<Summary, OutOfMemory>
    ensures events { IfOk result (λ summary. summary.events ≡ last.now.event) }
    ensures stop { IfOk result (λ summary. summary.stop ≡ stop) }
    ensures time { IfOk result (λ summary. IsSomeAnd (trajectory_of last.now.deck last.now.event) (λ s. summary.time ≡ s.time)) }
    ensures in_time { IfOk result (λ summary. summary.time ≤ END_OF_TIME) }
    ensures energy { IfOk result (λ summary. IsSomeAnd (trajectory_of last.now.deck last.now.event) (λ s. summary.energy ≡ energy_of last.now.deck s.state.states)) }
    ensures surface { IfOk result (λ summary. IsSomeAnd (trajectory_of last.now.deck last.now.event) (λ s. summary.surface ≡ adsorbates last.now.deck.book s.state.states)) }
    ensures gas { IfOk result (λ summary. IsSomeAnd (trajectory_of last.now.deck last.now.event) (λ s. summary.gas ≡ s.state.gas)) }
{
    let surface = adsorbates(alloc, last.deck(), last.config())?;
    let gas = Vec::from_slice(alloc, last.gas())?;
    Ok(Summary {
        events: last.event(),
        time: last.time(),
        energy: last.energy(),
        surface: Sequence::new(surface),
        gas: Sequence::new(gas),
        stop,
    })
}

/// Runs a sound deck to its last event, and writes its outputs.
pub(crate) fn run_to_end<F: Folder>(
    alloc: Global,
    deck: Deck,
    folder: &mut F,
) -> Result<(Closed, Stop), DriveFault>
    requires { IsSound deck }
    ensures deck { IfOk result (λ last. last.0.deck ≡ deck) }
    ensures stop { IfOk result (λ last. stop_of deck last.0.event ≡ Some last.1) }
    ensures last { IfOk result (λ last. ((es : List ℕ) × (events_from deck 0 ≡ es ++ last.0.event ∷ []))) }
    ensures wrote { Wrote (run_writes deck) result
        (state_by F.files F.outs F.read_faults F.write_faults F.loads folder.old)
        (state_by F.files F.outs F.read_faults F.write_faults F.loads folder.new) }
{
    let start = match Closed::start(alloc, deck) {
        Ok(start) => start,
        Err(_) => return Err(DriveFault::OutOfMemory),
    };
    write_before(alloc, start.deck(), folder)?;
    run_events(alloc, start, folder)
}

/// Runs a sound deck to its end, and writes its outputs.
fn run_deck<F: Folder>(alloc: Global, deck: Deck, folder: &mut F) -> Result<Summary, DriveFault>
    requires { IsSound deck }
    ensures summary { IfOk result (IsSummary deck) }
    ensures wrote { Wrote (run_writes deck) result
        (state_by F.files F.outs F.read_faults F.write_faults F.loads folder.old)
        (state_by F.files F.outs F.read_faults F.write_faults F.loads folder.new) }
{
    let (last, stop) = run_to_end(alloc, deck, folder)?;
    Ok(summary_of(alloc, &last, stop)?)
}

/// Runs a sound deck to its end, and writes its outputs.
///
/// # Errors
///
/// `WriteFault` comes only where the folder failed to begin that output or to add to it. After it and
/// after `OutOfMemory` the outputs are what the writes before it make of them. If a piece failed, the
/// first of its bytes may be there; an output that failed to begin may be empty.
///
/// The number of workers is for threads, and so are `spread`, the least number of anchors of an event at
/// which they share its work, and the gate, which is called between their steps. No thread is started
/// yet: the run and its outputs are the same for all of them.
pub fn drive<R: Threads + Sync, F: Folder, G: Gate + Sync>(
    _rt: &R,
    alloc: Global,
    deck: Deck,
    folder: &mut F,
    _gate: &G,
    _workers: u32,
    _spread: u32,
) -> Result<Summary, DriveFault>
    requires deck { IsSound deck }
    requires some_workers { 1 ≤ _workers }
    requires few_workers { _workers ≤ MAX_WORKERS }
    requires spread { 1 ≤ _spread }
    ensures summary { IfOk result (IsSummary deck) }
    ensures ok { OnOk result (Done (run_writes deck) (F.outs folder.old) (F.outs folder.new)) }
    ensures err { IfErr result (λ fault. Ended (run_writes deck) fault (F.outs folder.old) (F.outs folder.new)) }
    ensures cause { IfErr result (λ fault. OnlyFailed (failed_output fault) (F.write_faults folder.old) (F.write_faults folder.new)) }
    ensures no_fault { OnOk result (SameCounts (F.write_faults folder.old) (F.write_faults folder.new)) }
    ensures reads { SameCounts (F.read_faults folder.old) (F.read_faults folder.new) }
    ensures files { F.files folder.new ≡ F.files folder.old }
{
    run_deck(alloc, deck, folder)
}
