//! What is written before the first event.

ghost use Rattle.std.specs.Prelude.{◌≡◌, IfOk};
ghost use Rattle.kmc_run.specs.Samples.{begin_writes, head_of, head_writes, is_sampled, of_each, writes_before};
ghost use Rattle.kmc_run.specs.Writes.{Wrote, state_by};
ghost use Rattle.kmc_report.specs.Samples.{sampling_of as sampling_by};

use crate::drive_fault::DriveFault;
use crate::writing::{append, begin};
use deck::Deck;
use kmc_base::{Folder, OutId, OutOfMemory};
use kmc_report::sampling_of;
use run_plan::Sampling;
use std::alloc::Global;
use zacros_output::{history_head, procstat_head, specnum_head};

/// Whether an output of a deck is sampled.
fn is_sampled(deck: &Deck, out: OutId) -> bool
    ensures { result ≡ is_sampled (sampling_by deck.now.plan out) }
{
    match sampling_of(&deck.plan, out) {
        Sampling::Off => false,
        Sampling::Event(_) | Sampling::Time(_) => true,
    }
}

/// Begins an output, if it is sampled.
fn begin_output<F: Folder>(deck: &Deck, out: OutId, folder: &mut F) -> Result<(), DriveFault>
    ensures { Wrote (begin_writes deck.now out) result
        (state_by F.files F.outs F.read_faults F.write_faults F.loads folder.old)
        (state_by F.files F.outs F.read_faults F.write_faults F.loads folder.new) }
{
    if is_sampled(deck, out) {
        begin(folder, out)
    } else {
        Ok(())
    }
}

/// Begins the outputs that are sampled.
fn begin_outputs<F: Folder>(deck: &Deck, folder: &mut F) -> Result<(), DriveFault>
    ensures { Wrote (of_each (begin_writes deck.now)) result
        (state_by F.files F.outs F.read_faults F.write_faults F.loads folder.old)
        (state_by F.files F.outs F.read_faults F.write_faults F.loads folder.new) }
{
    begin_output(deck, OutId::History, folder)?;
    begin_output(deck, OutId::Procstat, folder)?;
    begin_output(deck, OutId::Specnum, folder)
}

/// The head of an output.
fn head_of(alloc: Global, deck: &Deck, out: OutId) -> Result<Vec<u8>, OutOfMemory>
    ensures { IfOk result (λ text. text.items ≡ head_of out deck.now) }
{
    let mut text = Vec::new(alloc);
    match out {
        OutId::History => history_head(deck, &mut text)?,
        OutId::Procstat => procstat_head(deck, &mut text)?,
        OutId::Specnum => specnum_head(deck, &mut text)?,
    }
    Ok(text)
}

/// Adds the head of an output, if it is sampled.
fn write_head<F: Folder>(
    alloc: Global,
    deck: &Deck,
    out: OutId,
    folder: &mut F,
) -> Result<(), DriveFault>
    ensures { Wrote (head_writes deck.now out) result
        (state_by F.files F.outs F.read_faults F.write_faults F.loads folder.old)
        (state_by F.files F.outs F.read_faults F.write_faults F.loads folder.new) }
{
    if !is_sampled(deck, out) {
        return Ok(());
    }
    let head = head_of(alloc, deck, out)?;
    append(folder, out, &head)
}

/// Adds the heads of the outputs that are sampled.
fn write_heads<F: Folder>(alloc: Global, deck: &Deck, folder: &mut F) -> Result<(), DriveFault>
    ensures { Wrote (of_each (head_writes deck.now)) result
        (state_by F.files F.outs F.read_faults F.write_faults F.loads folder.old)
        (state_by F.files F.outs F.read_faults F.write_faults F.loads folder.new) }
{
    write_head(alloc, deck, OutId::History, folder)?;
    write_head(alloc, deck, OutId::Procstat, folder)?;
    write_head(alloc, deck, OutId::Specnum, folder)
}

/// Begins the outputs that are sampled, and adds their heads.
pub(crate) fn write_before<F: Folder>(
    alloc: Global,
    deck: &Deck,
    folder: &mut F,
) -> Result<(), DriveFault>
    ensures { Wrote (writes_before deck.now) result
        (state_by F.files F.outs F.read_faults F.write_faults F.loads folder.old)
        (state_by F.files F.outs F.read_faults F.write_faults F.loads folder.new) }
{
    begin_outputs(deck, folder)?;
    write_heads(alloc, deck, folder)
}
