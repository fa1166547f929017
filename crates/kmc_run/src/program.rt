ghost use Rattle.std.specs.Prelude.{[], ◌≡◌, ◌≢◌, ◌≤◌, ◌↔◌, IfErr, IfOk, IfSome, None, length, map, string_bytes};
ghost use Rattle.command_line.specs.Grammar.{MayMake, command_line};
ghost use Rattle.command_line.specs.declared.line.TheConstants.{MAX_WORKERS};
ghost use Rattle.deck_join.specs.Decks.{deck_of_files};
ghost use Rattle.deck_join.specs.Texts.{deck_files};
ghost use Rattle.kmc_base.specs.Faults.{OnlyFailed};
ghost use Rattle.kmc_base.specs.declared.limits.TheConstants.{END_OF_TIME};
ghost use Rattle.kmc_run.specs.Answers.{ending_of, failed_read, failed_write, files_read, FailsInOrder, IsFailure, KeepsOuts, Leaves, MayAnswer, OfDeck, ReadsDeck};
ghost use Rattle.kmc_run.specs.Ends.{IsDoneText, Shown, Shows, text_of};
ghost use Rattle.screen_text.specs.Printing.{screen_by};
ghost use Rattle.zacros_output.specs.Summary.{done_line};

use crate::driving::drive;
use crate::ending::{tell, tell_done};
use crate::made::sample;
use crate::status::Status;
use crate::summary::Summary;
use command_line::{CommandLine, Mode, read_words};
use deck_join::read_deck;
use kmc_base::{Folder, Gate, OutOfMemory, Sink};
use screen_text::deck_text;
use std::alloc::Global;
use std::marker::Sync;
use std::thread::Threads;
use zacros_output::done_line;

/// The line of a run.
fn run_line(alloc: Global, summary: &Summary) -> Result<Vec<u8>, OutOfMemory>
    requires { summary.now.time ≤ END_OF_TIME }
    ensures { IfOk result (λ text. text.items ≡ done_line summary.now.events summary.now.time summary.now.stop) }
{
    let mut text = Vec::new(alloc);
    done_line(summary.events, summary.time, summary.stop, &mut text)?;
    Ok(text)
}

/// Loads the deck, runs it and writes its outputs: the line for the screen, or the status that it ends with.
fn run<R: Threads + Sync, F: Folder, G: Gate + Sync>(
    rt: &R,
    alloc: Global,
    line: CommandLine,
    folder: &mut F,
    gate: &G,
) -> Result<Vec<u8>, Status>
    requires some_workers { 1 ≤ line.workers }
    requires few_workers { line.workers ≤ MAX_WORKERS }
    requires spread { 1 ≤ line.spread }
    ensures text { IfOk result (λ text. IsDoneText Mode.Run (F.files folder.old) text.items) }
    ensures failure { IfErr result IsFailure }
    ensures answer { IfSome (F.files folder.old) (λ told. MayAnswer Mode.Run (deck_of_files told) (ending_of result)) }
    ensures outs { IfSome (F.files folder.old) (λ told. Leaves Mode.Run (deck_of_files told) (ending_of result) (F.outs folder.old) (F.outs folder.new)) }
    ensures kept { KeepsOuts Mode.Run (ending_of result) (F.outs folder.old) (F.outs folder.new) }
    ensures reads { OnlyFailed (failed_read (ending_of result)) (F.read_faults folder.old) (F.read_faults folder.new) }
    ensures of_deck { ReadsDeck (ending_of result) }
    ensures order { FailsInOrder deck_files (F.loads folder.old) (ending_of result) }
    ensures writes { OnlyFailed (failed_write (ending_of result)) (F.write_faults folder.old) (F.write_faults folder.new) }
    ensures files { F.files folder.new ≡ F.files folder.old }
{
    let deck = read_deck(alloc, folder)?;
    let summary = drive(rt, alloc, deck, folder, gate, line.workers, line.spread)?;
    Ok(run_line(alloc, &summary)?)
}

/// Loads the deck: how many sites, processes and clusters it has, or the status that it ends with.
fn check<F: Folder>(alloc: Global, folder: &mut F) -> Result<Vec<u8>, Status>
    ensures text { IfOk result (λ text. IsDoneText Mode.Check (F.files folder.old) text.items) }
    ensures failure { IfErr result IsFailure }
    ensures answer { IfSome (F.files folder.old) (λ told. MayAnswer Mode.Check (deck_of_files told) (ending_of result)) }
    ensures outs { F.outs folder.new ≡ F.outs folder.old }
    ensures reads { OnlyFailed (failed_read (ending_of result)) (F.read_faults folder.old) (F.read_faults folder.new) }
    ensures of_deck { ReadsDeck (ending_of result) }
    ensures order { FailsInOrder deck_files (F.loads folder.old) (ending_of result) }
    ensures writes { OnlyFailed (failed_write (ending_of result)) (F.write_faults folder.old) (F.write_faults folder.new) }
    ensures files { F.files folder.new ≡ F.files folder.old }
{
    let deck = read_deck(alloc, folder)?;
    let chem = &deck.chem;
    Ok(deck_text(
        alloc,
        chem.graph.len(),
        chem.processes.len(),
        chem.clusters.len(),
    )?)
}

/// Does what the command line asks for, but for the screen: the text for it, or the status that it ends with.
fn perform<R: Threads + Sync, F: Folder, G: Gate + Sync>(
    rt: &R,
    alloc: Global,
    line: CommandLine,
    folder: &mut F,
    gate: &G,
) -> Result<Vec<u8>, Status>
    requires some_workers { 1 ≤ line.workers }
    requires few_workers { line.workers ≤ MAX_WORKERS }
    requires spread { 1 ≤ line.spread }
    requires number { MayMake line.mode }
    ensures text { IfOk result (λ text. IsDoneText line.mode (F.files folder.old) text.items) }
    ensures failure { IfErr result IsFailure }
    ensures answer { OfDeck line.mode (F.files folder.old) (λ given. MayAnswer line.mode given (ending_of result)) }
    ensures outs { OfDeck line.mode (F.files folder.old) (λ given. Leaves line.mode given (ending_of result) (F.outs folder.old) (F.outs folder.new)) }
    ensures kept { KeepsOuts line.mode (ending_of result) (F.outs folder.old) (F.outs folder.new) }
    ensures reads { OnlyFailed (failed_read (ending_of result)) (F.read_faults folder.old) (F.read_faults folder.new) }
    ensures of_deck { ReadsDeck (ending_of result) }
    ensures order { FailsInOrder (files_read line.mode) (F.loads folder.old) (ending_of result) }
    ensures writes { OnlyFailed (failed_write (ending_of result)) (F.write_faults folder.old) (F.write_faults folder.new) }
    ensures files { F.files folder.new ≡ F.files folder.old }
{
    match line.mode {
        Mode::Run => run(rt, alloc, line, folder, gate),
        Mode::Check => check(alloc, folder),
        Mode::Sample(number) => sample(alloc, number),
    }
}

/// Runs the program on the words after its name.
///
/// The order is: the words; the files, of which the first that cannot be read ends it; the first fault of the deck; the run
/// with its writes; the screen. A made deck is not read from the folder, and its run writes nothing there. Where the screen fails after all was done, the status is `ScreenFault`; any other status
/// stays what it is.
pub fn run_program<R: Threads + Sync, F: Folder, S: Sink, G: Gate + Sync>(
    rt: &R,
    alloc: Global,
    words: &[String],
    folder: &mut F,
    screen: &mut S,
    gate: &G,
) -> Status
    // It answers BadWords if and only if the words are no command line, unless memory was short.
    ensures words { result ≢ Status.OutOfMemory → ((result ≡ Status.BadWords) ↔ (command_line (map string_bytes words.now) ≡ None)) }
    // Words that are no command line leave the folder as it was.
    ensures no_command { command_line (map string_bytes words.now) ≡ None → folder.new ≡ folder.old }
    // Which answers there may be, and what is in the outputs then, by the deck that the command is of.
    ensures answer { IfSome (command_line (map string_bytes words.now)) (λ line. OfDeck line.mode (F.files folder.old) (λ given. MayAnswer line.mode given result)) }
    ensures outs { IfSome (command_line (map string_bytes words.now)) (λ line. OfDeck line.mode (F.files folder.old) (λ given. Leaves line.mode given result (F.outs folder.old) (F.outs folder.new))) }
    // Any command but a run, and an answer that nothing was run, keep the outputs, whether or not the files are reported.
    ensures kept { IfSome (command_line (map string_bytes words.now)) (λ line. KeepsOuts line.mode result (F.outs folder.old) (F.outs folder.new)) }
    // A fault of reading or writing is answered if and only if it came in this call, and it is the only one.
    ensures reads { OnlyFailed (failed_read result) (F.read_faults folder.old) (F.read_faults folder.new) }
    // The file of a fault of reading is one of those of a deck: no other is read.
    ensures of_deck { ReadsDeck result }
    // Files are read in order: of those whose reading would fail, the first is answered, unless memory was short.
    ensures order { IfSome (command_line (map string_bytes words.now)) (λ line. FailsInOrder (files_read line.mode) (F.loads folder.old) result) }
    ensures writes { OnlyFailed (failed_write result) (F.write_faults folder.old) (F.write_faults folder.new) }
    ensures files { F.files folder.new ≡ F.files folder.old }
    // What is on the screen: the text of the status, by the deck that the command is of, as far as the screen took it.
    ensures usage { command_line (map string_bytes words.now) ≡ None → Shows result (text_of [] result) (screen_by S.faults S.taken screen.old)
        (screen_by S.faults S.taken screen.new) }
    ensures screen { IfSome (command_line (map string_bytes words.now)) (λ line. Shown line.mode (F.files folder.old) result
        (screen_by S.faults S.taken screen.old) (screen_by S.faults S.taken screen.new)) }
{
    let line = match read_words(alloc, words) {
        Ok(Some(line)) => line,
        Ok(None) => return tell(screen, Status::BadWords),
        Err(OutOfMemory) => return tell(screen, Status::OutOfMemory),
    };
    match perform(rt, alloc, line, folder, gate) {
        Ok(text) => tell_done(screen, &text),
        Err(status) => tell(screen, status),
    }
}
