//! Reading the words of a command line.
ghost use Rattle.std.specs.Prelude.{◌≡◌, ◌≢◌, ◌≤◌, ℕ, false, List, None, Some, IfOk, IfSome, codes, map, string_bytes};
ghost use Rattle.std.specs.Option.{ForSome};
ghost use Rattle.clap.specs.Words.{app_of, found_of, one_text, rows_of};
ghost use Rattle.clap.specs.Values.{IsUnsignedIn};
ghost use Rattle.command_line.specs.Grammar.{MayMake, command_line, deck_rule, kmc_line, mode_in, mode_of, mode_rule, number_in, number_rule, option_number};
ghost use Rattle.command_line.specs.declared.line.TheConstants.{MAX_SPREAD, MAX_WORKERS};
ghost use Rattle.deck_maker.specs.declared.decks.TheConstants.{MAX_DECK};
ghost use Rattle.clap.specs.Walk.{rule_of};

use crate::line::{CommandLine, MAX_SPREAD, MAX_WORKERS, Mode};
use clap::builder::ValueParser;
use clap::error::ErrorKind;
use clap::{Arg, ArgAction, ArgMatches, Command};
use deck_maker::MAX_DECK;
use kmc_base::OutOfMemory;
use std::alloc::{AllocError, Global};

/// The option `--name` with a whole number from 1 to `most`. Without the option the number is `default`.
fn number_option<'a>(alloc: Global, name: &'a str, most: u32, default: &'a str) -> Arg<'a>
    ensures rule { rule_of result ≡ number_rule name.entry.now most default.entry.now }
    ensures local { result.global ≡ false }
{
    Arg::new(alloc, name)
        .long(name)
        .action(ArgAction::Set)
        .value_parser(ValueParser::unsigned(1, u64::from(most)))
        .default_value(default)
}

/// The one command of kmc.
fn kmc_command<'a>(alloc: Global) -> Result<Command<'a>, AllocError>
    ensures { IfOk result (λ command. app_of command ≡ kmc_line) }
{
    let mode = Arg::new(alloc, "mode").required(true);
    let decks = ValueParser::unsigned(0, u64::from(MAX_DECK));
    let number = Arg::new(alloc, "number").value_parser(decks);
    let workers = number_option(alloc, "workers", MAX_WORKERS, "1");
    let spread = number_option(alloc, "spread", MAX_SPREAD, "64");
    Command::new(alloc, "kmc")
        .no_binary_name(true)
        .disable_help_flag(true)
        .arg(mode)?
        .arg(number)?
        .arg(workers)?
        .arg(spread)
}

/// What the required word says to do, with the number after it, if there is one.
fn mode_of(word: &str, number: Option<u32>) -> Option<Mode>
    ensures { result ≡ mode_of word.now number }
{
    match (word, number) {
        ("run", None) => Some(Mode::Run),
        ("check", None) => Some(Mode::Check),
        ("sample", Some(number)) => Some(Mode::Sample(number)),
        _ => None,
    }
}

/// The number of an argument, if it has a text.
fn number_in(matches: &ArgMatches, name: &str) -> Option<u32>
    requires number { ForSome (one_text (found_of matches.now) name.now) (λ text. IsUnsignedIn 0 4294967295 text) }
    ensures { result ≡ number_in name.now (rows_of (found_of matches.now)) }
{
    matches.get_one::<u32>(name)
}

/// What the required word of the matches and the number after it say to do.
fn mode_in(matches: &ArgMatches) -> Option<Mode>
    requires number { ForSome (one_text (found_of matches.now) (codes "number")) (λ text. IsUnsignedIn 0 4294967295 text) }
    ensures { result ≡ mode_in (rows_of (found_of matches.now)) }
{
    let number = number_in(matches, "number");
    match matches.get_str("mode") {
        Some(word) => mode_of(word, number),
        None => None,
    }
}

/// The number of an option, which has a text within the range of `u32`.
fn option_number(matches: &ArgMatches, name: &str) -> u32
    requires number { (t : List ℕ) × (one_text (found_of matches.now) name.now ≡ Some t) × IsUnsignedIn 0 4294967295 t }
    ensures { result ≡ option_number name.now (rows_of (found_of matches.now)) }
{
    match number_in(matches, name) {
        Some(number) => number,
        None => unreachable!(),
    }
}

/// The answer where clap does not take the words, or is out of memory.
fn refusal(kind: ErrorKind) -> Result<Option<CommandLine>, OutOfMemory>
    ensures { IfOk result (λ line. (line ≡ None) × (kind ≢ ErrorKind.OutOfMemory)) }
{
    match kind {
        ErrorKind::OutOfMemory => Err(OutOfMemory),
        _ => Ok(None),
    }
}

/// Reads the words after the program's name. The answer is `None` if they are outside the grammar.
///
/// # Errors
///
/// If it is out of memory.
pub fn read_words(alloc: Global, words: &[String]) -> Result<Option<CommandLine>, OutOfMemory>
    ensures value { IfOk result (λ line. line ≡ command_line (map string_bytes words.now)) }
    ensures workers { IfOk result (λ line. IfSome line (λ l. (1 ≤ l.workers) × (l.workers ≤ MAX_WORKERS))) }
    ensures spread { IfOk result (λ line. IfSome line (λ l. (1 ≤ l.spread) × (l.spread ≤ MAX_SPREAD))) }
    ensures number { IfOk result (λ line. IfSome line (λ l. MayMake l.mode)) }
{
    let command = kmc_command(alloc)?;
    let matches = match command.try_get_matches_from(words) {
        Ok(matches) => matches,
        Err(error) => return refusal(error.kind()),
    };
    let Some(mode) = mode_in(&matches) else {
        return Ok(None);
    };
    let workers = option_number(&matches, "workers");
    let spread = option_number(&matches, "spread");
    Ok(Some(CommandLine {
        mode,
        workers,
        spread,
    }))
}
