//! The program `kmc`: a run over the working directory and the standard output.
//!
//! `DiskFolder` and `ScreenSink` keep the promises of the folder and the screen that a run is
//! given. What the system's files and terminal hold is trusted, and reported by neither. The run
//! itself is `run_program` of `kmc_run`.
#![tactic(auto)]

mod disk_folder;
mod screen_sink;
#[cfg(test)]
mod tests;
mod transfer;

use disk_folder::DiskFolder;
use kmc_base::{OpenGate, Sink};
use kmc_run::{Status, run_program};
use screen_sink::ScreenSink;
use screen_text::{print_no_memory, print_usage};
use std::io::ErrorKind;
use std::process::ExitCode;
use std::rt::Env;
use std::{env, io};

/// The words after the program's name.
fn words(rt: &(impl Env + AllocGlobal)) -> io::Result<Vec<String>> {
    let words = env::args(rt)?.skip(1).collect(rt.alloc())?;
    Ok(words)
}

/// Tells that the words could not be read: one of them is not valid text, or memory ran out.
fn without_words<S: Sink>(screen: &mut S, error: &io::Error) -> Status {
    if error.kind() == ErrorKind::OutOfMemory {
        let _ = print_no_memory(screen);
        Status::OutOfMemory
    } else {
        let _ = print_usage(screen);
        Status::BadWords
    }
}

fn main(rt: HostRuntime) -> ExitCode {
    let mut screen = ScreenSink::new(rt.stdout());
    let status = match words(&rt) {
        Ok(words) => run_program(
            &rt,
            rt.alloc(),
            &words,
            &mut DiskFolder::new(&rt),
            &mut screen,
            &OpenGate,
        ),
        Err(error) => without_words(&mut screen, &error),
    };
    ExitCode::from(status.number())
}
