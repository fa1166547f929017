ghost use Rattle.std.specs.Prelude.{◌≡◌, None};

use crate::transfer::write_whole;
use kmc_base::{Failed, Sink};
use std::io;
use std::os::fd::AsFd;

/// The standard output as a screen. It counts its faults from 0, up to 2^64 - 1, and does not report
/// what it has taken.
#[derive(Drop)]
pub struct ScreenSink<W> {
    output: W,
    // Whether the output was open at the start. If it was not, a file that is opened later may have its descriptor, and
    // must not get what is for the screen.
    open: bool,
    faults: u64,
}

impl<W: Print + AsFd> ScreenSink<W> {
    /// The screen of an output. Make it before any file is opened. It has not failed yet.
    pub fn new(output: W) -> Self
        ensures faults { ⟦<ScreenSink<W> as Sink>⟧.faults result ≡ 0 }
        ensures taken { ⟦<ScreenSink<W> as Sink>⟧.taken result ≡ None }
    {
        let open = output.as_fd().try_clone_to_owned().is_ok();
        ScreenSink {
            output,
            open,
            faults: 0,
        }
    }
}

impl<W: Print> ScreenSink<W> {
    /// Writes a whole piece, if the output was open at the start. The output keeps nothing back, so there is nothing to flush.
    fn write(&self, piece: &[u8]) -> Result<(), Failed> {
        if self.open {
            write_whole(&mut io::writer(&self.output), piece)
        } else {
            Err(Failed)
        }
    }
}

impl<W: Print> Sink for ScreenSink<W> {
    ghost use Rattle.std.specs.Prelude.{None};

    ghost faults = { λ s. s.faults };

    ghost taken = { λ _. None };

    fn put(&mut self, piece: &[u8]) -> Result<(), Failed> {
        match self.write(piece) {
            Ok(()) => Ok(()),
            Err(Failed) => {
                self.faults = self.faults.saturating_add(1);
                Err(Failed)
            }
        }
    }
}
