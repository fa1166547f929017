ghost use Rattle.std.specs.Prelude.{◌≡◌, None};

use crate::transfer::{read_whole, write_whole};
use kmc_base::{Failed, FaultCounts, FileId, Folder, LoadFault, OutId};
use std::alloc::Global;
use std::fs::{File, OpenOptions};
use std::io::ErrorKind;
use std::rt::Files;

/// The working directory as a folder. It counts its faults from 0, up to 2^64 - 1, and does not
/// report what its files hold.
#[derive(Drop)]
pub struct DiskFolder<R: Files> {
    runtime: R,
    outputs: OpenOutputs<R::File>,
    faults: FaultCounts,
}

/// The outputs that are open for writing, each at its end. One that failed is closed: its next
/// piece opens it again at its end.
#[derive(Drop)]
struct OpenOutputs<F> {
    history: Option<F>,
    procstat: Option<F>,
    specnum: Option<F>,
}

impl<F: Drop> OpenOutputs<F> {
    fn none() -> Self {
        OpenOutputs {
            history: None,
            procstat: None,
            specnum: None,
        }
    }

    fn take(&mut self, out: OutId) -> Option<F> {
        match out {
            OutId::History => self.history.take(),
            OutId::Procstat => self.procstat.take(),
            OutId::Specnum => self.specnum.take(),
        }
    }

    fn keep(&mut self, out: OutId, file: F) {
        match out {
            OutId::History => self.history = Some(file),
            OutId::Procstat => self.procstat = Some(file),
            OutId::Specnum => self.specnum = Some(file),
        }
    }
}

fn load_input<R: Files>(
    runtime: &R,
    alloc: Global,
    name: &str,
    max: usize,
) -> Result<Vec<u8>, LoadFault> {
    match File::open(runtime, name) {
        Ok(mut file) => read_whole(alloc, &mut file, max),
        Err(error) if error.kind() == ErrorKind::NotFound => Err(LoadFault::Absent),
        Err(_) => Err(LoadFault::Failed),
    }
}

/// Opens an output for writing at its end, and makes it where it is not there.
fn open_at_end<R: Files>(runtime: &R, name: &str) -> Result<R::File, Failed> {
    let mut options = OpenOptions::new();
    options.append(true).create(true);
    options.open(runtime, name).map_err(|_| Failed)
}

/// Adds a piece at the end of an output, which may be open already, and gives it back open.
fn add_at_end<R: Files>(
    runtime: &R,
    open: Option<R::File>,
    name: &str,
    piece: &[u8],
) -> Result<R::File, Failed> {
    let mut file = match open {
        Some(file) => file,
        None => open_at_end(runtime, name)?,
    };
    write_whole(&mut file, piece)?;
    Ok(file)
}

impl<R: Files> DiskFolder<R> {
    /// The working directory of a runtime. Nothing of it has failed yet.
    pub fn new(runtime: R) -> Self
        ensures read_faults { (file : _) → ⟦<DiskFolder<R> as Folder>⟧.read_faults result file ≡ 0 }
        ensures write_faults { (out : _) → ⟦<DiskFolder<R> as Folder>⟧.write_faults result out ≡ 0 }
        ensures files { ⟦<DiskFolder<R> as Folder>⟧.files result ≡ None }
        ensures outs { ⟦<DiskFolder<R> as Folder>⟧.outs result ≡ None }
    {
        DiskFolder {
            runtime,
            outputs: OpenOutputs::none(),
            faults: FaultCounts::none(),
        }
    }
}

impl<R: Files> Folder for DiskFolder<R> {
    ghost use Rattle.std.specs.Prelude.{None};
    ghost use Rattle.kmc_base.specs.FaultCounts.{reads_of, writes_of};

    ghost read_faults = { λ d. reads_of d.faults };

    ghost write_faults = { λ d. writes_of d.faults };

    ghost files = { λ _. None };

    ghost outs = { λ _. None };

    ghost loads = { λ _. None };

    fn load(&mut self, alloc: Global, file: FileId, max: usize) -> Result<Vec<u8>, LoadFault> {
        let loaded = load_input(&self.runtime, alloc, file.name(), max);
        if let Err(LoadFault::Failed) = &loaded {
            self.faults.read_failed(file);
        }
        loaded
    }

    fn begin(&mut self, out: OutId) -> Result<(), Failed> {
        let _ = self.outputs.take(out);
        match File::create(&self.runtime, out.name()) {
            Ok(file) => {
                self.outputs.keep(out, file);
                Ok(())
            }
            Err(_) => {
                self.faults.write_failed(out);
                Err(Failed)
            }
        }
    }

    fn append(&mut self, out: OutId, piece: &[u8]) -> Result<(), Failed> {
        let open = self.outputs.take(out);
        match add_at_end(&self.runtime, open, out.name(), piece) {
            Ok(file) => {
                self.outputs.keep(out, file);
                Ok(())
            }
            Err(Failed) => {
                self.faults.write_failed(out);
                Err(Failed)
            }
        }
    }
}
