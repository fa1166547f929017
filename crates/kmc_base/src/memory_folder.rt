ghost use Rattle.std.specs.Prelude.{◌≡◌, ◌↔◌, max, IsErr, IsErrOf, IsTrue, IfOk, IfErr, OnOk, OnErr, Some, option_copied};
ghost use Rattle.kmc_base.specs.FaultCounts.{reads_of, writes_of};
ghost use Rattle.kmc_base.specs.Faults.{IsCount, Rose, SameCounts, SameCountsBut};
ghost use Rattle.kmc_base.specs.Files.{file_of, files_of, Loads, UnlessFailed};
ghost use Rattle.kmc_base.specs.InMemory.{after_load, after_begin, after_append, told_out};
ghost use Rattle.kmc_base.specs.Numbered.{first_of, next_fails};
ghost use Rattle.kmc_base.specs.Outs.{no_outs};

use crate::error::{Failed, OutOfMemory};
use crate::fault_counts::FaultCounts;
use crate::file_texts::FileTexts;
use crate::folder::{Folder, LoadFault};
use crate::ids::{FileId, OutId};
use crate::numbered::Calls;
use crate::output::Output;
use std::alloc::{AllocError, Global};
use std::marker::Model;

/// A folder in memory, for tests: it reports its files, and its outputs as long as they stay within
/// the room reserved for them.
#[derive(Debug, Drop)]
pub struct MemoryFolder {
    files: FileTexts,
    history: Output,
    procstat: Output,
    specnum: Output,
    telling: bool,
    room: usize,
    loads: Calls,
    begins: Calls,
    appends: Calls,
    faults: FaultCounts,
}

impl Model for MemoryFolder {
    ghost use Rattle.std.specs.Prelude.{Some, None, if◌then◌else◌};
    ghost use Rattle.kmc_base.specs.InMemory.{FolderInMemory};

    ghost Value = { FolderInMemory };

    ghost use Rattle.kmc_base.specs.Room.{IsWithin, told};

    ghost view = { λ m. record {
      files = m.files;
      outs = if m.telling then Some (record { history = told m.history; procstat = told m.procstat; specnum = told m.specnum }) else None;
      room = m.room;
      loads = m.loads;
      begins = m.begins;
      appends = m.appends;
      faults = m.faults;
    } };

    ghost invariant = { λ m. IsWithin m.room m.history × IsWithin m.room m.procstat × IsWithin m.room m.specnum };
}

impl MemoryFolder {
    /// A folder of these files, without outputs and without room for them. Of two files with one id the
    /// first counts. The lists are the numbers, from 1, of the loads, begins and appends that fail.
    pub fn new(
        files: Vec<(FileId, Vec<u8>)>,
        loads: Vec<u64>,
        begins: Vec<u64>,
        appends: Vec<u64>,
    ) -> MemoryFolder
        ensures files { result.files ≡ files_of files.items }
        ensures outs { result.outs ≡ Some no_outs }
        ensures room { result.room ≡ 0 }
        ensures loads { result.loads ≡ first_of loads.items }
        ensures begins { result.begins ≡ first_of begins.items }
        ensures appends { result.appends ≡ first_of appends.items }
        ensures read_faults { (file : _) → reads_of result.faults file ≡ 0 }
        ensures write_faults { (out : _) → writes_of result.faults out ≡ 0 }
    {
        let alloc = *loads.allocator();
        MemoryFolder {
            files: FileTexts::of(files),
            history: Output::new(alloc),
            procstat: Output::new(alloc),
            specnum: Output::new(alloc),
            telling: true,
            room: 0,
            loads: Calls::new(loads),
            begins: Calls::new(begins),
            appends: Calls::new(appends),
            faults: FaultCounts::none(),
        }
    }

    /// Reserves room for `bytes` bytes in all of each output. Less room than there is changes nothing.
    ///
    /// # Errors
    ///
    /// Where memory is refused, the folder comes back as it was.
    pub fn with_room(mut self, bytes: usize) -> Result<MemoryFolder, (MemoryFolder, OutOfMemory)>
        ensures ok { IfOk result (λ folder. folder ≡ record self { room = max self.room bytes }) }
        ensures err { IfErr result (λ refused. refused.0 ≡ self) }
    {
        match self.reserve(bytes) {
            Ok(()) => Ok(self),
            Err(_) => Err((self, OutOfMemory)),
        }
    }

    fn reserve(&mut self, bytes: usize) -> Result<(), AllocError>
        ensures ok { OnOk result (self.new ≡ record self.old { room = max self.old.room bytes }) }
        ensures err { OnErr result (self.new ≡ self.old) }
    {
        self.history.reserve(self.room, bytes)?;
        self.procstat.reserve(self.room, bytes)?;
        self.specnum.reserve(self.room, bytes)?;
        self.room = self.room.max(bytes);
        Ok(())
    }

    /// The bytes of an output. `None` where there is no such output, or the folder has stopped reporting.
    pub fn output(&self, out: OutId) -> Option<&[u8]>
        ensures { option_copied result ≡ told_out self.now out }
    {
        if !self.telling {
            return None;
        }
        match out {
            OutId::History => self.history.told(),
            OutId::Procstat => self.procstat.told(),
            OutId::Specnum => self.specnum.told(),
        }
    }
}

impl Folder for MemoryFolder {
    ghost use Rattle.std.specs.Prelude.{Some};
    ghost use Rattle.kmc_base.specs.FaultCounts.{reads_of, writes_of};

    ghost read_faults = { λ m. reads_of m.faults };

    ghost write_faults = { λ m. writes_of m.faults };

    ghost files = { λ m. Some m.files };

    ghost outs = { λ m. m.outs };

    ghost loads = { λ m. Some m.loads };

    fn load(&mut self, alloc: Global, file: FileId, max: usize) -> Result<Vec<u8>, LoadFault>
        ensures left { self.new ≡ after_load file self.old }
        ensures fails { IsErrOf result LoadFault.Failed ↔ IsTrue (next_fails self.old.loads) }
        ensures answer { Loads (file_of self.old.files file) max result }
        ensures cause { IsErrOf result LoadFault.Failed → Rose (reads_of self.old.faults file) (reads_of self.new.faults file) }
        ensures few { IsErrOf result LoadFault.Failed → IsCount (reads_of self.new.faults file) }
        ensures no_fault { UnlessFailed result (SameCounts (reads_of self.old.faults) (reads_of self.new.faults)) }
        ensures other_reads { SameCountsBut file (reads_of self.old.faults) (reads_of self.new.faults) }
    {
        if self.loads.next() {
            self.faults.read_failed(file);
            return Err(LoadFault::Failed);
        }
        let bytes = self.files.get(file).ok_or(LoadFault::Absent)?;
        if bytes.len() > max {
            return Err(LoadFault::TooLong);
        }
        match Vec::from_slice(alloc, bytes.as_slice()) {
            Ok(copy) => Ok(copy),
            Err(_) => Err(LoadFault::OutOfMemory),
        }
    }

    fn begin(&mut self, out: OutId) -> Result<(), Failed>
        ensures left { self.new ≡ after_begin out self.old }
        ensures fails { IsErr result ↔ IsTrue (next_fails self.old.begins) }
        ensures cause { OnErr result (Rose (writes_of self.old.faults out) (writes_of self.new.faults out)) }
        ensures few { OnErr result (IsCount (writes_of self.new.faults out)) }
        ensures no_fault { OnOk result (SameCounts (writes_of self.old.faults) (writes_of self.new.faults)) }
        ensures other_writes { SameCountsBut out (writes_of self.old.faults) (writes_of self.new.faults) }
    {
        if self.begins.next() {
            self.faults.write_failed(out);
            return Err(Failed);
        }
        match out {
            OutId::History => self.history.begin(),
            OutId::Procstat => self.procstat.begin(),
            OutId::Specnum => self.specnum.begin(),
        }
        Ok(())
    }

    fn append(&mut self, out: OutId, piece: &[u8]) -> Result<(), Failed>
        ensures left { self.new ≡ after_append out piece.now self.old }
        ensures fails { IsErr result ↔ IsTrue (next_fails self.old.appends) }
        ensures cause { OnErr result (Rose (writes_of self.old.faults out) (writes_of self.new.faults out)) }
        ensures few { OnErr result (IsCount (writes_of self.new.faults out)) }
        ensures no_fault { OnOk result (SameCounts (writes_of self.old.faults) (writes_of self.new.faults)) }
        ensures other_writes { SameCountsBut out (writes_of self.old.faults) (writes_of self.new.faults) }
    {
        if self.appends.next() {
            self.faults.write_failed(out);
            return Err(Failed);
        }
        let fits = match out {
            OutId::History => self.history.append(self.room, piece),
            OutId::Procstat => self.procstat.append(self.room, piece),
            OutId::Specnum => self.specnum.append(self.room, piece),
        };
        self.telling = self.telling && fits;
        Ok(())
    }
}
