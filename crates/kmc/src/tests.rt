use super::*;
use crate::transfer::{read_whole, write_whole};
use kmc_base::{Failed, FileId, Folder, LoadFault, OutId};
use std::alloc::Global;
use std::fs;
use std::io::{Read, Write};
use std::process::Abort;
use std::rt::Files;
use std::test::Fail;

const INPUTS: &[(FileId, &str)] = &[
    (FileId::Simulation, "simulation_input.dat"),
    (FileId::Lattice, "lattice_input.dat"),
    (FileId::Energetics, "energetics_input.dat"),
    (FileId::Mechanism, "mechanism_input.dat"),
    (FileId::State, "state_input.dat"),
];

const OUTPUTS: &[(OutId, &str)] = &[
    (OutId::History, "history_output.txt"),
    (OutId::Procstat, "procstat_output.txt"),
    (OutId::Specnum, "specnum_output.txt"),
];

/// Looks at a load of an input, of at most so many bytes.
fn loads<R: Files + Abort>(
    rt: &R,
    alloc: Global,
    file: FileId,
    max: usize,
    expected: Result<&str, LoadFault>,
) -> Result<(), Fail> {
    match (DiskFolder::new(rt).load(alloc, file, max), expected) {
        (Ok(bytes), Ok(text)) => assert_eq!(rt; bytes.as_slice(), text.as_bytes()),
        (loaded, expected) => assert_eq!(rt; loaded.err(), expected.err()),
    }
    Ok(())
}

#[test]
fn inputs_are_read_from_the_working_directory(rt: HostRuntime) -> Result<(), Fail> {
    // Each file holds its own name.
    for (file, name) in INPUTS {
        assert_eq!(rt; file.name(), *name);
        loads(&rt, rt.alloc(), *file, 100, Err(LoadFault::Absent))?;
        fs::write(&rt, *name, *name)?;
        loads(&rt, rt.alloc(), *file, name.len(), Ok(*name))?;
        let less = name.len().saturating_sub(1);
        loads(&rt, rt.alloc(), *file, less, Err(LoadFault::TooLong))?;
        fs::remove_file(&rt, *name)?;
    }
    Ok(())
}

/// Adds its own name to each output, and then a point to each.
fn append_in_turn<R: Files>(folder: &mut DiskFolder<R>) -> Result<(), Failed> {
    for (out, name) in OUTPUTS {
        folder.append(*out, name.as_bytes())?;
    }
    for (out, _) in OUTPUTS {
        folder.append(*out, b".")?;
    }
    Ok(())
}

/// Begins each output, which may be open, and adds no bytes to it.
fn begin_in_turn<R: Files>(folder: &mut DiskFolder<R>) -> Result<(), Failed> {
    for (out, _) in OUTPUTS {
        folder.begin(*out)?;
        folder.append(*out, b"")?;
    }
    Ok(())
}

/// Looks at what each output holds: its name, the point and what follows.
fn holds<R: Files + AllocGlobal + Abort>(rt: &R, rest: &str) -> Result<(), Fail> {
    for (_, name) in OUTPUTS {
        let text = format!(in rt.alloc(); "{name}.{rest}")?;
        assert_eq!(rt; fs::read_to_string(rt, *name)?, text);
    }
    Ok(())
}

#[test]
fn outputs_are_written_to_the_working_directory(rt: HostRuntime) -> Result<(), Fail> {
    // The outputs are there only from the first append on. A begin empties them, and a new folder adds at their ends.
    append_in_turn(&mut DiskFolder::new(&rt))?;
    holds(&rt, "")?;
    let mut folder = DiskFolder::new(&rt);
    for _ in 0..2 {
        begin_in_turn(&mut folder)?;
        append_in_turn(&mut folder)?;
        holds(&rt, "")?;
    }
    for (out, name) in OUTPUTS {
        assert_eq!(rt; out.name(), *name);
        DiskFolder::new(&rt).append(*out, b" more")?;
    }
    holds(&rt, " more")
}

#[test]
fn screen_takes_a_piece(rt: HostRuntime) {
    let mut screen = ScreenSink::new(rt.stdout());
    assert_eq!(rt; screen.put(b"a piece\n"), Ok(()));
    assert_eq!(rt; screen.put(b""), Ok(()));
}

/// Bytes that come and go one at a call. Every other call is interrupted, the first among them, and that of a number
/// fails.
#[derive(Debug, Drop)]
struct Slow {
    bytes: Vec<u8>,
    done: usize,
    calls: u64,
    failing: u64,
}

impl Slow {
    /// Bytes of which the call of this number fails.
    fn new(bytes: Vec<u8>, failing: u64) -> Slow {
        Slow {
            bytes,
            done: 0,
            calls: 0,
            failing,
        }
    }

    /// Counts a call, and says whether it goes on.
    fn call(&mut self) -> io::Result<()> {
        self.calls = self.calls.saturating_add(1);
        if self.calls == self.failing {
            Err(io::Error::from(ErrorKind::Other))
        } else if self.calls % 2 == 1 {
            Err(io::Error::from(ErrorKind::Interrupted))
        } else {
            Ok(())
        }
    }
}

impl Read for Slow {
    fn read(&mut self, buf: &mut [u8]) -> io::Result<usize> {
        self.call()?;
        match (self.bytes.get(self.done), buf.first_mut()) {
            (Some(byte), Some(place)) => {
                *place = *byte;
                self.done = self.done.saturating_add(1);
                Ok(1)
            }
            _ => Ok(0),
        }
    }
}

impl Write for Slow {
    fn write(&mut self, buf: &[u8]) -> io::Result<usize> {
        self.call()?;
        match buf.first() {
            Some(byte) => {
                self.bytes.push(*byte)?;
                Ok(1)
            }
            None => Ok(0),
        }
    }

    fn flush(&mut self) -> io::Result<()> {
        Ok(())
    }
}

#[test]
fn goes_on_after_an_interruption(rt: HostRuntime) -> Result<(), Fail> {
    for (failing, is_read, written) in [(0, true, "abc"), (4, false, "a")] {
        let mut from = Slow::new(b"abc".to_vec(rt.alloc())?, failing);
        match read_whole(rt.alloc(), &mut from, 3) {
            Ok(bytes) => assert_eq!(rt; (bytes.as_slice(), is_read), (b"abc".as_slice(), true)),
            Err(fault) => assert_eq!(rt; (fault, is_read), (LoadFault::Failed, false)),
        }
        let mut to = Slow::new(Vec::new(rt.alloc()), failing);
        assert_eq!(rt; write_whole(&mut to, b"abc").is_ok(), is_read);
        assert_eq!(rt; to.bytes.as_slice(), written.as_bytes());
    }
    Ok(())
}

#[test]
fn words_that_could_not_be_read(rt: HostRuntime) {
    let mut screen = ScreenSink::new(rt.stdout());
    let no_memory = io::Error::from(ErrorKind::OutOfMemory);
    assert_eq!(rt; without_words(&mut screen, &no_memory), Status::OutOfMemory);
    let no_text = io::Error::from(ErrorKind::InvalidData);
    assert_eq!(rt; without_words(&mut screen, &no_text), Status::BadWords);
}
