use kmc_base::{
    Failed, FaultCounts, FileId, Folder, Gate, LoadFault, MemoryFolder, OpenGate, OutId,
};
use std::alloc::Global;
use std::test::Fail;

/// The bytes that are told, or a text that no test writes.
fn told(bytes: Option<&[u8]>) -> &[u8] {
    bytes.unwrap_or("not told".as_bytes())
}

/// A folder of three files, of which two have one id. Its loads of these numbers fail.
fn folder_of_files(alloc: Global, failing: [u64; 2]) -> Result<MemoryFolder, Fail> {
    let files = vec![in alloc;
        (FileId::Lattice, Vec::from_slice(alloc, b"abc")?),
        (FileId::State, Vec::from_slice(alloc, b"de")?),
        (FileId::Lattice, Vec::from_slice(alloc, b"second")?),
    ]?;
    let loads = Vec::from_array(alloc, failing)?;
    Ok(MemoryFolder::new(files, loads, Vec::new(alloc), Vec::new(alloc)))
}

#[test]
fn folder_loads(rt: HostRuntime) -> Result<(), Fail> {
    // Of two files with one id the first counts. The second load and the fifth fail.
    const LOADS: &[(FileId, usize, &str, Option<LoadFault>)] = &[
        (FileId::Lattice, 3, "abc", None),
        (FileId::Lattice, 3, "no bytes", Some(LoadFault::Failed)),
        (FileId::Lattice, 2, "no bytes", Some(LoadFault::TooLong)),
        (FileId::Mechanism, 9, "no bytes", Some(LoadFault::Absent)),
        (FileId::Mechanism, 9, "no bytes", Some(LoadFault::Failed)),
        (FileId::State, 9, "de", None),
    ];
    let mut folder = folder_of_files(rt.alloc(), [2, 5])?;
    for (file, max, text, fault) in LOADS {
        match folder.load(rt.alloc(), *file, *max) {
            Ok(bytes) => assert_eq!(rt; bytes.as_slice(), text.as_bytes()),
            Err(answer) => assert_eq!(rt; Some(answer), *fault),
        }
    }
    Ok(())
}

/// A folder without files, with room for so many bytes of each output. Its second begin and its second append fail.
fn folder_with_room(alloc: Global, bytes: usize) -> Result<MemoryFolder, Fail> {
    let begins = Vec::from_array(alloc, [2])?;
    let appends = Vec::from_array(alloc, [2])?;
    let folder = MemoryFolder::new(Vec::new(alloc), Vec::new(alloc), begins, appends);
    folder.with_room(bytes).map_err(|refused| refused.1.into())
}

/// Adds a piece to an output, or begins it where there is no piece.
fn write(folder: &mut MemoryFolder, out: OutId, piece: Option<&str>) -> Result<(), Failed> {
    match piece {
        Some(piece) => folder.append(out, piece.as_bytes()),
        None => folder.begin(out),
    }
}

#[test]
fn folder_writes(rt: HostRuntime) -> Result<(), Fail> {
    // What is added, or None for a begin; whether it succeeds; the output after it. Past its room the folder stops
    // telling, for good.
    const WRITES: &[(OutId, Option<&str>, bool, &str)] = &[
        (OutId::History, None, true, ""),
        (OutId::History, Some("abc"), true, "abc"),
        (OutId::History, Some("x"), false, "abc"),
        (OutId::History, None, false, "abc"),
        (OutId::Specnum, Some("de"), true, "de"),
        (OutId::History, Some("def"), true, "abcdef"),
        (OutId::History, Some("g"), true, "not told"),
        (OutId::History, None, true, "not told"),
        (OutId::Specnum, Some(""), true, "not told"),
    ];
    let mut folder = folder_with_room(rt.alloc(), 6)?;
    assert!(rt; folder.output(OutId::History).is_none());
    for (out, piece, done, text) in WRITES {
        assert_eq!(rt; write(&mut folder, *out, *piece).is_ok(), *done);
        assert_eq!(rt; told(folder.output(*out)), text.as_bytes());
    }
    Ok(())
}

#[test]
fn faults_are_counted(rt: HostRuntime) {
    let mut counts = FaultCounts::none();
    counts.read_failed(FileId::Lattice);
    counts.write_failed(OutId::Specnum);
    assert_eq!(rt; counts.reads, [0, 1, 0, 0, 0]);
    assert_eq!(rt; counts.writes, [0, 0, 1]);
}

#[test]
fn an_open_gate_holds_nobody(_rt: HostRuntime) {
    OpenGate.after_claim(0, 1);
    OpenGate.after_put(0, 1);
}
