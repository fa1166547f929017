ghost use Rattle.std.specs.Prelude.{◌≤◌, ◌<◌, ℕ, Some, Err, length, take, vec_len, IfOk, IfErr, IfSome, OnOk, OnErr};
ghost use Rattle.std.specs.Bool.{OnTrue};
ghost use Rattle.std.specs.Io.KnownBytes.{Appends, IsAtEnd, Keeps, prepend_known};
ghost use Rattle.kmc_base.specs.Files.{Loads};

use kmc_base::{Failed, LoadFault};
use std::alloc::Global;
use std::io::{ErrorKind, Read, Write};

/// How many bytes one read asks for.
const CHUNK: usize = 8192;

/// Writes a whole piece. After a fault a front of it was written.
pub(crate) fn write_whole<W: Write>(to: &mut W, piece: &[u8]) -> Result<(), Failed>
    ensures ok { OnOk result (Appends (W.contents to.old) (W.contents to.new) piece.now) }
    ensures err { OnErr result ((n : ℕ) × Appends (W.contents to.old) (W.contents to.new) (take n piece.now)) }
{
    let mut left = piece;
    for _ in 0..u64::MAX {
        if left.is_empty() {
            return Ok(());
        }
        match to.write(left) {
            Ok(0) => return Err(Failed),
            Ok(taken) => left = &left[taken..],
            Err(error) => {
                if error.kind() != ErrorKind::Interrupted {
                    return Err(Failed);
                }
            }
        }
    }
    Err(Failed)
}

/// Reads once more behind the bytes that are there, and says whether the end was reached.
fn read_more<S: Read>(
    from: &mut S,
    chunk: &mut [u8],
    bytes: &mut Vec<u8>,
    max: usize,
) -> Result<bool, LoadFault>
    requires room { 0 < length chunk.old }
    requires within { vec_len bytes.old ≤ max }
    ensures whole { OnOk result (Keeps (prepend_known bytes.old.items (S.remaining from.old))
        (prepend_known bytes.new.items (S.remaining from.new))) }
    ensures within { OnOk result (vec_len bytes.new ≤ max) }
    ensures end { IfOk result (λ ended. OnTrue ended (IsAtEnd (S.remaining from.new))) }
    ensures err { IfErr result (λ fault. IfSome (prepend_known bytes.old.items (S.remaining from.old))
        (λ all. Loads (Some all) max (Err fault))) }
{
    match from.read(chunk) {
        Ok(count) if count > max - bytes.len() => Err(LoadFault::TooLong),
        Ok(count) => match bytes.extend_from_slice(&chunk[..count]) {
            Ok(()) => Ok(count == 0),
            Err(_) => Err(LoadFault::OutOfMemory),
        },
        Err(error) if error.kind() == ErrorKind::Interrupted => Ok(false),
        Err(_) => Err(LoadFault::Failed),
    }
}

/// Reads to the end. It stops as soon as there are more than `max` bytes.
pub(crate) fn read_whole<S: Read>(
    alloc: Global,
    from: &mut S,
    max: usize,
) -> Result<Vec<u8>, LoadFault>
    ensures { IfSome (S.remaining from.old) (λ all. Loads (Some all) max result) }
{
    let mut bytes = Vec::new(alloc);
    let mut chunk = [0u8; CHUNK];
    for _ in 0..u64::MAX {
        match read_more(from, &mut chunk, &mut bytes, max) {
            Ok(true) => return Ok(bytes),
            Ok(false) => {}
            Err(fault) => return Err(fault),
        }
    }
    Err(LoadFault::Failed)
}
