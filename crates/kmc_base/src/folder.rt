ghost use Rattle.std.specs.Prelude.{◌≡◌, ◌↔◌, ℕ, Option, OnOk, OnErr, IfSome, IsErrOf, IsTrue};
ghost use Rattle.std.specs.Option.{option_map};
ghost use Rattle.kmc_base.specs.Faults.{IsCount, Rose, SameCounts, SameCountsBut};
ghost use Rattle.kmc_base.specs.Files.{Files, Loads, UnlessFailed, file_of};
ghost use Rattle.kmc_base.specs.Numbered.{Numbered, next_fails, one_call_more};
ghost use Rattle.kmc_base.specs.Outs.{Outs, MayAppend, MayBegin, appended, begun};
ghost use Rattle.kmc_base.specs.Told.{Tells};
ghost use Rattle.kmc_base.specs.declared.ids.FileId.{FileId};
ghost use Rattle.kmc_base.specs.declared.ids.OutId.{OutId};

use crate::error::Failed;
use crate::ids::{FileId, OutId};
use std::alloc::Global;

/// Why a file was not loaded.
#[derive(Clone, Copy, Debug, PartialEq, Eq, Hash)]
pub enum LoadFault {
    /// There is no such file.
    Absent,
    /// It has more than `max` bytes.
    TooLong,
    /// Reading it failed.
    Failed,
    /// There was no memory for it.
    OutOfMemory,
}

/// The folder that a run reads its deck from and writes its outputs to.
///
/// A count of faults rises only in a call that answers `Failed`, and only that of its file or output. It is at most
/// 2^64 - 1, and stays there.
///
/// It may report what its files and outputs hold, and which loads fail: a real directory reports nothing.
pub trait Folder {
    /// How often reading each file has failed.
    ghost read_faults: { Self → FileId → ℕ };

    /// How often beginning or writing each output has failed.
    ghost write_faults: { Self → OutId → ℕ };

    /// The bytes of its input files, if it reports them.
    ghost files: { Self → Option Files };

    /// The bytes of its outputs, if it reports them.
    ghost outs: { Self → Option Outs };

    /// Which of its loads fail, by their numbers, and how many were made, if it reports that.
    ghost loads: { Self → Option Numbered };

    /// Reads a whole file.
    ///
    /// # Errors
    ///
    /// If the folder reports its files, `Absent` comes only if there is no such file, and `TooLong` only
    /// if it has more than `max` bytes. If it reports which loads fail, `Failed` comes at those, and at no
    /// other.
    fn load(&mut self, alloc: Global, file: FileId, max: usize) -> Result<Vec<u8>, LoadFault>
        ensures answer { IfSome (files self.old) (λ told. Loads (file_of told file) max result) }
        ensures cause { IsErrOf result LoadFault.Failed → Rose (read_faults self.old file) (read_faults self.new file) }
        ensures few { IsErrOf result LoadFault.Failed → IsCount (read_faults self.new file) }
        ensures no_fault { UnlessFailed result (SameCounts (read_faults self.old) (read_faults self.new)) }
        ensures other_reads { SameCountsBut file (read_faults self.old) (read_faults self.new) }
        ensures writes { SameCounts (write_faults self.old) (write_faults self.new) }
        ensures files { files self.new ≡ files self.old }
        ensures outs { outs self.new ≡ outs self.old }
        ensures numbered { IfSome (loads self.old) (λ calls. IsErrOf result LoadFault.Failed ↔ IsTrue (next_fails calls)) }
        ensures loads { loads self.new ≡ option_map one_call_more (loads self.old) };

    /// Makes an output empty, and creates it where it is not there.
    ///
    /// # Errors
    ///
    /// A begin that failed leaves the output as it was, or empty.
    fn begin(&mut self, out: OutId) -> Result<(), Failed>
        ensures ok { OnOk result (Tells (outs self.old) (outs self.new) (λ then now. now ≡ begun out then)) }
        ensures err { OnErr result (Tells (outs self.old) (outs self.new) (MayBegin out)) }
        ensures cause { OnErr result (Rose (write_faults self.old out) (write_faults self.new out)) }
        ensures few { OnErr result (IsCount (write_faults self.new out)) }
        ensures no_fault { OnOk result (SameCounts (write_faults self.old) (write_faults self.new)) }
        ensures other_writes { SameCountsBut out (write_faults self.old) (write_faults self.new) }
        ensures reads { SameCounts (read_faults self.old) (read_faults self.new) }
        ensures files { files self.new ≡ files self.old }
        ensures loads { loads self.new ≡ loads self.old };

    /// Adds bytes at the end of an output. An output that is not there counts as empty.
    ///
    /// # Errors
    ///
    /// An append that failed may have added the first of the bytes.
    fn append(&mut self, out: OutId, piece: &[u8]) -> Result<(), Failed>
        ensures ok { OnOk result (Tells (outs self.old) (outs self.new) (λ then now. now ≡ appended out piece.now then)) }
        ensures err { OnErr result (Tells (outs self.old) (outs self.new) (MayAppend out piece.now)) }
        ensures cause { OnErr result (Rose (write_faults self.old out) (write_faults self.new out)) }
        ensures few { OnErr result (IsCount (write_faults self.new out)) }
        ensures no_fault { OnOk result (SameCounts (write_faults self.old) (write_faults self.new)) }
        ensures other_writes { SameCountsBut out (write_faults self.old) (write_faults self.new) }
        ensures reads { SameCounts (read_faults self.old) (read_faults self.new) }
        ensures files { files self.new ≡ files self.old }
        ensures loads { loads self.new ≡ loads self.old };
}
