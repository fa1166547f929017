ghost use Rattle.std.specs.Prelude.{◌≡◌};

use crate::ids::{FileId, OutId};

/// How often each input file and each output has failed: counts from 0 that stay at 2^64 - 1 once
/// they are there.
#[derive(Clone, Copy, Debug, PartialEq, Eq)]
pub struct FaultCounts {
    /// By input file, in the order of `FileId`.
    pub reads: [u64; 5],
    /// By output, in the order of `OutId`.
    pub writes: [u64; 3],
}

impl FaultCounts {
    ghost use Rattle.kmc_base.specs.FaultCounts.{read_failed, write_failed, reads_of, writes_of};
    ghost use Rattle.kmc_base.specs.Faults.{IsCount, Rose, SameCounts, SameCountsBut};

    /// No fault yet.
    pub fn none() -> Self
        ensures reads { (file : _) → reads_of result file ≡ 0 }
        ensures writes { (out : _) → writes_of result out ≡ 0 }
    {
        FaultCounts {
            reads: [0; 5],
            writes: [0; 3],
        }
    }

    /// Counts one more fault of reading a file.
    pub fn read_failed(&mut self, file: FileId)
        ensures left { self.new ≡ read_failed self.old file }
        ensures rose { Rose (reads_of self.old file) (reads_of self.new file) }
        ensures few { IsCount (reads_of self.new file) }
        ensures other_reads { SameCountsBut file (reads_of self.old) (reads_of self.new) }
        ensures writes { SameCounts (writes_of self.old) (writes_of self.new) }
    {
        let place = file as usize;
        self.reads[place] = self.reads[place].saturating_add(1);
    }

    /// Counts one more fault of an output.
    pub fn write_failed(&mut self, out: OutId)
        ensures left { self.new ≡ write_failed self.old out }
        ensures rose { Rose (writes_of self.old out) (writes_of self.new out) }
        ensures few { IsCount (writes_of self.new out) }
        ensures other_writes { SameCountsBut out (writes_of self.old) (writes_of self.new) }
        ensures reads { SameCounts (reads_of self.old) (reads_of self.new) }
    {
        let place = out as usize;
        self.writes[place] = self.writes[place].saturating_add(1);
    }
}
