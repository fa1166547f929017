ghost use Rattle.std.specs.Prelude.{◌≡◌, [], ◌∷◌};
ghost use Rattle.kmc_run.specs.Writes.{Append, Begin, Wrote, state_by};

use crate::drive_fault::DriveFault;
use kmc_base::{Folder, OutId};

/// Begins an output.
pub(crate) fn begin<F: Folder>(folder: &mut F, out: OutId) -> Result<(), DriveFault>
    ensures { Wrote (Begin out ∷ []) result
        (state_by F.files F.outs F.read_faults F.write_faults F.loads folder.old)
        (state_by F.files F.outs F.read_faults F.write_faults F.loads folder.new) }
{
    match folder.begin(out) {
        Ok(()) => Ok(()),
        Err(_) => Err(DriveFault::WriteFault(out)),
    }
}

/// Adds a piece to an output.
pub(crate) fn append<F: Folder>(folder: &mut F, out: OutId, piece: &[u8]) -> Result<(), DriveFault>
    ensures { Wrote (Append out piece.now ∷ []) result
        (state_by F.files F.outs F.read_faults F.write_faults F.loads folder.old)
        (state_by F.files F.outs F.read_faults F.write_faults F.loads folder.new) }
{
    match folder.append(out, piece) {
        Ok(()) => Ok(()),
        Err(_) => Err(DriveFault::WriteFault(out)),
    }
}
