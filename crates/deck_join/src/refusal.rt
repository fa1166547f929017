use deck_shape::Fault;
use kmc_base::FileId;

/// Why no deck was read from a folder.
#[derive(Clone, Copy, Debug, PartialEq, Eq)]
pub enum DeckRefusal {
    /// A file could not be read.
    Load(FileId),
    /// The first fault of the files.
    Fault(Fault),
    /// Memory was refused. It says nothing of the files.
    OutOfMemory,
}
