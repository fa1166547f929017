use deck_shape::{DeckFault, Fault, read_shape};
use energetics_deck::{EnergeticsPart, read};
use kmc_base::{FileId, MAX_FILE_BYTES, OutOfMemory};
use std::alloc::Global;

/// The values of a text, or its first fault of form or of a value.
pub(crate) fn read_text(alloc: Global, text: &[u8]) -> Result<EnergeticsPart, DeckFault> {
    if text.len() > MAX_FILE_BYTES {
        return Err(DeckFault::OutOfMemory);
    }
    let shape = read_shape(alloc, FileId::Energetics, text)?;
    read(alloc, text, &shape)
}

/// The line and the kind of the fault of a text; None where it has none.
pub(crate) fn fault_of(alloc: Global, text: &[u8]) -> Result<Option<(u32, u8)>, OutOfMemory> {
    match read_text(alloc, text) {
        Ok(_) => Ok(None),
        Err(DeckFault::Fault(Fault { line, kind, .. })) => Ok(Some((line, kind))),
        Err(DeckFault::OutOfMemory) => Err(OutOfMemory),
    }
}
