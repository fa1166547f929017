//! What every layer of kmc shares: the numbers of sites, species, processes and files, the times at
//! which instances fire, entries of the list of possible events, and the folder, the screen and the
//! gate through which a run meets the outside.
#![tactic(auto)]

mod entry;
mod error;
mod fault_counts;
mod file_texts;
mod firing_time;
mod folder;
mod gate;
mod ids;
mod limits;
mod memory_folder;
mod memory_sink;
mod numbered;
mod output;
mod sequence;
mod sink;

pub use entry::{Entry, Firing};
pub use error::{Failed, OutOfMemory};
pub use fault_counts::FaultCounts;
pub use firing_time::When;
pub use folder::{Folder, LoadFault};
pub use gate::{Gate, OpenGate};
pub use ids::{ClusterId, FileId, OutId, ProcId, SiteId, SpeciesId};
pub use limits::{
    END_OF_TIME, MAX_DENTATES, MAX_ENERGY, MAX_EVENTS, MAX_FILE_BYTES, MAX_SITES, MAX_SPECIES,
    MAX_TEMPERATURE,
};
pub use memory_folder::MemoryFolder;
pub use memory_sink::MemorySink;
pub use sequence::Sequence;
pub use sink::Sink;
