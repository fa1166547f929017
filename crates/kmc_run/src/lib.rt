//! kmc as a library: the commands, the run of a deck, what it writes and what is on the screen.
//!
//! `run_program` is the program, from its words and the bytes of its input files to its status and the bytes of its
//! outputs and of the screen. It uses `command_line` for the words, `deck_join` for the deck of the files or their first
//! fault, `kmc_core` for the trajectory of the deck, `kmc_report` for the samples that are due, `zacros_output` for their
//! text, `screen_text` for the texts on the screen, and the folder, the screen and the gate of `kmc_base` for the outside.
//! Four laws say what a run writes: `runs_go_to_their_stop`, `run_never_falls`, `writes_its_samples` and `samples_are_due`.
#![tactic(auto)]

mod drive_fault;
mod driving;
mod ending;
mod heads;
mod laws;
mod made;
mod program;
mod samples;
mod status;
mod summary;
mod writing;

pub use command_line::MAX_WORKERS;
pub use deck_shape::Fault;
pub use drive_fault::DriveFault;
pub use driving::drive;
pub use laws::{run_never_falls, runs_go_to_their_stop, samples_are_due, writes_its_samples};
pub use program::run_program;
pub use status::Status;
pub use summary::Summary;
