//! What a run prints: the heads and the samples of its three output files, and the lines for the screen.
//!
//! Each call adds exactly the text of its definition to the end of what is there, and leaves that as it was where memory is
//! refused. `View` is what a sample shows, without copies. `adsorbates` counts the adsorbates of all surface species in one
//! pass over the lattice.
//!
//! The crate uses dec_text for numbers with decimals, deck for the names and the lattice, and lattice_core for what is on
//! the sites. It decides nothing about when a sample is due.
#![tactic(auto)]

mod counting;
mod history;
mod procstat;
mod specnum;
mod summary;
mod view;
mod words;

pub use counting::adsorbates;
pub use history::{history_head, history_piece};
pub use procstat::{procstat_head, procstat_piece};
pub use specnum::{specnum_head, specnum_piece};
pub use summary::{done_line, summary_text};
pub use view::View;
