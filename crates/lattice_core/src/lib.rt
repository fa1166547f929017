//! The lattice of a surface: which sites are neighbours, which lie near one another, and what is on them.
//!
//! A `Graph` is symmetric by its type, and `Graph::new` names the first fault of lists that make none. `ball` is the
//! rising list of the sites within a distance. A `Config` has the state of each site, and stays well formed as
//! adsorbates are put on it and taken off it; each read of a state is counted by `Steps`. `States` is what shows states:
//! a `Window` over a ball, an `Overlay` over another, or a `Bare` lattice. It uses kmc_base.
#![tactic(auto)]

mod ball;
mod check;
mod config;
mod fault;
mod given;
mod graph;
mod site_list;
mod state;
mod states;
mod steps;
mod window;

pub use config::Config;
pub use fault::GraphFault;
pub use graph::{Graph, MAX_NEIGHBOURS};
pub use kmc_base::MAX_DENTATES;
pub use state::State;
pub use states::{Bare, Overlay, States};
pub use steps::Steps;
pub use window::Window;
