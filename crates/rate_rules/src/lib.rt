//! The energies and rates of lattice kinetic Monte Carlo (Nielsen et al. 2013): the energy of a configuration by a cluster
//! expansion, the reaction energy and the barrier of an instance of a process, and its rate.
//!
//! `energy` is the sum over the clusters of their share for each placement that matches. `whole_change` is the reaction
//! energy of an instance by two such sums over the whole lattice, and `zero_change` the same on a lattice with nothing but
//! the entities of the instance. `barrier` and `lg_rate` turn both into a barrier and the logarithm of a rate, and
//! `factor_of` makes the factor of a process from its pre-exponential factor and the gas that it consumes. `whole_rate` is the
//! rate of an instance in one call. `match_is_in_wanted_states` does nothing: its contract is a law.
//!
//! The crate builds on `firing` for what a process makes of a configuration, on `pattern_list` for placements, on
//! `fixed_math` for logarithms, and on `trajectory` for systems of events, of which a chemistry is one.
#![tactic(auto)]

mod barriers;
mod chemistry;
mod energies;
mod factor;
mod hold;
mod instance_rate;
mod matched;
mod rate;
mod reaction;

pub use barriers::barrier;
pub use chemistry::{Chemistry, Cluster, Process};
pub use energies::energy;
pub use factor::factor_of;
pub use instance_rate::whole_rate;
pub use matched::match_is_in_wanted_states;
pub use rate::lg_rate;
pub use reaction::{whole_change, zero_change};
