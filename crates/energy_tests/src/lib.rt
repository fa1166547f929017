//! Tests of the crates of firing, energies and rates: what firing makes of a configuration, energies of configurations,
//! reaction energies, barriers, factors and rates, through their public calls.
#![tactic(auto)]

#[cfg(test)]
mod configuration_energies;
#[cfg(test)]
mod fired_steps;
#[cfg(test)]
mod instance_energies;
#[cfg(test)]
mod occupied_sites;
#[cfg(test)]
mod rates_over_barriers;
#[cfg(test)]
mod small_chemistries;
