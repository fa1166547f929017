ghost use Rattle.std.specs.Prelude.{◌≡◌, ◌+◌, ◌<◌, ◌≤◌, ℕ, [], ◌∷◌, All, IfOk, OnOk, OnErr, length, map};
ghost use Rattle.lattice_core.specs.Ball.{ball};
ghost use Rattle.lattice_core.specs.Config.{state_at};
ghost use Rattle.lattice_core.specs.Lattice.{site_count};
ghost use Rattle.lattice_core.specs.Shown.{InWindow, state_in_window};
ghost use Rattle.lattice_core.specs.SiteList.{site_numbers};

use crate::config::Config;
use crate::graph::Graph;
use crate::site_list::find_site;
use crate::state::State;
use crate::states::States;
use crate::steps::Steps;
use kmc_base::{OutOfMemory, SiteId};
use std::alloc::Global;
use std::marker::Model;
use std::sync::ledger::Ledger;

/// The states of the sites of a ball, as they were when it was loaded.
#[derive(Debug, Drop)]
pub struct Window {
    sites: Vec<SiteId>,
    states: Vec<State>,
}

impl Model for Window {
    ghost use Rattle.std.specs.Prelude.{◌≡◌, length};
    ghost use Rattle.std.specs.List.Sorted.{IsStrictlyIncreasing};
    ghost use Rattle.lattice_core.specs.Shown.{Seen};
    ghost use Rattle.lattice_core.specs.SiteList.{site_numbers};

    ghost Value = { Seen };

    ghost view = { λ w. record { sites = site_numbers w.sites.items; states = w.states.items } };

    ghost invariant = { λ w. IsStrictlyIncreasing (site_numbers w.sites.items)
        × (length w.states.items ≡ length w.sites.items) };
}

/// The states of some sites. It counts a read of each.
fn read_states<L: Ledger>(
    alloc: Global,
    config: &Config,
    sites: &[SiteId],
    steps: &mut Steps<L>,
) -> Result<Vec<State>, OutOfMemory>
    requires { All (λ s. s < length config.now) (site_numbers sites.now) }
    ensures states { IfOk result (λ v. v.items ≡ map (state_at config.now) (site_numbers sites.now)) }
    ensures reads { OnOk result (steps.new ≡ steps.old + length sites.now) }
    ensures at_least { steps.old ≤ steps.new }
    ensures at_most { steps.new ≤ steps.old + length sites.now }
{
    let mut states = Vec::new(alloc);
    for site in sites {
        states.push(config.at(*site, steps))?;
    }
    Ok(states)
}

impl Window {
    /// A window that covers no site yet.
    pub fn new(alloc: Global) -> Window
        ensures { result.sites ≡ [] }
    {
        Window {
            sites: Vec::new(alloc),
            states: Vec::new(alloc),
        }
    }

    /// Fills it with the states of the sites within a distance of the anchor. It counts a read of each.
    ///
    /// After a refusal it covers no site.
    pub fn load<L: Ledger>(
        &mut self,
        alloc: Global,
        graph: &Graph,
        config: &Config,
        anchor: SiteId,
        radius: u32,
        steps: &mut Steps<L>,
    ) -> Result<(), OutOfMemory>
        requires anchor { anchor.0 < site_count graph.now }
        requires configuration { length config.now ≡ site_count graph.now }
        ensures covers { OnOk result (self.new.sites ≡ ball graph.now (anchor.0 ∷ []) radius) }
        ensures shows { OnOk result ((s : ℕ) → InWindow self.new s → state_in_window self.new s ≡ state_at config.now s) }
        ensures none { OnErr result (self.new.sites ≡ []) }
        ensures reads { OnOk result (steps.new ≡ steps.old + length (ball graph.now (anchor.0 ∷ []) radius)) }
        ensures at_least { steps.old ≤ steps.new }
        ensures at_most { steps.new ≤ steps.old + length (ball graph.now (anchor.0 ∷ []) radius) }
    {
        self.sites.clear();
        self.states.clear();
        let sites = graph.ball(alloc, &[anchor], radius)?;
        let states = read_states(alloc, config, &sites, steps)?;
        self.sites = sites;
        self.states = states;
        Ok(())
    }
}

impl States for Window {
    ghost covers = { InWindow };

    ghost shown = { state_in_window };

    fn state(&self, s: SiteId) -> State {
        let place = find_site(&self.sites, s).unwrap();
        self.states[place]
    }
}
