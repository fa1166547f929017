ghost use Rattle.std.specs.Prelude.{◌≡◌, ◌≢◌, ◌+◌, ◌<◌, ◌≤◌, ℕ, All, AllPairs, IfOk, length, map, replicate, slice_set};
ghost use Rattle.lattice_core.specs.Config.{state_at, class_of, put, cleared, IsWholeAdsorbate, IsWellFormed};
ghost use Rattle.lattice_core.specs.SiteList.{site_numbers};

use crate::state::{State, class_of};
use crate::steps::Steps;
use kmc_base::{MAX_DENTATES, OutOfMemory, SiteId, SpeciesId};
use std::alloc::Global;
use std::marker::Model;
use std::sync::ledger::Ledger;

/// A configuration: the state of each site. A contract sees it as the list of the states.
///
/// Beside each state it keeps the class of the state, a number by which many sites are searched at once.
#[derive(Debug, Drop)]
pub struct Config {
    states: Vec<State>,
    classes: Vec<u32>,
}

impl Model for Config {
    ghost use Rattle.std.specs.Prelude.{◌≡◌, List, map};
    ghost use Rattle.lattice_core.specs.declared.state.State.{State};
    ghost use Rattle.lattice_core.specs.Config.{class_of};

    ghost Value = { List State };

    ghost view = { λ c. c.states.items };

    ghost invariant = { λ c. c.classes.items ≡ map class_of c.states.items };
}

impl Config {
    /// So many sites, all of them vacant.
    pub fn vacant(alloc: Global, sites: u32) -> Result<Config, OutOfMemory>
        ensures states { IfOk result (λ c. c ≡ replicate sites State.Vacant) }
        ensures well_formed { IfOk result (λ c. (dentates : ℕ → ℕ) → IsWellFormed dentates c) }
    {
        let states = vec![in alloc; State::Vacant; sites as usize]?;
        let classes = vec![in alloc; 0u32; sites as usize]?;
        Ok(Config { states, classes })
    }

    /// A copy, of the same states. It counts no read.
    pub fn copy(&self, alloc: Global) -> Result<Config, OutOfMemory>
        ensures { IfOk result (λ c. c ≡ self.now) }
    {
        let states = Vec::from_slice(alloc, &self.states)?;
        let classes = Vec::from_slice(alloc, &self.classes)?;
        Ok(Config { states, classes })
    }

    /// The state of a site. It counts one read.
    pub fn at<L: Ledger>(&self, s: SiteId, steps: &mut Steps<L>) -> State
        requires { s.0 < length self.now }
        ensures state { result ≡ state_at self.now s.0 }
        ensures reads { steps.new ≡ steps.old + 1 }
    {
        steps.count(1);
        self.states[s.0 as usize]
    }

    /// The classes of all sites: 0 of a vacant one, else 8 times the species plus the dentate. It counts a read of each.
    pub fn classes<L: Ledger>(&self, steps: &mut Steps<L>) -> &[u32]
        ensures classes { result.now ≡ map class_of self.now }
        ensures reads { steps.new ≡ steps.old + length self.now }
    {
        steps.count(self.states.len() as u64);
        &self.classes
    }

    /// Puts a state on a site.
    fn write(&mut self, site: SiteId, state: State)
        requires { site.0 < length self.old }
        ensures { self.new ≡ slice_set self.old site.0 state }
    {
        self.states[site.0 as usize] = state;
        self.classes[site.0 as usize] = class_of(state);
    }

    /// Puts an adsorbate on vacant sites: its dentate 1 on the first, which is its home, dentate 2 on the second, and so
    /// on.
    pub fn set(&mut self, species: SpeciesId, sites: &[SiteId])
        requires has_a_site { 1 ≤ length sites.now }
        requires within_limit { length sites.now ≤ MAX_DENTATES }
        requires inside { All (λ s. s < length self.old) (site_numbers sites.now) }
        requires different { AllPairs (λ s t. s ≢ t) (site_numbers sites.now) }
        requires vacant { All (λ s. state_at self.old s ≡ State.Vacant) (site_numbers sites.now) }
        ensures count { length self.new ≡ length self.old }
        ensures states { self.new ≡ put self.old species.0 (site_numbers sites.now) }
        ensures well_formed { (dentates : ℕ → ℕ) → dentates species.0 ≡ length sites.now
            → IsWellFormed dentates self.old → IsWellFormed dentates self.new }
        ensures whole { (dentates : ℕ → ℕ) → IsWellFormed dentates self.old
            → IsWholeAdsorbate self.new (site_numbers sites.now) }
    {
        let home = sites[0];
        for (place, site) in sites.iter().enumerate() {
            let dentate = place as u8 + 1;
            self.write(
                *site,
                State::Holds {
                    species,
                    dentate,
                    home,
                },
            );
        }
    }

    /// Takes an adsorbate off its sites, which are all given.
    pub fn clear(&mut self, sites: &[SiteId])
        requires { IsWholeAdsorbate self.old (site_numbers sites.now) }
        ensures count { length self.new ≡ length self.old }
        ensures states { self.new ≡ cleared self.old (site_numbers sites.now) }
        ensures well_formed { (dentates : ℕ → ℕ) → IsWellFormed dentates self.old
            → IsWellFormed dentates self.new }
    {
        for site in sites {
            self.write(*site, State::Vacant);
        }
    }
}
