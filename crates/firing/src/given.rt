ghost use Rattle.std.specs.Prelude.{◌≡◌, ◌≢◌, ◌≤◌, AllPairs, length};
ghost use Rattle.firing.specs.Sides.{state_for, states_for};
ghost use Rattle.lattice_core.specs.SiteList.{site_numbers};
ghost use Rattle.pattern_types.specs.Parts.{vertex_count};

use crate::entity::site_of;
use kmc_base::SiteId;
use lattice_core::State;
use pattern_types::{MAX_VERTICES, Pattern, Wanted};
use std::marker::Model;

/// The sites on which the vertices of a side fall, each with a state: at most `MAX_VERTICES`. A contract sees it as the
/// list of the pairs.
#[derive(Debug, Drop)]
pub struct GivenStates {
    pairs: [(SiteId, State); MAX_VERTICES],
    count: usize,
}

impl Model for GivenStates {
    ghost use Rattle.std.specs.Prelude.{List, take, ◌≤◌};
    ghost use Rattle.kmc_base.specs.declared.ids.SiteId.{SiteId};
    ghost use Rattle.lattice_core.specs.declared.state.State.{State};
    ghost use Rattle.pattern_types.specs.declared.limits.TheConstants.{MAX_VERTICES};

    ghost Value = { List (SiteId × State) };

    ghost view = { λ g. take g.count g.pairs };

    ghost invariant = { λ g. g.count ≤ MAX_VERTICES };
}

impl GivenStates {
    /// The pairs of sites and states, in the order of the vertices.
    pub fn pairs(&self) -> &[(SiteId, State)]
        ensures value { result.now ≡ self.now }
        ensures few { length self.now ≤ MAX_VERTICES }
    {
        &self.pairs[..self.count]
    }
}

/// The state that a vertex wants of its site.
fn state_for(side: &Pattern, sites: &[SiteId], wanted: Wanted) -> State
    requires { length sites.now ≡ vertex_count side.now }
    ensures { result ≡ state_for side.now (site_numbers sites.now) wanted }
{
    match wanted {
        Wanted::Any | Wanted::Vacant => State::Vacant,
        Wanted::Holds {
            entity,
            species,
            dentate,
        } => State::Holds {
            species,
            dentate,
            home: site_of(side, sites, entity, 1),
        },
    }
}

/// The state that a side wants of each site on which its vertices fall. It takes no memory.
pub fn given_states(side: &Pattern, sites: &[SiteId]) -> GivenStates
    requires { length sites.now ≡ vertex_count side.now }
    ensures states { result ≡ states_for side.now (site_numbers sites.now) }
    ensures different { AllPairs (λ s t. s ≢ t) (site_numbers sites.now) → AllPairs (λ p q. p.0.0 ≢ q.0.0) result }
{
    let mut pairs = [(SiteId(0), State::Vacant); MAX_VERTICES];
    for vertex in 1..side.len() + 1 {
        let place = usize::from(vertex) - 1;
        let state = state_for(side, sites, side.wanted(vertex));
        pairs[place] = (sites[place], state);
    }
    GivenStates {
        pairs,
        count: sites.len(),
    }
}
