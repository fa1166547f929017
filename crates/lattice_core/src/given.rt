ghost use Rattle.std.specs.Prelude.{◌≡◌, ◌≤◌, length};
ghost use Rattle.lattice_core.specs.Shown.{given_at};

use crate::state::State;
use kmc_base::{MAX_DENTATES, SiteId};
use std::marker::Model;

/// States that are given for a few sites.
#[derive(Debug, Drop)]
pub(crate) struct Given {
    pairs: [(SiteId, State); MAX_DENTATES],
    count: usize,
}

impl Model for Given {
    ghost use Rattle.std.specs.Prelude.{List, take, ◌≤◌};
    ghost use Rattle.kmc_base.specs.declared.ids.SiteId.{SiteId};
    ghost use Rattle.lattice_core.specs.declared.state.State.{State};
    ghost use Rattle.kmc_base.specs.declared.limits.TheConstants.{MAX_DENTATES};

    ghost Value = { List (SiteId × State) };

    ghost view = { λ g. take g.count g.pairs };

    ghost invariant = { λ g. g.count ≤ MAX_DENTATES };
}

impl Given {
    pub(crate) fn new(states: &[(SiteId, State)]) -> Given
        requires { length states.now ≤ MAX_DENTATES }
        ensures { result ≡ states.now }
    {
        let mut pairs = [(SiteId(0), State::Vacant); MAX_DENTATES];
        for (i, pair) in states.iter().enumerate() {
            pairs[i] = *pair;
        }
        Given {
            pairs,
            count: states.len(),
        }
    }

    /// The state that is given for a site.
    pub(crate) fn get(&self, s: SiteId) -> Option<State>
        ensures { result ≡ given_at self.now s.0 }
    {
        for pair in &self.pairs[..self.count] {
            if pair.0 == s {
                return Some(pair.1);
            }
        }
        None
    }
}
