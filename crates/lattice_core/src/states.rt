ghost use Rattle.std.specs.Prelude.{◌≡◌, ◌≢◌, ◌≤◌, ℕ, AllPairs, IsSome, length, unwrap_or, ⊤, ◌⊎◌};
ghost use Rattle.lattice_core.specs.Shown.{given_at, state_or_vacant};

use crate::given::Given;
use crate::state::State;
use kmc_base::{MAX_DENTATES, SiteId};
use std::marker::Model;

/// What shows the states of some sites.
pub trait States {
    ghost use Rattle.lattice_core.specs.declared.state.State.{State};

    /// It shows the state of a site.
    ghost covers: { Self → ℕ → Type 0 };

    /// The state that it shows of a site.
    ghost shown: { Self → ℕ → State };

    /// The state of a site that it covers.
    fn state(&self, s: SiteId) -> State
        requires { covers self.now s.0 }
        ensures { result ≡ shown self.now s.0 };
}

/// A lattice that is vacant but for at most `MAX_DENTATES` sites. It covers every site.
#[derive(Debug, Drop)]
pub struct Bare {
    given: Given,
}

impl Model for Bare {
    ghost use Rattle.std.specs.Prelude.{List};
    ghost use Rattle.kmc_base.specs.declared.ids.SiteId.{SiteId};
    ghost use Rattle.lattice_core.specs.declared.state.State.{State};

    ghost Value = { List (SiteId × State) };

    ghost view = { λ b. b.given };
}

impl Bare {
    /// These states on these sites, which are different, and every other site vacant.
    pub fn of(sites: &[(SiteId, State)]) -> Bare
        requires within_limit { length sites.now ≤ MAX_DENTATES }
        requires different { AllPairs (λ p q. p.0.0 ≢ q.0.0) sites.now }
        ensures { result ≡ sites.now }
    {
        Bare {
            given: Given::new(sites),
        }
    }
}

impl States for Bare {
    ghost covers = { λ _ _. ⊤ };

    ghost shown = { state_or_vacant };

    fn state(&self, s: SiteId) -> State {
        self.given.get(s).unwrap_or(State::Vacant)
    }
}

/// The states of a base but for at most `MAX_DENTATES` sites, where others are given. It covers these and what the base
/// covers.
#[derive(Drop)]
pub struct Overlay<'a, W> {
    base: &'a W,
    given: Given,
}

impl<'a, W> Model for Overlay<'a, W> {
    ghost use Rattle.std.specs.Prelude.{List};
    ghost use Rattle.kmc_base.specs.declared.ids.SiteId.{SiteId};
    ghost use Rattle.lattice_core.specs.declared.state.State.{State};

    ghost Value = { W × List (SiteId × State) };

    ghost view = { λ o. (o.base.now, o.given) };
}

impl<'a, W> Overlay<'a, W> {
    /// These states on these sites, which are different, and the base's on all others.
    pub fn over(base: &'a W, sites: &[(SiteId, State)]) -> Overlay<'a, W>
        requires within_limit { length sites.now ≤ MAX_DENTATES }
        requires different { AllPairs (λ p q. p.0.0 ≢ q.0.0) sites.now }
        ensures base { result.0 ≡ base.now }
        ensures given { result.1 ≡ sites.now }
    {
        Overlay {
            base,
            given: Given::new(sites),
        }
    }
}

impl<W: States> States for Overlay<'_, W> {
    ghost covers = { λ o s. W.covers o.0 s ⊎ IsSome (given_at o.1 s) };

    ghost shown = { λ o s. unwrap_or (given_at o.1 s) (W.shown o.0 s) };

    fn state(&self, s: SiteId) -> State {
        match self.given.get(s) {
            Some(state) => state,
            None => self.base.state(s),
        }
    }
}
