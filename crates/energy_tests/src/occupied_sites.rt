ghost use Rattle.std.specs.Prelude.{◌≡◌, ◌<◌, ◌∷◌, ℕ, [], IfOk, length, slice_index};
ghost use Rattle.lattice_core.specs.Config.{IsWellFormed};

use kmc_base::{SiteId, SpeciesId};
use lattice_core::{Config, State, Steps};
use std::alloc::Global;
use std::sync::ledger::Ledger;
use std::test::Fail;

/// The dentates of the species of the tests: one of species 0, and two of species 1.
pub(crate) const DENTATES: [u8; 2] = [1, 2];

/// Puts an adsorbate of species 0 on a site, if it is one of so many and vacant.
fn put<L: Ledger>(config: &mut Config, site: u32, count: u32, steps: &mut Steps<L>)
    requires { length config.old ≡ count }
    ensures long { length config.new ≡ length config.old }
    ensures well_formed { (dentates : ℕ → ℕ) → dentates 0 ≡ 1 → IsWellFormed dentates config.old → IsWellFormed dentates config.new }
{
    if site >= count {
        return;
    }
    let State::Vacant = config.at(SiteId(site), steps) else {
        return;
    };
    config.set(SpeciesId(0), &[SiteId(site)]);
}

/// So many sites, with an adsorbate of species 0 on each of some.
pub(crate) fn occupied<L: Ledger>(
    alloc: Global,
    count: u32,
    sites: &[u32],
    dentates: &[u8],
    steps: &mut Steps<L>,
) -> Result<Config, Fail>
    requires { dentates.now ≡ 1 ∷ 2 ∷ [] }
    ensures long { IfOk result (λ config. length config ≡ count) }
    ensures well_formed { IfOk result (IsWellFormed (λ s. slice_index dentates.now s)) }
{
    let mut config = Config::vacant(alloc, count)?;
    for site in sites {
        put(&mut config, *site, count, steps);
    }
    Ok(config)
}
