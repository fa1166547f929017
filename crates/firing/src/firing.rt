ghost use Rattle.std.specs.Prelude.{◌≡◌, ℕ, List};
ghost use Rattle.firing.specs.Firing.{CanClear, CanFire, CanSet, cleared_side, set_side};
ghost use Rattle.firing.specs.Sides.{states_for, with_states};
ghost use Rattle.firing.specs.Soundness.{HasDentates};
ghost use Rattle.lattice_core.specs.Config.{IsWellFormed};
ghost use Rattle.lattice_core.specs.SiteList.{site_numbers};
ghost use Rattle.lattice_core.specs.declared.state.State.{State};
ghost use Rattle.pattern_types.specs.Parts.{PatternParts};

use crate::entity::{entity_sites, first_of};
use kmc_base::SiteId;
use lattice_core::Config;
use pattern_types::Pattern;

/// Takes the entities of a side off the sites on which its vertices fall.
fn clear_side(config: &mut Config, side: &Pattern, sites: &[SiteId])
    requires { CanClear side.now (site_numbers sites.now) config.old }
    ensures { config.new ≡ cleared_side side.now (site_numbers sites.now) config.old }
{
    for vertex in 1..side.len() + 1 {
        if let Some((entity, _)) = first_of(side.wanted(vertex)) {
            config.clear(entity_sites(side, sites, entity).sites());
        }
    }
}

/// Puts the entities of a side on the sites on which its vertices fall, all of them vacant. It takes no memory.
pub fn set_side(config: &mut Config, side: &Pattern, sites: &[SiteId])
    requires { CanSet side.now (site_numbers sites.now) config.old }
    ensures entities { config.new ≡ set_side side.now (site_numbers sites.now) config.old }
    ensures states { config.new ≡ with_states (states_for side.now (site_numbers sites.now)) config.old }
    ensures well_formed { (dentates : ℕ → ℕ) → HasDentates dentates side.now
        → IsWellFormed dentates config.old → IsWellFormed dentates config.new }
{
    for vertex in 1..side.len() + 1 {
        if let Some((entity, species)) = first_of(side.wanted(vertex)) {
            config.set(species, entity_sites(side, sites, entity).sites());
        }
    }
}

/// Fires an instance of a step: clears the entities of its initial side off its sites, and sets those of its final side on
/// them. It takes no memory.
pub fn fire(config: &mut Config, before: &Pattern, after: &Pattern, sites: &[SiteId])
    requires { CanFire before.now after.now (site_numbers sites.now) config.old }
    ensures states { config.new ≡ with_states (states_for after.now (site_numbers sites.now)) config.old }
    ensures well_formed { (dentates : ℕ → ℕ) → HasDentates dentates after.now
        → IsWellFormed dentates config.old → IsWellFormed dentates config.new }
{
    clear_side(config, before, sites);
    set_side(config, after, sites);
}

/// What firing makes of a well-formed configuration is well formed. It does nothing: its contract is the law.
pub fn firing_keeps_well_formed()
    ensures { (before after : PatternParts) (sites : List ℕ) (states : List State) (dentates : ℕ → ℕ)
        → CanFire before after sites states → HasDentates dentates after → IsWellFormed dentates states
        → IsWellFormed dentates (with_states (states_for after sites) states) }
{}

/// Firing clears the initial entities, and then sets the final ones. It does nothing: its contract is the law.
pub fn firing_clears_then_sets()
    ensures { (before after : PatternParts) (sites : List ℕ) (states : List State) → CanFire before after sites states
        → with_states (states_for after sites) states ≡ set_side after sites (cleared_side before sites states) }
{}
