ghost use Rattle.std.specs.Prelude.{◌≡◌, ℕ, List, length, true};
ghost use Rattle.firing.specs.Sides.{AreInStates, states_for};
ghost use Rattle.firing.specs.Soundness.{IsSoundSide};
ghost use Rattle.lattice_core.specs.Config.{IsWellFormed, state_at};
ghost use Rattle.lattice_core.specs.declared.state.State.{State};
ghost use Rattle.pattern_list.specs.Match.{is_match};
ghost use Rattle.pattern_types.specs.Parts.{PatternParts, vertex_count};

/// Where a sound side of a step matches a well-formed configuration, each site is in the state that the side wants of it:
/// its entities are whole adsorbates there. It does nothing: its contract is the law.
pub fn match_is_in_wanted_states()
    ensures { (dentates : ℕ → ℕ) (side : PatternParts) (states : List State) (sites : List ℕ) → IsSoundSide side
        → IsWellFormed dentates states → length sites ≡ vertex_count side → is_match (state_at states) side sites ≡ true
        → AreInStates states (states_for side sites) }
{}
