//! A law of the definitions that the contracts of the readers cite. The function does nothing: its contract is the law.

ghost use Rattle.std.specs.Prelude.{◌≡◌, ℕ, Bool, List, Ok, Some};
ghost use Rattle.deck_shape.specs.Blocks.{BlockLines};
ghost use Rattle.deck_words.specs.declared.keyword.Keyword.{Keyword};
ghost use Rattle.pattern_rows.specs.Edges.{edges_in};
ghost use Rattle.pattern_rows.specs.Patterns.{MakePattern};
ghost use Rattle.pattern_rows.specs.Sites.{sites_in};
ghost use Rattle.pattern_rows.specs.States.{StateWords, states_in};

/// The sites, the edges and the rows of states of a block that have no fault make a pattern.
pub fn what_is_read_is_a_pattern()
    ensures { (block : BlockLines) (takes_any : Bool) (keyword : Keyword) (sites : ℕ) (edges : List (ℕ × ℕ)) (rows : List StateWords)
        → sites_in block ≡ Ok sites → edges_in (Some sites) block ≡ Ok edges → states_in takes_any (Some sites) keyword block ≡ Ok rows
        → MakePattern sites edges rows }
{}
