// The rule of the board's table, and the names of its steps.
use crate::parts::Parts;
use crate::view::View;
use atomic_table::{Join, Play, Split, TableRule};
use std::marker::PhantomData;

/// The rule that a board of these parts keeps.
pub struct Order<B> {
    marker: PhantomData<B>,
}

impl<B: Parts> TableRule<Option<B>, View<B::Key>, B::Key> for Order<B> {
    ghost use Rattle.board_turn.specs.Rule.{Orderly};
    ghost use Rattle.board_turn.specs.Views.{first_owner};

    ghost holds = { Orderly B.is_patch B.done_set };

    ghost first = { first_owner };
}

// A split of the owner's seat: the second part is a new pass.
pub struct Deal;

impl<K> Split<View<K>> for Deal {
    ghost use Rattle.board_turn.specs.Views.{dealing, new_pass};

    ghost left = { dealing };

    ghost right = { new_pass };
}

// A join: a pass becomes the owner's.
pub struct Gather;

impl<K> Join<View<K>> for Gather {
    ghost use Rattle.board_turn.specs.Views.{joining, spent};

    ghost both = { joining };

    ghost spent = { spent };
}

// A load of word 0, after a join.
pub struct Audit;

impl<S, K> Play<S, View<K>> for Audit {
    ghost use Rattle.board_turn.specs.Plays.{Audited};

    ghost then = { Audited };
}

// A fetch_or of word 0, with the bit of one piece.
pub struct Claim;

impl<S, K> Play<S, View<K>> for Claim {
    ghost use Rattle.board_turn.specs.Plays.{Claimed};

    ghost then = { Claimed };
}

// A load of word 1.
pub struct Look;

impl<S, K> Play<S, View<K>> for Look {
    ghost use Rattle.board_turn.specs.Plays.{Looked};

    ghost then = { Looked };
}

// A compare-and-exchange of word 1, which takes the turn and the slot with the parts.
pub struct Take<B> {
    marker: PhantomData<B>,
}

impl<B: Parts> Play<Option<B>, View<B::Key>> for Take<B> {
    ghost use Rattle.board_turn.specs.Plays.{Tried};

    ghost then = { Tried B.is_patch B.done_set };
}

// A store to word 1, which frees the turn and gives the slot back.
pub struct Give;

impl<S, K> Play<S, View<K>> for Give {
    ghost use Rattle.board_turn.specs.Plays.{Gave};

    ghost then = { Gave };
}
