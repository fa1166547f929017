// The passes of a board, and the owner that takes them back.
ghost use Rattle.std.specs.Prelude.{◌≡◌, ◌^◌, ◌<◌, ◌≤◌, [], ◌∷◌, None, true, false};
ghost use Rattle.board_turn.specs.Masks.{Within};

use crate::parts::Parts;
use crate::view::View;
use atomic_table::Seat;

/// One worker's token. It is given to no one else, and ends in `Owner::join`.
///
/// In clauses `seat` shows its number, its claims, what it found claimed, its puts, the words that it found at word 1,
/// and whether it holds the turn. It has no bytes.
pub struct Pass<B: Parts> {
    pub seat: Seat<Option<B>, View<B::Key>>,
    pub(crate) number: u64,
    pub(crate) seen: u64,
    ghost follows: { seat.me.0.leads ≡ false },
    ghost numbered: { number ≡ seat.me.0.number },
    ghost in_range: { (0 < number) × (number ≤ 64) },
    ghost narrow: { seat.me.0.claims < 2 ^ 48 },
    ghost has_found: { seen ≡ seat.me.0.seen },
    ghost backed: { Within seat.me.0.backing seat.me.0.claims },
    ghost empty: { seat.me.0.holds ≡ false → seat.me.1 ≡ [] },
    ghost carries: { seat.me.0.holds ≡ true → seat.me.1 ≡ (0, None) ∷ [] },
}

/// The one who made the board. It takes the passes back, and closes the board.
///
/// In clauses `seat` shows its claims, its puts and the numbers that it has joined. It has no bytes.
pub struct Owner<B: Parts> {
    pub seat: Seat<Option<B>, View<B::Key>>,
    ghost leads: { seat.me.0.leads ≡ true },
    ghost empty: { seat.me.1 ≡ [] },
}
