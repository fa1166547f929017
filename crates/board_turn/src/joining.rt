// Passes come back to the owner.
ghost use Rattle.std.specs.Prelude.{◌≡◌, [], ◌∷◌, ◌++◌, bit_and, bit_or};
ghost use Rattle.board_turn.specs.Shown.{IsOf, IsIdle, number_of, claims_of, puts_of, joined_numbers, next_number};

use crate::board::{Board, CLAIMED};
use crate::parts::Parts;
use crate::pass::{Owner, Pass};
use crate::rule::{Audit, Gather};

impl<B: Parts> Owner<B> {
    /// Takes a pass back, with its number, its claims and its puts. It never claimed what the owner has.
    pub fn join(&mut self, board: &Board<B>, pass: Pass<B>)
        requires own { IsOf board.now.table.shared.table_id board.now.table.shared.key self.old.seat }
        requires pass { IsOf board.now.table.shared.table_id board.now.table.shared.key pass.seat }
        requires idle { IsIdle pass.seat }
        ensures own { IsOf board.now.table.shared.table_id board.now.table.shared.key self.new.seat }
        ensures apart { bit_and (claims_of self.old.seat) (claims_of pass.seat) ≡ 0 }
        ensures claims { claims_of self.new.seat ≡ bit_or (claims_of self.old.seat) (claims_of pass.seat) }
        ensures puts { puts_of self.new.seat ≡ bit_or (puts_of self.old.seat) (puts_of pass.seat) }
        ensures joined { joined_numbers self.new.seat ≡ joined_numbers self.old.seat ++ number_of pass.seat ∷ [] }
        ensures next { next_number self.new.seat ≡ next_number self.old.seat }
    {
        let Pass {
            seat,
            number: _,
            seen: _,
        } = pass;
        let shared = &board.table.shared;
        shared.join_seat::<Gather>(&mut self.seat, seat);
        shared.load::<Audit>(&mut self.seat, CLAIMED);
    }
}
