// Claims, on the word of the claimed pieces.
ghost use Rattle.std.specs.Prelude.{◌≡◌, ℕ, ◌^◌, ◌<◌, true, false, IfSome, IfNone};
ghost use Rattle.std.specs.Int.{bit_at};
ghost use Rattle.board_turn.specs.Masks.{Within};
ghost use Rattle.board_turn.specs.Shown.{IsOf, claims_of, found_claimed, Claims, KeepsTurn};

use crate::board::{Board, CLAIMED};
use crate::parts::Parts;
use crate::pass::Pass;
use crate::rule::Claim;

// The mask of one piece.
fn piece_bit(piece: u32) -> u64
    requires { piece < 48 }
    ensures is { result ≡ 2 ^ piece }
    ensures narrow { result < 2 ^ 48 }
{
    1 << piece
}

impl<B: Parts> Board<B> {
    /// Claims the least piece that the pass has not found claimed, and gives its number, from 0. `None` where it has found
    /// every piece claimed.
    pub fn claim(&self, pass: &mut Pass<B>) -> Option<u32>
        requires own { IsOf self.now.table.shared.table_id self.now.table.shared.key pass.old.seat }
        ensures own { IsOf self.now.table.shared.table_id self.now.table.shared.key pass.new.seat }
        ensures piece { IfSome result (λ p. p < self.now.pieces) }
        ensures claimed { IfSome result (Claims pass.old.seat pass.new.seat) }
        ensures least { IfSome result (λ p. (q : ℕ) → q < p → bit_at (found_claimed pass.new.seat) q ≡ 1) }
        ensures grows { Within (found_claimed pass.old.seat) (found_claimed pass.new.seat) }
        ensures none { IfNone result ((q : ℕ) → q < self.now.pieces → bit_at (found_claimed pass.new.seat) q ≡ 1) }
        ensures none_claimed { IfNone result (claims_of pass.new.seat ≡ claims_of pass.old.seat) }
        ensures same { KeepsTurn pass.old.seat pass.new.seat }
    {
        for piece in 0..self.pieces {
            if self.try_claim(pass, piece) {
                return Some(piece);
            }
        }
        None
    }

    // Whether the piece is the pass's now. It isn't where the pass has found it claimed.
    fn try_claim(&self, pass: &mut Pass<B>, piece: u32) -> bool
        requires own { IsOf self.now.table.shared.table_id self.now.table.shared.key pass.old.seat }
        requires piece { piece < 48 }
        ensures own { IsOf self.now.table.shared.table_id self.now.table.shared.key pass.new.seat }
        ensures won { result ≡ true → Claims pass.old.seat pass.new.seat piece }
        ensures lost { result ≡ false → (bit_at (found_claimed pass.new.seat) piece ≡ 1) × (claims_of pass.new.seat ≡ claims_of pass.old.seat) }
        ensures found { Within (found_claimed pass.old.seat) (found_claimed pass.new.seat) }
        ensures same { KeepsTurn pass.old.seat pass.new.seat }
    {
        let bit = piece_bit(piece);
        if pass.seen & bit != 0 {
            return false;
        }
        let found = self
            .table
            .shared
            .fetch_or::<Claim>(&mut pass.seat, CLAIMED, bit);
        pass.seen |= found | bit;
        if found & bit != 0 {
            return false;
        }
        true
    }
}
