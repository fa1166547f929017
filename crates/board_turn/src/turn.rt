ghost use Rattle.std.specs.Prelude.{◌≡◌, ◌^◌, ◌<◌, bit_or, OnOk, IfErr, IsSome};
ghost use Rattle.std.specs.Int.{bit_at};
ghost use Rattle.std.specs.Option.{ForSome};
ghost use Rattle.board_turn.specs.Masks.{Within};
ghost use Rattle.board_turn.specs.Shown.{claims_of};

use crate::parts::Parts;
use crate::view::View;
use atomic_table::Seat;
use kmc_base::OutOfMemory;
use std::snapshot::Snapshot;

/// The parts, with the one who may change them. By its type they are a patch of their own done set under the key that
/// the pass shows. That set has every piece of the done mask at which the turn was taken, and each further piece of it
/// is among the claims that the pass had then. It ends in `Board::give`.
pub struct Turn<B: Parts> {
    /// The parts, out of the board's slot.
    pub parts: B,
    /// A picture of the pass when it took the turn, for clauses: its key, its number, its claims and the done mask.
    pub taker: Snapshot<Seat<Option<B>, View<B::Key>>>,
    ghost shows: { IsSome taker.value.me.0.key },
    ghost patch: { ForSome taker.value.me.0.key (λ key. B.is_patch parts key) } by { Prim.hlevel (B.is_one_fact) },
    ghost narrow: { (taker.value.me.0.known < 2 ^ 48) × (taker.value.me.0.claims < 2 ^ 48) },
    ghost grows: { Within taker.value.me.0.known (B.done_set parts) },
    ghost within: { Within (B.done_set parts) (bit_or taker.value.me.0.known taker.value.me.0.claims) },
}

impl<B: Parts> Turn<B> {
    /// Puts one finding. A refusal hands it back and changes nothing.
    pub fn put(&mut self, finding: B::Finding) -> Result<(), (B::Finding, OutOfMemory)>
        requires right { ForSome self.old.taker.value.me.0.key (λ key. B.is_right key finding) }
        requires claimed { bit_at (claims_of self.old.taker.value) (B.piece_of finding) ≡ 1 }
        ensures done { OnOk result (B.done_set self.new.parts ≡ bit_or (B.done_set self.old.parts) (2 ^ B.piece_of finding)) }
        ensures refused { IfErr result (λ back. (back.0 ≡ finding) × (self.new.parts ≡ self.old.parts)) }
        ensures same { self.new.taker ≡ self.old.taker }
    {
        self.parts.put(finding)
    }
}
