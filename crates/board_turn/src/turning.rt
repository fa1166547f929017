// The turn: taken, given, and both round one put.
ghost use Rattle.std.specs.Prelude.{◌≡◌, ℕ, ◌^◌, OnOk, IfOk, IfErr, bit_and, bit_or};
ghost use Rattle.std.specs.Int.{bit_at};
ghost use Rattle.board_turn.specs.Shown.{IsOf, IsIdle, claims_of, puts_of, found_words, KeepsClaims, IsTaker, IsTaking, IsBusy, FoundTwice};
ghost use Rattle.board_turn.specs.Refusals.{IsRefusal};

use crate::board::{Board, TURN};
use crate::parts::Parts;
use crate::pass::Pass;
use crate::refused::{Busy, PutRefused};
use crate::rule::{Give, Look, Take};
use crate::turn::Turn;
use kmc_base::OutOfMemory;
use std::snapshot::Snapshot;

// One holder in the word of the turn.
const HOLDER: u64 = 1 << 48;

// The slot of the parts.
const PARTS: usize = 0;

impl<B: Parts> Board<B> {
    /// Takes the turn, where no pass has it, by a load of word 1 and a compare-and-exchange of it. `Busy` comes after the
    /// load where the word has a holder, and after the compare-and-exchange where the word has changed.
    pub fn take(&self, pass: &mut Pass<B>) -> Result<Turn<B>, Busy>
        requires own { IsOf self.now.table.shared.table_id self.now.table.shared.key pass.old.seat }
        requires idle { IsIdle pass.old.seat }
        ensures own { IsOf self.now.table.shared.table_id self.now.table.shared.key pass.new.seat }
        ensures taken { IfOk result (λ turn. IsTaking pass.old.seat pass.new.seat turn.taker.value) }
        ensures shown { IfOk result (λ turn. IsOf self.now.table.shared.table_id self.now.table.shared.key turn.taker.value) }
        ensures parts { IfOk result (λ turn. B.done_set turn.parts ≡ turn.taker.value.me.0.known) }
        ensures busy { IfErr result (λ busy. IsBusy pass.old.seat pass.new.seat busy.was busy.seen) }
        ensures puts { puts_of pass.new.seat ≡ puts_of pass.old.seat }
        ensures same { KeepsClaims pass.old.seat pass.new.seat }
    {
        let shared = &self.table.shared;
        let was = shared.load::<Look>(&mut pass.seat, TURN);
        if was / HOLDER != 0 {
            return Err(Busy { was, seen: was });
        }
        let held = pass.number * HOLDER + was;
        let seen = shared.compare_exchange::<Take<B>>(&mut pass.seat, TURN, was, held);
        if seen != was {
            return Err(Busy { was, seen });
        }
        let parts = shared.exchange(&mut pass.seat, PARTS, None).unwrap();
        Ok(Turn {
            parts,
            taker: Snapshot::of(&pass.seat),
        })
    }

    /// Puts the parts back into the slot and frees the turn. The pieces that became done join the puts of the pass.
    pub fn give(&self, pass: &mut Pass<B>, turn: Turn<B>)
        requires own { IsOf self.now.table.shared.table_id self.now.table.shared.key pass.old.seat }
        requires taken { IsTaker pass.old.seat turn.taker.value }
        requires shown { IsOf self.now.table.shared.table_id self.now.table.shared.key turn.taker.value }
        ensures own { IsOf self.now.table.shared.table_id self.now.table.shared.key pass.new.seat }
        ensures idle { IsIdle pass.new.seat }
        ensures had { puts_of pass.old.seat ≡ bit_and (claims_of pass.old.seat) turn.taker.value.me.0.known }
        ensures puts { puts_of pass.new.seat ≡ bit_and (claims_of pass.old.seat) (B.done_set turn.parts) }
        ensures found { found_words pass.new.seat ≡ found_words pass.old.seat }
        ensures same { KeepsClaims pass.old.seat pass.new.seat }
    {
        let Turn { parts, taker: _ } = turn;
        let done = parts.done();
        let shared = &self.table.shared;
        let empty = shared.exchange(&mut pass.seat, PARTS, Some(parts));
        let None = empty else { unreachable!() };
        shared.store::<Give>(&mut pass.seat, TURN, done);
    }

    /// Puts one finding: takes the turn, puts it and gives the turn. A refusal hands the finding back.
    pub fn try_put(
        &self,
        pass: &mut Pass<B>,
        finding: B::Finding,
    ) -> Result<(), PutRefused<B::Finding>>
        requires own { IsOf self.now.table.shared.table_id self.now.table.shared.key pass.old.seat }
        requires idle { IsIdle pass.old.seat }
        requires right { B.is_right self.now.table.shared.key finding }
        requires claimed { bit_at (claims_of pass.old.seat) (B.piece_of finding) ≡ 1 }
        ensures own { IsOf self.now.table.shared.table_id self.now.table.shared.key pass.new.seat }
        ensures idle { IsIdle pass.new.seat }
        ensures put { OnOk result (puts_of pass.new.seat ≡ bit_or (puts_of pass.old.seat) (2 ^ B.piece_of finding)) }
        ensures has { OnOk result (bit_at (puts_of pass.new.seat) (B.piece_of finding) ≡ 1) }
        ensures found { OnOk result ((word : ℕ) × FoundTwice pass.old.seat pass.new.seat word) }
        ensures refused { IfErr result (IsRefusal pass.old.seat pass.new.seat finding) }
        ensures same { KeepsClaims pass.old.seat pass.new.seat }
    {
        let mut turn = match self.take(pass) {
            Ok(turn) => turn,
            Err(Busy { was, seen }) => {
                return Err(PutRefused::Busy { was, seen, finding });
            }
        };
        let answer = turn.put(finding);
        self.give(pass, turn);
        match answer {
            Ok(()) => Ok(()),
            Err((finding, OutOfMemory)) => Err(PutRefused::OutOfMemory { finding }),
        }
    }
}
