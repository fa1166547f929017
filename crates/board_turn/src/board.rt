// The board, from its making to its close.
ghost use Rattle.std.specs.Prelude.{◌≡◌, ℕ, ◌+◌, ◌<◌, ◌≤◌, [], ◌∷◌, Some, length, slice_index_or, vec_len, vec_capacity, All, IfOk, IfErr};
ghost use Rattle.board_turn.specs.Views.{first_owner};
ghost use Rattle.board_turn.specs.Shown.{IsOf, number_of, claims_of, puts_of, joined_numbers, next_number, IsNew, IsOpening};

use crate::parts::Parts;
use crate::pass::{Owner, Pass};
use crate::rule::{Deal, Order};
use crate::view::View;
use atomic_table::{Refused, Seat, Table};
use kmc_base::OutOfMemory;
use std::alloc::Global;

// The word of the claimed pieces.
pub(crate) const CLAIMED: usize = 0;

// The word of the turn: the holder, and the pieces that are done.
pub(crate) const TURN: usize = 1;

type Shared<B> = Table<Option<B>, View<<B as Parts>::Key>, <B as Parts>::Key, Order<B>, Global>;

/// Parts that several workers put findings into, one worker at a time, and the pieces of work that they claim.
///
/// A word of the turn is `holder * 2^48 + done mask`. No call waits for another.
pub struct Board<B: Parts> {
    /// The two words and the slot, which clauses look at.
    pub table: Table<Option<B>, View<B::Key>, B::Key, Order<B>, Global>,
    /// How many pieces there are, from 1 to 48.
    pub pieces: u32,
    ghost sized: { (table.shared.table_id.words ≡ 2) × (table.shared.table_id.slots ≡ 1) },
    ghost few: { (0 < pieces) × (pieces ≤ 48) },
}

/// What was claimed and done when a board was closed, as masks: bit `p` is for piece `p`.
#[derive(Clone, Copy, Debug, PartialEq, Eq)]
pub struct Report {
    /// The pieces that some pass has claimed.
    pub claimed: u64,
    /// The pieces of which a finding was put.
    pub done: u64,
}

// The one slot, with the parts.
fn slot_of<B>(alloc: Global, parts: B) -> Result<Vec<Option<B>>, B>
    ensures slot { IfOk result (λ slots. slots.items ≡ Some parts ∷ []) }
    ensures back { IfErr result (λ back. back ≡ parts) }
{
    let Ok(mut slots) = Vec::with_capacity(alloc, 1) else {
        return Err(parts);
    };
    slots.push_reserved(Some(parts));
    Ok(slots)
}

fn parts_of<B>(mut slots: Vec<Option<B>>) -> B
    requires { (parts : B) × (slots.items ≡ Some parts ∷ []) }
    ensures { slots.items ≡ Some result ∷ [] }
{
    let slot = slots.pop();
    slots.destroy_empty();
    let Some(Some(parts)) = slot else {
        unreachable!()
    };
    parts
}

impl<B: Parts> Board<B> {
    /// A board with these parts, whose done set is empty, its owner, and `passes` passes, numbered from 1.
    ///
    /// A refusal hands the parts back.
    pub fn new(
        alloc: Global,
        parts: B,
        key: B::Key,
        pieces: u32,
        passes: u32,
    ) -> Result<(Board<B>, Owner<B>, Vec<Pass<B>>), (B, OutOfMemory)>
        requires pieces { (0 < pieces) × (pieces ≤ 48) }
        requires passes { (0 < passes) × (passes ≤ 64) }
        requires patch { B.is_patch parts key }
        requires undone { B.done_set parts ≡ 0 }
        ensures board { IfOk result (λ made. (made.0.table.shared.key ≡ key) × (made.0.pieces ≡ pieces)) }
        ensures owner { IfOk result (λ made. IsOf made.0.table.shared.table_id key made.1.seat) }
        ensures opening { IfOk result (λ made. IsOpening made.1.seat × (next_number made.1.seat ≡ passes + 1)) }
        ensures count { IfOk result (λ made. vec_len made.2 ≡ passes) }
        ensures passes { IfOk result (λ made. All (λ pass. IsOf made.0.table.shared.table_id key pass.seat × IsNew pass.seat) made.2.items) }
        ensures numbers { IfOk result (λ made. (k : ℕ) (d : _) → k < passes → number_of (slice_index_or made.2.items k d).seat ≡ k + 1) }
        ensures refused { IfErr result (λ back. back.0 ≡ parts) }
    {
        let Ok(mut made) = Vec::with_capacity(alloc, passes as usize) else {
            return Err((parts, OutOfMemory));
        };
        let (table, seat) = match Board::lay(alloc, parts, &key) {
            Ok(laid) => laid,
            Err(parts) => {
                made.destroy_empty();
                return Err((parts, OutOfMemory));
            }
        };
        let board = Board { table, pieces };
        let mut owner = Owner { seat };
        board.deal_all(&mut owner, &mut made, passes);
        Ok((board, owner, made))
    }

    // The table, with the owner's seat.
    fn lay(
        alloc: Global,
        parts: B,
        key: &B::Key,
    ) -> Result<(Shared<B>, Seat<Option<B>, View<B::Key>>), B>
        requires patch { B.is_patch parts key.now }
        requires undone { B.done_set parts ≡ 0 }
        ensures sized { IfOk result (λ laid. (laid.0.shared.table_id.words ≡ 2) × (laid.0.shared.table_id.slots ≡ 1)) }
        ensures keyed { IfOk result (λ laid. laid.0.shared.key ≡ key.now) }
        ensures seat { IfOk result (λ laid. (laid.1.table_id ≡ laid.0.shared.table_id) × (laid.1.me ≡ (first_owner key.now, []))) }
        ensures back { IfErr result (λ back. back ≡ parts) }
    {
        let slots = slot_of(alloc, parts)?;
        match Table::new(alloc, &[0, 0], slots, key) {
            Ok(laid) => Ok(laid),
            Err(Refused { slots }) => Err(parts_of(slots)),
        }
    }

    // As many passes, behind none.
    fn deal_all(&self, owner: &mut Owner<B>, made: &mut Vec<Pass<B>>, passes: u32)
        requires own { IsOf self.now.table.shared.table_id self.now.table.shared.key owner.old.seat }
        requires first { next_number owner.old.seat ≡ 1 }
        requires empty { made.old.items ≡ [] }
        requires room { (passes ≤ vec_capacity made.old) × (passes ≤ 64) }
        ensures own { IsOf self.now.table.shared.table_id self.now.table.shared.key owner.new.seat }
        ensures next { next_number owner.new.seat ≡ passes + 1 }
        ensures same { (claims_of owner.new.seat ≡ claims_of owner.old.seat) × (puts_of owner.new.seat ≡ puts_of owner.old.seat) × (joined_numbers owner.new.seat ≡ joined_numbers owner.old.seat) }
        ensures count { vec_len made.new ≡ passes }
        ensures passes { All (λ pass. IsOf self.now.table.shared.table_id self.now.table.shared.key pass.seat × IsNew pass.seat) made.new.items }
        ensures numbers { (k : ℕ) (d : _) → k < passes → number_of (slice_index_or made.new.items k d).seat ≡ k + 1 }
    {
        for dealt in 0..passes {
            made.push_reserved(self.deal(owner, u64::from(dealt) + 1));
        }
    }

    // A new pass, which has the owner's next number.
    fn deal(&self, owner: &mut Owner<B>, number: u64) -> Pass<B>
        requires own { IsOf self.now.table.shared.table_id self.now.table.shared.key owner.old.seat }
        requires number { (next_number owner.old.seat ≡ number) × (0 < number) × (number ≤ 64) }
        ensures own { IsOf self.now.table.shared.table_id self.now.table.shared.key owner.new.seat }
        ensures next { next_number owner.new.seat ≡ number + 1 }
        ensures same { (claims_of owner.new.seat ≡ claims_of owner.old.seat) × (puts_of owner.new.seat ≡ puts_of owner.old.seat) × (joined_numbers owner.new.seat ≡ joined_numbers owner.old.seat) }
        ensures pass { IsOf self.now.table.shared.table_id self.now.table.shared.key result.seat }
        ensures new { IsNew result.seat }
        ensures number { number_of result.seat ≡ number }
    {
        let seat = self.table.shared.split_seat::<Deal>(&mut owner.seat);
        Pass {
            seat,
            number,
            seen: 0,
        }
    }

    /// Takes the parts out of a board whose passes are all joined, and says what was claimed and done.
    pub fn close(self, owner: Owner<B>) -> (B, Report)
        requires own { IsOf self.table.shared.table_id self.table.shared.key owner.seat }
        requires all { length (joined_numbers owner.seat) + 1 ≡ next_number owner.seat }
        ensures patch { B.is_patch result.0 self.table.shared.key }
        ensures done { result.1.done ≡ B.done_set result.0 }
        ensures puts { result.1.done ≡ puts_of owner.seat }
        ensures claimed { result.1.claimed ≡ claims_of owner.seat }
    {
        let Board { table, pieces: _ } = self;
        let Owner { seat } = owner;
        let mut closed = table.close_with(seat);
        let claimed = closed.word(CLAIMED);
        let slot = closed.take(0);
        closed.free();
        let Some(parts) = slot else { unreachable!() };
        let done = parts.done();
        (parts, Report { claimed, done })
    }
}
