//! Several workers share one value, its parts, and the pieces of work on it, without waiting for each other.
//!
//! A worker has a `Pass`, with which it claims pieces that no other pass then gets, and puts what it found for them into
//! the parts. Only the pass that has taken the turn, which is a lock that is tried and never waited for, changes the
//! parts; a pass that finds it taken is answered `Busy` and goes on with other work. The owner takes the passes back and
//! closes the board.
//!
//! Promised, for any threads and any `Parts`: the claims of two passes are disjoint, a put that was answered Ok is never
//! lost, and the parts are a patch of their own done set (they are what the pieces done so far make of them, as the type
//! of the parts says it) whenever they are in the board's slot or with a turn. Nothing is promised of time: not that a
//! put ever finds the turn free.
//!
//! The words and the slot are those of an `atomic_table`, whose steps keep the rule of `specs/Rule.antt`: one word has the
//! claimed pieces, one the holder of the turn and the done mask, and the slot the parts. No call waits.
#![tactic(auto)]

mod board;
mod claiming;
mod joining;
mod parts;
mod pass;
mod refused;
mod rule;
mod turn;
mod turning;
mod view;

pub use board::{Board, Report};
pub use parts::Parts;
pub use pass::{Owner, Pass};
pub use refused::{Busy, PutRefused};
pub use rule::Order;
pub use turn::Turn;
pub use view::View;
