use std::collections::LinkedList;

/// What the board's rule says of a pass or of the owner. No value of it is made: only clauses name it, and there its
/// numbers have no bound. A mask has bit `p` for piece `p`.
pub struct View<K> {
    /// The board's key. A view that was joined has none.
    pub key: Option<K>,
    /// It is the owner's.
    pub leads: bool,
    /// Of the owner: the number of the next pass, and the numbers of those that it has joined.
    pub next: u64,
    pub joined: LinkedList<u64>,
    /// Of a pass: its number, from 1. The owner's is 0.
    pub number: u64,
    /// The pieces that it has claimed, and those that it has found claimed, as masks.
    pub claims: u64,
    pub seen: u64,
    /// What the owner and the pass that it joined last had both claimed, which the rule says is nothing.
    pub twice: u64,
    /// The pieces that it has put, as a mask.
    pub puts: u64,
    /// It holds the turn, which it took at this done mask and with these claims.
    pub holds: bool,
    pub known: u64,
    pub backing: u64,
    /// The words that it has found at word 1, the latest last.
    pub found: LinkedList<u64>,
}
