//! The queue of the possible events of a run: which instance fires first, and which entries each anchor has.
//!
//! A contract sees the queue as the list of its entries in rising order of their codes. `ProcessQueue::renew` puts what
//! the parts of some anchors give in the place of their old entries, by the rule that a waiting time is kept as long as the
//! rate stays and the instance was not the one fired. It costs what these anchors' entries cost, times the depth of a tree
//! over the entries at most, whatever the size of the lattice. After a refusal of memory the queue is as it was.
//! `ProcessQueue::least` costs nothing.
//!
//! The entries are in the rooms of a `slab`. For each site there is a list of the rooms of its entries. Above the rooms
//! there is a tree, whose root names the firing that comes first.
#![tactic(auto)]

mod choice;
mod filing;
mod lead;
mod memory;
mod part;
mod queue;
mod renewal;
mod rooms;
#[cfg(test)]
mod tests;
mod tree;

pub use part::AnchorEntries;
pub use queue::ProcessQueue;
