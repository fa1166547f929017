//! What a command line can ask for.

/// The greatest number of workers.
pub const MAX_WORKERS: u32 = 64;

/// The greatest spread.
pub const MAX_SPREAD: u32 = 1_000_000;

/// What the program is asked to do.
#[derive(Clone, Copy, Debug, PartialEq, Eq)]
pub enum Mode {
    /// Run the deck.
    Run,
    /// Check the deck and run nothing.
    Check,
    /// Make the deck of this number, from 0 to `MAX_DECK`, and run it.
    Sample(u32),
}

/// What the words of a command line ask for.
#[derive(Clone, Copy, Debug, PartialEq, Eq)]
pub struct CommandLine {
    /// What to do.
    pub mode: Mode,
    /// The number of workers, from 1 to `MAX_WORKERS`.
    pub workers: u32,
    /// The least number of anchors of an event at which its work is shared, from 1 to `MAX_SPREAD`.
    pub spread: u32,
}
