use std::marker::Sync;

/// What a worker calls after each step on a piece of an event, so that a test may hold it there.
///
/// It answers nothing and changes no value of the simulation.
pub trait Gate: Sync {
    /// The worker has claimed a piece; both are numbered from 0.
    fn after_claim(&self, worker: u32, piece: u32);

    /// The worker has put the result of a piece back.
    fn after_put(&self, worker: u32, piece: u32);
}

/// A gate that holds nobody.
#[derive(Clone, Copy, Debug, PartialEq, Eq, Hash, Default)]
pub struct OpenGate;

impl Gate for OpenGate {
    fn after_claim(&self, _worker: u32, _piece: u32) {}

    fn after_put(&self, _worker: u32, _piece: u32) {}
}
