//! Where the workers of a dispatch can be held.

/// A gate that each worker passes before its first take.
pub trait Gate: Sync {
    /// Called by the worker of this number, counted from 0. It takes from the queue once this returns.
    fn hold(&self, worker: u32);
}

/// The gate that holds nobody.
#[derive(Clone, Copy, PartialEq, Eq, Debug)]
pub struct OpenGate;

impl Gate for OpenGate {
    fn hold(&self, _worker: u32) {}
}
