//! The gate at which planners arrive before they send.

/// A gate, at which each planner arrives once, with its number, before it sends its first piece.
pub trait Gate: Sync {
    /// Returns when the planner may go on.
    fn arrive(&self, planner: usize);
}

/// A gate that lets every planner go on at once.
#[derive(Clone, Copy, Debug)]
pub struct NoGate;

impl Gate for NoGate {
    fn arrive(&self, _planner: usize) {}
}
