//! The sizes of a plan.

/// The three sizes of a plan by planners, in the order in which they are checked. They are as requested, so
/// they may be out of range. A plan rejects those.
#[derive(Clone, Copy, Debug)]
pub struct Sizes {
    /// The number of planners: 1 to 8, each in its own thread.
    pub planners: usize,
    /// How many messages of each planner may wait: 1 to 1,024.
    pub room: usize,
    /// The maximum number of entries in the agenda: 1 to 1,000,000.
    pub limit: u64,
}
