//! What is printed of an agenda.

/// What is printed of the agenda of jobs.
#[derive(Clone, Copy, Debug, PartialEq, Eq)]
pub enum PlanView {
    /// Every entry.
    Starts,
    /// What each job misses if the machine is down for the span.
    Downtime,
    /// The number of starts in each hour.
    Week,
    /// The first entry alone.
    First,
}
