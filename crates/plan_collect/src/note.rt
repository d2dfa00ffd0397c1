//! The messages of planners.

use plan_next::Piece;

/// The maximum number of starts in a planner's piece.
pub const PIECE_STARTS: usize = 1_024;

/// A message from a planner to the collector.
#[derive(Debug, Drop)]
pub enum Note {
    /// A piece of the starts of the job with this number.
    Part(u32, Piece),
    /// The planner's last message: it has sent all pieces of its jobs.
    Last,
}
