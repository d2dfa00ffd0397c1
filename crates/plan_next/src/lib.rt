//! Finds the next start of a rule by jumps from field to field, and makes pieces: all starts of a rule in a
//! part of time.
//!
//! This crate uses plan_match, which says what a rule matches, plan_clock and plan_sets. Read `next` first: its
//! head explains the names of functions. `search` has the jumps, and `piece` has what planners send.
#![tactic(auto)]

mod close;
mod laws;
mod minutes;
mod month;
mod next;
mod nexts;
mod piece;
mod search;
mod span;
mod zone;

pub use close::has_close_starts;
pub use laws::starts_without_clock;
pub use next::{next_from, next_start};
pub use piece::{NoMemory, Piece, next_piece};
pub use span::{Span, SpanFault};
