//! Why an agenda has no gap: the longest gap, and the jobs that cover most of the span.
//!
//! A job covers the seconds at which it may start. `cover` counts them, in one pass over the entries of an agenda.
//! `ranking` picks the jobs that cover most. `remark` makes the line, with the lengths of `lengths`. Read
//! `remark` first.
#![tactic(auto)]

mod cover;
mod lengths;
mod ranking;
mod remark;

pub use cover::{Cover, covers_of};
pub use ranking::most_covering;
pub use remark::{longest_gap, remark_on};
