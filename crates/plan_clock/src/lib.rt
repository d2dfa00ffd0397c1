//! Clocks: the offset from UTC of a zone's clock, at each second.
//!
//! The crate uses no other crate and reads no files: a clock is made from the list of its changes. Open `row`
//! first, then `clock`.
#![tactic(auto)]

mod clock;
mod row;

pub use clock::{Clock, Stretch};
pub use row::{Change, MOST_OFFSET, Row};
