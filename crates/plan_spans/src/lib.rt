//! Parses the values of settings as systemd 252 does: time spans (systemd.time(7), parsing time spans) and booleans
//! (systemd.syntax(7)).
//!
//! A time span is the word `infinity`, or pairs of a number and a unit, such as `1h 30min`. Open `span` first.
#![tactic(auto)]

mod booleans;
mod number;
mod pair;
mod space;
mod span;
mod unit;

pub use booleans::{boolean, boolean_after};
pub use span::time_span;
