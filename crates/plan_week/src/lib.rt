//! A picture of a week, or of another span, in text: how many starts each local hour has.
//!
//! `hours` finds the hour that a clock shows. `table` counts the starts of the hours of each day around the span, and `week`
//! keeps the days that are in it. `text` writes them as a table or as JSON. Read `week` first, then `text`.
#![tactic(auto)]

mod day;
mod hours;
mod table;
mod text;
mod week;

pub use day::Day;
pub use text::write_week;
pub use week::{Week, starts_are_in_their_hours, sum_is_of_all_without_delays, sum_is_of_entries};
