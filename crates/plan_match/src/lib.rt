//! Rules as values: which seconds they match, and when two rules are equal.
//!
//! This crate uses plan_sets and plan_clock, and knows nothing of texts. Read `rule` first, then `cron` and
//! `event`, the two kinds of rules that match by fields.
#![tactic(auto)]

mod cron;
mod event;
mod events;
mod rule;

pub use cron::CronRule;
pub use event::{Calendar, DayCount};
pub use events::Events;
pub use rule::Rule;
