//! What a timer of a machine starts, and what systemd's own settings say of timers (systemd.timer(5), systemd-system.conf(5)).
//!
//! `started` finds the unit that a timer starts. `planned` goes over the timers, and tells those whose unit can start from
//! the others. `commands` says whether a service can start. `accuracy` is the accuracy of timers that set none.
#![tactic(auto)]

mod accuracy;
mod commands;
mod planned;
mod started;

pub use accuracy::default_accuracy;
pub use planned::{PlannedTimers, planned_timers};
