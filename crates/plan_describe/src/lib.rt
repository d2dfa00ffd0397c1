//! Describes rules: says what they mean as a tree, from which plan_words makes a sentence.
//!
//! Open `rule` first. `time` and `days` choose how the parts are said, by the sets of numbers that a rule has,
//! `numbers` says sets, and `series` finds times that are evenly spaced.
#![tactic(auto)]

mod dates;
mod days;
mod law;
mod months;
mod numbers;
mod rule;
mod series;
mod time;
mod units;

pub use law::{descriptions_tell, sentences_tell};
pub use rule::{describe_cron, describe_event};
