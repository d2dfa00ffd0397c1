//! The texts of findings: the errors and warnings of sources, in words, and what a plan that keeps going skips;
//! and the error of a rule that is given by itself.
//!
//! The findings come from agenda_sources. Each is a line of text, or an object in JSON, whose strings are those of
//! plan_write. Read `findings` first, then `messages` and
//! `warnings`.
#![tactic(auto)]

mod findings;
mod messages;
mod quotes;
mod rules;
mod skipped;
mod warnings;

pub use findings::write_findings;
pub use rules::rule_fault_line;
pub use skipped::write_skipped;
