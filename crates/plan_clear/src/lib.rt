//! The first entry of an agenda, found without planning the rest. It says whether a span is clear: whether no job may
//! start in it.
//!
//! The crate uses plan_collect, which defines the agenda of windows, and plan_next for the next start of a rule. All of
//! it is in `first`.
#![tactic(auto)]

mod first;

pub use first::{first_entry, first_entry_is_least, none_without_windows, nothing_starts_if_clear};
