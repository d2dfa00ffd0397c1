//! Tests of plan_times, on the clock of Europe/Berlin in 2026.
//!
//! They have a crate of their own, since the gate proves a crate again if it has tests.
#![tactic(auto)]

#[cfg(test)]
mod times;
