//! A plan by one planner, without threads. It gives the same agenda as a plan by threads, and `bin/bench`
//! measures it. The program doesn't use it.
//!
//! The crate uses plan_collect for the collector, and plan_next for the pieces.
#![tactic(auto)]

mod serial;

pub use serial::plan_serial;
