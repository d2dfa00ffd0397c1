//! A plan by planner threads: each planner sends the pieces of its jobs through a ring, and the calling
//! thread collects them.
//!
//! The crate uses plan_collect for the collector, and plan_mailbox for the rings. Read `planning` and `task`
//! first, then `planner`, which runs in each thread, and `desk`, where messages arrive.
#![tactic(auto)]

mod desk;
mod gate;
mod pause;
mod planner;
mod planning;
mod promise;
mod task;

pub use gate::{Gate, NoGate};
pub use planner::run_planner;
pub use planning::plan;
pub use task::Task;
