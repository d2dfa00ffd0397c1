//! What the program says when it fails: the error, its line on standard error, and the exit status.
//!
//! The errors are those of the crates below, and plan_streams writes the line. Read `status` and `faults`
//! first, then `fault_lines`. The modules `machine_faults` and `machine_lines` have what concerns only questions about
//! a machine.
#![tactic(auto)]

mod fault_lines;
mod faults;
mod machine_faults;
mod machine_lines;
pub mod status;

pub use fault_lines::fault_line;
pub use faults::{Failure, RunFault};
pub use machine_faults::{MachineFault, NumberOption, TimeOption};
