//! Tests of the crates that find the sources of a machine for `agenda machine`: of plan_machine as a whole, and of the
//! names of units that systemd takes. The rows of the program have the cases.
//!
//! They have a crate of their own, since the gate proves a crate again if it has tests. `tree` is the tree of files
//! that they read.
#![tactic(auto)]

#[cfg(test)]
mod machine;
#[cfg(test)]
mod tree;
#[cfg(test)]
mod units;
