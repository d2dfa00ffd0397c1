//! Tests of what the crates from plan_sets to plan_threads offer and no command of the program shows.
//!
//! They are about the names of errors, pieces in another order, planners, and plans. They have a crate of their own,
//! since the gate proves a crate again if it has tests. What the program shows is tested by the rows in rows/. What
//! writers get of a plan is tested in the program's crate. Mailboxes in threads are tested in mailbox_tests.
//!
//! Those of `again` and `without` are about calls whose allocation fails, and calls that request no memory. They
//! pass if memory is plentiful. bin/refuse-memory also runs each of them with allocations that fail: those of
//! `again` once for each request that they make, and those of `without` from a mark on.
#![tactic(auto)]

#[cfg(test)]
mod again;
#[cfg(test)]
mod collector;
#[cfg(test)]
mod ends;
#[cfg(test)]
mod names;
#[cfg(test)]
mod planner;
#[cfg(test)]
mod plans;
#[cfg(test)]
mod without;
