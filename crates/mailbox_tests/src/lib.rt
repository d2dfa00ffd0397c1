//! Tests of the mailboxes of plan_mailbox in threads: the ends of rings, and a mailbox behind a lock.
//!
//! They are not in plan_tests, since a check of a crate of tests first reads all crates below it, and below this one
//! is only plan_mailbox.
#![tactic(auto)]

#[cfg(test)]
mod ends;
#[cfg(test)]
mod locks;
#[cfg(test)]
mod senders;
