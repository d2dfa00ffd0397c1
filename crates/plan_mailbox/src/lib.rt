//! A mailbox: a few senders, each with a fixed capacity for messages, and one receiver.
//!
//! `Post` is what every mailbox can do, and `run_steps` performs a list of steps on any of them. Each reply
//! follows from the history of the steps before it. That history is lawful: what is taken from a sender is a
//! prefix of what it sent, each message once and in order, and a sender sends nothing after its close. `Core`
//! keeps a queue for each sender, `Rings` a ring.
//!
//! The crate uses no other crate of the project. From the kit it uses `rtrb` for the rings. Read `mailbox`
//! first, then `lanes`, whose code `Core` and `Rings` share. `outlet` and `inlet` are the ends that threads
//! hold.
#![tactic(auto)]

mod faults;
mod inlet;
mod lane;
mod lanes;
mod laws;
mod locked;
mod mailbox;
mod outlet;
mod queues;
mod replies;
mod ring_end;
mod rings;
mod run;
mod scan;
mod sizes;

pub use faults::NewFault;
pub use inlet::{Inlet, NotSettled};
pub use laws::{takes_what_outlets_sent, takes_what_was_sent};
pub use locked::Locked;
pub use mailbox::Post;
pub use outlet::{Outlet, Receipt};
pub use queues::Core;
pub use replies::{Reply, Step};
pub use rings::Rings;
pub use run::run_steps;
pub use sizes::{MOST_ROOM, MOST_SENDERS};
