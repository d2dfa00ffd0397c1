//! Which crontabs Debian's cron ignores for what their texts don't say: who owns them, their modes, and the users of the machine.
//!
//! Read `crontabs` first, which says why a file is ignored: `looks` sees who owns it, `file_faults` says what has to be, and
//! `users` has the users of the machine. `daemon` says which program reads the crontabs.
#![tactic(auto)]

mod crontabs;
mod daemon;
mod file_faults;
mod looks;
mod paths;
mod users;

pub use crontabs::{Ignored, file_why};
pub use daemon::{CronDaemon, Daemon};
pub use users::{User, users_of};
