//! The crontabs and timers of a machine, and what else starts jobs there.
//!
//! A machine is a tree of files. Read `source` and `machine` first, which say what is found, then `cron`. The timers are those
//! of plan_timers. `ignored` has the crontabs that cron ignores.
#![tactic(auto)]

mod collection;
mod cron;
mod daemon;
mod directories;
mod files;
mod ignored;
mod machine;
mod others;
mod source;
mod spool;
mod zone;

pub use collection::MachineSources;
pub use cron::crontabs;
pub use daemon::{has_cron_daemon, lacks_cron_daemon};
pub use machine::{Machine, find_machine};
pub use others::{anacron_jobs, at_jobs, homeless_timers};
pub use plan_owners::CronDaemon;
pub use plan_timers::{NotPlanned, Skipped, Unplanned, Why};
pub use source::MachineSource;
pub use zone::{MachineZone, machine_zone};
