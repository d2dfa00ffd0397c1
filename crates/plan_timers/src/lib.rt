//! The timers of a machine: which of them are sources, and why the others aren't (systemd.timer(5)).
//!
//! Read `timers` first, which goes over the timers one after the other, then `timer` for one of them. `order` says in which
//! order they come, `names` which name its job has, `links` and `wish` what enables it, and `files` which of its files
//! can be read, with their bytes. `dirs` and `read_dirs` say what is skipped of directories, and `counted` which of
//! their entries count. `unwanted` finds the timers that only units want that the boot doesn't start. `reports` has the reasons
//! why something is skipped or isn't planned, on a whole machine.
#![tactic(auto)]

mod counted;
mod dirs;
mod files;
mod links;
mod names;
mod order;
mod read_dirs;
mod reports;
mod source;
mod timer;
mod timers;
mod units;
mod unwanted;
mod wish;

pub use reports::{NotPlanned, Skipped, Unplanned, Why, copy_of};
pub use source::TimerSource;
pub use timers::{TimersFound, machine_timers};
