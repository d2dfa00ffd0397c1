//! What the daemons of a machine load of a source, by its text.
//!
//! Cron and systemd ignore whole files, and parts of files, that agenda can read. Read `loading` first. `zone_lines` has the
//! lines of a crontab that start in another time zone, and `cron_lines` the crontabs that Debian's cron ignores.
//! `timer_lines` has what systemd loads of a timer.
#![tactic(auto)]

mod cron_lines;
mod loading;
mod timer_lines;
mod zone_lines;

pub use loading::{Loading, loading_of};
