//! The findings of `check`: all errors and warnings of a crontab or a timer file, line by line.
//!
//! plan_rules reads each line by itself, and plan_next says whether a rule has a start. Read `finding` first,
//! then `files`, which finds what is wrong with a file, and `crontabs` and `timers` for the lines. `deciding` finds the
//! one error that decides if a file with an error makes no jobs.
//! `warnings`, `cron_warnings`, `timer_warnings` and `settings` are what they warn about. `known` is what is passed from
//! file to file, with the jobs that are kept, and `context` what a machine says of all its timers. `laws` connects
//! findings with jobs.
#![tactic(auto)]

mod context;
mod cron_warnings;
mod crontabs;
mod deciding;
mod files;
mod finding;
mod known;
mod laws;
mod report;
mod settings;
mod timer_warnings;
mod timers;
mod warnings;

pub use context::TimerContext;
pub use deciding::{FileFault, deciding_fault};
pub use files::{cause_at_once, file_findings};
pub use finding::{Finding, FindingKind, Warning};
pub use known::Known;
pub use laws::{a_file_means_its_reading, errors_need_no_clock};
pub use plan_cron::word_at;
