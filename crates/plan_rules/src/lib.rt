//! Crontabs and timer files, the jobs in them, and the rules by which these jobs start.
//!
//! Open `crontabs` first (crontab(5)), then `timers` (systemd.timer(5), systemd.syntax(7)). Each takes its text from
//! `file_text` and makes a `job` of each rule. `source_kind` is the table of the kinds of such files, with their names.
//! `jobs` is the list of all jobs, by their names. An `entry` is what one line says by itself: the first rejected one
//! is the error of the file, and a caller can report all of them. `timer_lines` says what each line of a timer does,
//! `timer_events` reads the lines one after the other, and `timer_draft` keeps what they say of the job.
//! `timer_options` finds how late a timer may start. `timer_zones` finds the `names` of the time zones that the events
//! of a timer end with.
//!
//! The crate also re-exports names of three crates below it: plan_texts, plan_match and plan_grammar.
#![tactic(auto)]

mod crontabs;
mod entry;
mod file_text;
mod job;
mod jobs;
mod line_fault;
mod names;
mod source_kind;
mod timer_draft;
mod timer_events;
mod timer_lines;
mod timer_options;
mod timer_zones;
mod timers;

pub use crontabs::{Kind, crontab, crontab_entry, job_name};
pub use entry::Entry;
pub use file_text::text_of;
pub use job::Job;
pub use jobs::{AddFault, Jobs, MOST_JOBS};
pub use line_fault::{LineCause, LineFault};
pub use names::Names;
pub use plan_grammar::{
    EventZones, NamedZone, RuleCause, RuleFault, calendar_event, calendar_rule, cron_rule,
    zone_name,
};
pub use plan_match::{Calendar, CronRule, DayCount, Events, Rule};
pub use plan_texts::{Text, cut, lines, number};
pub use source_kind::SourceKind;
pub use timer_draft::TimerDraft;
pub use timer_events::{TimerLine, TimerReader};
pub use timer_lines::{is_monotonic_key, is_reset, setting_of};
pub use timer_options::TimerOptions;
pub use timer_zones::{add_timer_zones, only_named_zones_matter};
pub use timers::{MOST_EVENTS, is_timer_name, timer, timer_job, timer_user};
