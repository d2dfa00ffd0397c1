//! How systemd 252 reads the file of a timer that agenda accepts.
//!
//! `timer_file` has the lines that systemd ends elsewhere, the files that it rejects and the settings that it ignores.
//! `setting` is a setting, as a pair of texts. `triggers` says whether anything starts the timer.
#![tactic(auto)]

mod setting;
mod timer_file;
mod triggers;

pub use setting::TimerSetting;
pub use timer_file::{has_bad_header, is_bad_boolean, is_bad_unit, is_elapsing_span, line_note};
pub use triggers::{has_trigger, rejected_whole};
