//! What the jobs of a crontab run on a machine.
//!
//! Read `idle` first: it has the jobs that run nothing with an effect, and the text of the crontab without them. `scripts`
//! has the scripts of the other jobs. Both read the command of a line's job with `commands`, under the `settings` that are
//! in force there.
#![tactic(auto)]

mod commands;
mod idle;
mod scripts;
mod settings;

pub use idle::{
    ActiveCrontab, IdleJob, active_crontab, active_text_is_read, idle_jobs_are_left_out,
};
pub use scripts::{LineScripts, scripts_of_lines};
