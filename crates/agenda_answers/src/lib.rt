//! Does what the arguments of the command line request, over any files and streams.
//!
//! The crate uses agenda_arguments, which reads the arguments, and agenda_commands, which runs what they request.
//! agenda_inputs reads files and zones for it. Read `answers` first.
#![tactic(auto)]

mod answers;
mod changes;
mod choice;
mod clear;
mod describe;
mod formats;
mod host;
mod jobs;
mod laws;
mod machine;
mod machine_answer;
mod machine_describe;
mod machine_goal;
mod machine_next;
mod requests;

pub use agenda_table::Frame;
pub use answers::{answer, answer_arguments, unread_arguments};
pub use host::{Host, columns_of};
pub use jobs::keeping_going_changes_nothing;
pub use laws::{answers_except_idle_jobs, clear_is_safe, machine_clear_is_safe};
