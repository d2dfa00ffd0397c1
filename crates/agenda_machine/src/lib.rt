//! The texts of what is found on a machine: its sources, what is skipped or isn't planned there, and where the findings
//! of `check` are, and its jobs.
//!
//! The machine comes from plan_machine. `paths` says how people are shown paths below its root. Read `listing` first, then
//! `reports`. `loaded` has what the daemons load, `idle` the jobs in it that run nothing that
//! has an effect, and `unknown` what may start at times that files don't tell; `choice` leaves out what isn't asked for. `places`
//! passes the sources on to `check`, and finds the
//! file of each finding; `job_files` finds that of each job, with the scripts that `scripts` finds. `root` has the path of
//! the machine's root.
#![tactic(auto)]

mod choice;
mod idle;
mod job_files;
mod listing;
mod loaded;
mod paths;
mod places;
mod reports;
mod root;
mod scripts;
mod unknown;

pub use choice::{Choice, count_left, left_out, names_of, names_of_machine, unchosen, unexcepted};
pub use job_files::{files_of_jobs, lines_are_in_names};
pub use listing::write_sources;
pub use loaded::{
    LoadedMachine, idle_jobs_are_excepted, idle_jobs_of_machine_are_left_out, with_idle,
    with_loaded,
};
pub use places::{located, paths_of, places_have_paths, sources_of};
pub use reports::{Reports, is_incomplete, write_reports};
pub use root::{dir_of, root_of};
pub use unknown::{Name, Reading, Unknown, unknowns};
