//! What a machine misses while it is down: the starts of its jobs, grouped by job, and what becomes of them once the
//! machine is up again.
//!
//! The agenda comes from plan_collect and the jobs from plan_rules. Read `downtime` first: it groups the entries of an
//! agenda by job, with the tallies of `tally` and `counted`. `missed` has what is said of a job, and `outcome` what becomes
//! of its starts. `lines` writes them, as text or as JSON. `laws` has the laws.
#![tactic(auto)]

mod counted;
mod downtime;
mod laws;
mod lines;
mod missed;
mod outcome;
mod tally;

pub use downtime::missed_starts;
pub use laws::{counts_are_of_all_entries, has_line_if_it_may_start, lost_is_not_made_up};
pub use lines::write_downtime;
pub use missed::Missed;
pub use outcome::Outcome;
