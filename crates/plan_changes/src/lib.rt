//! What changed between an agenda that was written earlier and one that was made now.
//!
//! The earlier agenda comes from plan_baseline, and the new one from plan_collect. Read `compare` first: it finds the starts
//! that only one of them has. `keys` has what numbers of starts are, `earlier_keys` those of an earlier agenda, and `new_keys` those
//! of a new one. `lacking` finds the starts that another list lacks: it counts, by `counts`, how many of each are left. `change`
//! has what is said of such a start. `job_lines` has what the lines of a new agenda say of each job, and `new_lines` its starts
//! with these. `lines` writes the changes, as text or as JSON. `laws` has the laws.
#![tactic(auto)]

mod change;
mod compare;
mod counts;
mod earlier_keys;
mod job_lines;
mod keys;
mod lacking;
mod laws;
mod lines;
mod new_keys;
mod new_lines;

pub use change::{Change, ChangeKind};
pub use compare::changes;
pub use job_lines::JobLines;
pub use laws::{changes_are_differences, no_changes_if_same};
pub use lines::write_changes;
pub use new_lines::NewLines;
