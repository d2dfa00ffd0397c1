//! The commands: each of them makes a text, or writes it to a stream.
//!
//! `next` writes the next starts of a rule, as lines or as a table, `check` all errors of sources, `steps`, whose module is `script`, the
//! replies to a script, `explain` what a code of an error or a warning means, and `describe` in words when a rule or each job starts.
//! There is a module for each of them.
//!
//! `plan`, `upcoming` and `quiet` answer for the jobs of sources: with their agenda, with when each of them starts next,
//! and with the gaps without a start. They are values of `Goal`. Read `prepare` first: it makes the answer before a byte
//! of it is written. `goal` has what is made of jobs, `table` makes it as a table, and `agenda_of` makes their agenda.
//! `remark` makes the answer in each form, and adds why there is no gap.
//!
//! The crate uses agenda_sources, plan_threads and agenda_script, which do the work, plan_write, agenda_table, agenda_findings
//! and agenda_codes, which write the texts, and agenda_faults for the errors. `laws` says that each error has a code.
#![tactic(auto)]

mod agenda_of;
mod check;
mod describe;
mod earlier;
mod explain;
mod goal;
mod laws;
mod next;
mod prepare;
mod remark;
mod script;
mod table;

pub use check::{Checked, are_warnings, run_check};
pub use describe::{prepare_description, run_describe};
pub use earlier::Earlier;
pub use explain::run_explain;
pub use goal::{Goal, Planning, origin_at};
pub use laws::codes_are_explained;
pub use next::{run_next, run_next_form};
pub use prepare::{Form, PreparedAnswer, RemarkedAnswer, kept_if, prepare_answer};
pub use remark::prepare_remarked;
pub use script::run_script;
pub use table::TableForm;
