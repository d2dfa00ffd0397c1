//! The agenda of jobs over a span: which job starts when. A job with a delay may start later than at a time of
//! its rule. So such times before the span belong to the agenda too, if the delay reaches into the span.
//! Planners send pieces of the jobs' starts. A collector checks and keeps them, and makes the agenda, sorted by
//! time and then by job.
//!
//! The crate uses plan_rules for the jobs, and plan_next for the pieces. Read `collector` first, then
//! `agenda`. `timing` has the delays, and `windows` the laws of them. `plan_fault` has the errors of a plan,
//! `upcoming` the next start of each job, and `view` what is printed of an agenda. plan_write makes the texts.
#![tactic(auto)]

mod agenda;
mod collector;
mod merging;
mod note;
mod plan_fault;
mod sizes;
mod sorting;
mod start;
mod timing;
mod upcoming;
mod view;
mod windows;

pub use agenda::Agenda;
pub use collector::{CollectFault, Collector, CollectorFault, MOST_ENTRIES, MOST_PLANNERS};
pub use merging::accepts_every_merging;
pub use note::{Note, PIECE_STARTS};
pub use plan_fault::PlanFault;
pub use plan_next::{Span, SpanFault};
pub use sizes::Sizes;
pub use start::Start;
pub use timing::first_second;
pub use upcoming::Upcoming;
pub use view::PlanView;
pub use windows::{agenda_has_each_window_once, without_delays_windows_are_the_agenda};
