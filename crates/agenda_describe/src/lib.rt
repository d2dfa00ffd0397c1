//! Says in words when jobs start: the sentences of their rules, and the texts that `describe` prints of them.
//!
//! `rule` has the sentence of a rule, and `timer` those of the events of a timer. `known` keeps sentences of cron rules for
//! later jobs. `jobs` has the sentences of jobs, `lines` writes them as lines, and `table` as a table. Read `jobs` first. The
//! sentences are those of plan_describe and plan_words.
#![tactic(auto)]

mod jobs;
mod known;
mod lines;
mod rule;
mod table;
mod timer;

pub use jobs::{DescribedJob, Descriptions};
pub use lines::{write_descriptions, write_sentence};
pub use rule::describe_asked;
pub use table::{jobs_text, write_description_table};
