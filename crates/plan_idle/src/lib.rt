//! Says which commands of jobs are idle: nothing with an effect can run.
//!
//! Read `theorem` first: it says what idle means. `idle` says which commands are idle and why, and `script_paths` which
//! scripts of `run-parts` a command may run. Both go by `weighing`: what the steps of a command may run, which is its
//! `outcomes` and, in `gathered`, the directories of its scripts. `answer` is what a command finds where it looks, and
//! `tree_looks` what that is in a tree of files, by `files`, `run_parts` and `shell_words`. They look in a `known_tree`, which
//! has only the `known` places of a tree.
#![tactic(auto)]

mod answer;
mod files;
mod filled;
mod gathered;
mod idle;
mod known;
mod known_tree;
mod outcomes;
mod reason;
mod run_parts;
mod script_paths;
mod shell_words;
mod stack;
mod theorem;
mod tree_looks;
mod weighing;

pub use answer::{Answer, Look};
pub use idle::idle_reason;
pub use known::KnownPlaces;
pub use run_parts::scripts;
pub use script_paths::scripts_run;
pub use theorem::idle_runs_nothing;
pub use tree_looks::{Asker, TreeLooks};
