//! Reads the command of a job as sh(1) does, in the part of its grammar that has no loops and no functions.
//!
//! Read `step` and `list` first: they say what a command is read as. `modes` and `pieces` cut its text into words and
//! operators, and `commands` says which simple commands have no effect. `tokens`, `level` and `reader` are the grammar.
#![tactic(auto)]

mod commands;
mod conditions;
mod level;
mod list;
mod modes;
mod pieces;
mod reader;
mod step;
mod theorem;
mod tokens;
mod words;

pub use list::ShellList;
pub use step::{Property, Step};
pub use theorem::read_is_in_grammar;
