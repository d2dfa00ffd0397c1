//! Tests of agenda_arguments, agenda_sources, agenda_script, agenda_faults, agenda_commands and agenda_answers.
//!
//! They test what rows/ can't show by running the program: files and streams that fail, which files are
//! opened, what no input causes, and the names that errors print. They are in the program's crate because it
//! has almost no other code that the gate has to prove again for them.

mod answers;
mod files;
mod names;
mod rows;
mod streams;
mod writers;
