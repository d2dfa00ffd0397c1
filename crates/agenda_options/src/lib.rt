//! The command lines of `agenda` and of `agenda machine`, described to clap: their subcommands, options and arguments,
//! with their help.
//!
//! The crate uses the kit's `clap`, and plan_rules for the table of the kinds of sources. Read `command` first. It has
//! the command line of `agenda`, and below it are `machine`, for `agenda machine`, and `help`, for the texts. Those of
//! `agenda machine` are below `machine`.
#![tactic(auto)]

mod command;

pub use command::{agenda_command, machine_command};
