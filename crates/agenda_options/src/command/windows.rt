//! Describes the commands about a window of time: `downtime`, `clear`, `changes` and `week`.
ghost use Rattle.std.specs.Prelude.{◌≡◌, IfOk, false};
ghost use Rattle.clap.specs.Words.{app_of};
ghost use Rattle.clap.specs.declared.builder.command.Command.TheViews.{out-Command};
ghost use Rattle.agenda_options.specs.Command.{changes, clear, downtime, week, with_window};

use super::{
    CommandOption, EVENT_ZONES, JSON, LOCAL, PLAN_LIMIT, PLANNERS, ROOM, ZONE, help,
    new_subcommand, with_arguments, with_sources, with_span,
};
use clap::Command;
use std::alloc::{AllocError, Global};

// Whether what is invalid is skipped.
const KEEP_GOING: CommandOption<'static> = CommandOption::Flag("keep-going", help::KEEP_GOING);

/// Returns the command line of `agenda downtime`.
///
/// # Errors
///
/// An allocation failed.
#[tactic(auto, unfolding(crate::specs::Command::downtime))]
pub(super) fn downtime_command<'a>(alloc: Global) -> Result<Command<'a>, AllocError>
    ensures app { IfOk result (λ command. app_of command ≡ downtime) }
    ensures local { IfOk result (λ command. (out-Command command).has_globals ≡ false) }
{
    let command = new_subcommand(alloc, "downtime", help::DOWNTIME, help::AFTER_DOWNTIME);
    with_window(alloc, command)
}

/// Returns the command line of `agenda clear`.
///
/// # Errors
///
/// An allocation failed.
#[tactic(auto, unfolding(crate::specs::Command::clear, crate::specs::Command::with_zones))]
pub(super) fn clear_command<'a>(alloc: Global) -> Result<Command<'a>, AllocError>
    ensures app { IfOk result (λ command. app_of command ≡ clear) }
    ensures local { IfOk result (λ command. (out-Command command).has_globals ≡ false) }
{
    let command = new_subcommand(alloc, "clear", help::CLEAR, help::AFTER_CLEAR);
    let command = with_span(alloc, command)?;
    let command = with_arguments(
        alloc,
        command,
        &[
            ZONE,
            EVENT_ZONES,
            KEEP_GOING,
            CommandOption::Flag("nominal", help::NOMINAL),
            LOCAL,
        ],
    )?;
    let command = with_sources(alloc, command)?;
    with_arguments(alloc, command, &[PLANNERS, ROOM])
}

/// Returns the command line of `agenda changes`.
///
/// # Errors
///
/// An allocation failed.
pub(super) fn changes_command<'a>(alloc: Global) -> Result<Command<'a>, AllocError>
    ensures app { IfOk result (λ command. app_of command ≡ changes) }
    ensures local { IfOk result (λ command. (out-Command command).has_globals ≡ false) }
{
    let command = new_subcommand(alloc, "changes", help::CHANGES, help::AFTER_CHANGES);
    let command = with_arguments(
        alloc,
        command,
        &[
            CommandOption::Argument("before", "BEFORE", help::BEFORE),
            ZONE,
            EVENT_ZONES,
            KEEP_GOING,
            JSON,
            LOCAL,
        ],
    )?;
    let command = with_sources(alloc, command)?;
    with_arguments(alloc, command, &[PLAN_LIMIT, PLANNERS, ROOM])
}

/// Returns the command line of `agenda week`.
///
/// # Errors
///
/// An allocation failed.
#[tactic(auto, unfolding(crate::specs::Command::week))]
pub(super) fn week_command<'a>(alloc: Global) -> Result<Command<'a>, AllocError>
    ensures app { IfOk result (λ command. app_of command ≡ week) }
    ensures local { IfOk result (λ command. (out-Command command).has_globals ≡ false) }
{
    let command = new_subcommand(alloc, "week", help::WEEK, help::AFTER_WEEK);
    with_window(alloc, command)
}

// Adds what `downtime` and `week` have in common.
#[tactic(auto, unfolding(crate::specs::Command::with_window, crate::specs::Command::with_zones, crate::specs::Command::with_sizes))]
fn with_window<'a>(alloc: Global, command: Command<'a>) -> Result<Command<'a>, AllocError>
    requires local { (out-Command command).has_globals ≡ false }
    ensures app { IfOk result (λ new. app_of new ≡ with_window (app_of command.entry)) }
    ensures local { IfOk result (λ new. (out-Command new).has_globals ≡ false) }
{
    let command = with_span(alloc, command)?;
    let command = with_arguments(alloc, command, &[ZONE, EVENT_ZONES, KEEP_GOING, JSON])?;
    let command = with_sources(alloc, command)?;
    with_arguments(
        alloc,
        command,
        &[
            CommandOption::Number("limit", "1000000", help::LIMIT),
            PLANNERS,
            ROOM,
        ],
    )
}
