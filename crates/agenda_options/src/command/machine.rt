//! Describes the command line of `agenda machine`, whose arguments begin with `machine`.
ghost use Rattle.std.specs.Prelude.{◌≡◌, IfOk, false};
ghost use Rattle.clap.specs.Words.{app_of};
ghost use Rattle.clap.specs.declared.builder.command.Command.TheViews.{out-Command};
ghost use Rattle.agenda_options.specs.Command.{machine, machine_alone, machine_changes, machine_check, machine_clear, machine_describe, machine_downtime, machine_next};
ghost use Rattle.agenda_options.specs.Command.{machine_plan, machine_quiet, machine_scripts, machine_sources, machine_upcoming, machine_week, with_machine_span, with_machine_times};

mod texts;

use super::subcommands::Subcommand;
use super::{
    ALLOW, CommandOption, DENY, JSON, PLANNERS, ROOM, argument, help, new_subcommand, with_alias,
    with_argument, with_arguments, with_subcommands,
};
use clap::Command;
use std::alloc::{AllocError, Global};

// The options that name a machine.
const ROOT: CommandOption<'static> = CommandOption::Preset("root", "DIR", "/", texts::ROOT);

const ALL: CommandOption<'static> = CommandOption::Flag("all", texts::ALL);

// The options for its time zone.
const ZONE: CommandOption<'static> = CommandOption::Text("zone", "ZONE", texts::ZONE);

const UTC: CommandOption<'static> = CommandOption::Flag("utc", texts::UTC);

// The time after which starts are listed.
const AFTER: CommandOption<'static> = CommandOption::Preset("after", "TIME", "now", texts::AFTER);

// The jobs that are left out of the answer.
const EXCEPT: CommandOption<'static> = CommandOption::Repeated("except", "PATTERN", texts::EXCEPT);

// The jobs of which others are left out.
const ONLY: CommandOption<'static> = CommandOption::Repeated("only", "PATTERN", texts::ONLY);

// Whether jobs that do nothing are in the answer.
const IDLE: CommandOption<'static> = CommandOption::Flag("idle", texts::IDLE);

// Whether an error in a file stops the answer.
const STRICT: CommandOption<'static> = CommandOption::Flag("strict", texts::STRICT);

// The other forms of an answer.
const TABLE: CommandOption<'static> = CommandOption::Flag("table", texts::TABLE);

const TEXT: CommandOption<'static> = CommandOption::Flag("text", texts::TEXT);

// The maximum number of starts.
const LIMIT: CommandOption<'static> = CommandOption::Number("limit", "1000000", help::LIMIT);

/// Returns the command line of `agenda machine`.
///
/// # Errors
///
/// An allocation failed.
#[tactic(auto, unfolding(crate::specs::Command::machine))]
pub fn machine_command<'a>(alloc: Global) -> Result<Command<'a>, AllocError>
    ensures { IfOk result (λ command. app_of command ≡ machine) }
{
    let questions = [
        Subcommand::MachineUpcoming,
        Subcommand::MachinePlan,
        Subcommand::MachineQuiet,
        Subcommand::MachineDowntime,
        Subcommand::MachineClear,
        Subcommand::MachineChanges,
        Subcommand::MachineWeek,
        Subcommand::MachineScripts,
        Subcommand::MachineCheck,
        Subcommand::MachineSources,
        Subcommand::MachineNext,
        Subcommand::MachineDescribe,
    ];
    with_subcommands(alloc, machine_alone(alloc)?, &questions)
}

// Returns the command line without its questions.
fn machine_alone<'a>(alloc: Global) -> Result<Command<'a>, AllocError>
    ensures { IfOk result (λ command. app_of command ≡ machine_alone) }
{
    Command::new(alloc, "machine")
        .about(help::MACHINE)
        .after_help(help::AFTER_MACHINE)
        .override_usage(texts::USAGE)
        .subcommand_required(true)
        .disable_help_subcommand(true)
        .bin_name("agenda machine")
}

/// Returns the command line of `agenda machine sources`.
///
/// # Errors
///
/// An allocation failed.
#[tactic(auto, unfolding(crate::specs::Command::machine_sources, crate::specs::Command::with_machine))]
pub(super) fn machine_sources_command<'a>(alloc: Global) -> Result<Command<'a>, AllocError>
    ensures app { IfOk result (λ command. app_of command ≡ machine_sources) }
    ensures local { IfOk result (λ command. (out-Command command).has_globals ≡ false) }
{
    let command = new_subcommand(alloc, "sources", texts::SOURCES, texts::AFTER_SOURCES);
    with_arguments(alloc, command, &[ROOT, ALL, JSON])
}

/// Returns the command line of `agenda machine check`.
///
/// # Errors
///
/// An allocation failed.
#[tactic(auto, unfolding(crate::specs::Command::machine_check, crate::specs::Command::with_machine))]
pub(super) fn machine_check_command<'a>(alloc: Global) -> Result<Command<'a>, AllocError>
    ensures app { IfOk result (λ command. app_of command ≡ machine_check) }
    ensures local { IfOk result (λ command. (out-Command command).has_globals ≡ false) }
{
    let command = new_subcommand(alloc, "check", texts::CHECK, texts::AFTER_CHECK);
    with_arguments(alloc, command, &[ROOT, ALL, ZONE, UTC, DENY, ALLOW, JSON])
}

/// Returns the command line of `agenda machine upcoming`.
///
/// # Errors
///
/// An allocation failed.
#[tactic(auto, unfolding(crate::specs::Command::machine_upcoming, crate::specs::Command::with_machine))]
pub(super) fn machine_upcoming_command<'a>(alloc: Global) -> Result<Command<'a>, AllocError>
    ensures app { IfOk result (λ command. app_of command ≡ machine_upcoming) }
    ensures local { IfOk result (λ command. (out-Command command).has_globals ≡ false) }
{
    let command = new_subcommand(alloc, "upcoming", texts::UPCOMING, texts::AFTER_UPCOMING);
    with_arguments(
        alloc,
        command,
        &[
            ROOT,
            ALL,
            AFTER,
            ZONE,
            UTC,
            EXCEPT,
            ONLY,
            IDLE,
            CommandOption::Flag("delays", help::DELAYS),
            STRICT,
            TABLE,
            TEXT,
            JSON,
        ],
    )
}

/// Returns the command line of `agenda machine plan`.
///
/// # Errors
///
/// An allocation failed.
#[tactic(auto, unfolding(crate::specs::Command::machine_plan))]
pub(super) fn machine_plan_command<'a>(alloc: Global) -> Result<Command<'a>, AllocError>
    ensures app { IfOk result (λ command. app_of command ≡ machine_plan) }
    ensures local { IfOk result (λ command. (out-Command command).has_globals ≡ false) }
{
    let command = new_subcommand(alloc, "plan", texts::PLAN, texts::AFTER_PLAN);
    let command = with_machine_span(alloc, command)?;
    with_arguments(
        alloc,
        command,
        &[
            ZONE,
            UTC,
            EXCEPT,
            ONLY,
            IDLE,
            CommandOption::Flag("delays", help::DELAYS),
            STRICT,
            TABLE,
            TEXT,
            JSON,
            LIMIT,
            PLANNERS,
            ROOM,
        ],
    )
}

/// Returns the command line of `agenda machine quiet`.
///
/// # Errors
///
/// An allocation failed.
#[tactic(auto, unfolding(crate::specs::Command::machine_quiet))]
pub(super) fn machine_quiet_command<'a>(alloc: Global) -> Result<Command<'a>, AllocError>
    ensures app { IfOk result (λ command. app_of command ≡ machine_quiet) }
    ensures local { IfOk result (λ command. (out-Command command).has_globals ≡ false) }
{
    let command = new_subcommand(alloc, "quiet", texts::QUIET, texts::AFTER_QUIET);
    let command = with_machine_span(alloc, command)?;
    with_arguments(
        alloc,
        command,
        &[
            CommandOption::Preset("least", "LENGTH", "30min", texts::LEAST),
            ZONE,
            UTC,
            EXCEPT,
            ONLY,
            IDLE,
            CommandOption::Flag("nominal", help::NOMINAL),
            STRICT,
            TABLE,
            TEXT,
            JSON,
            LIMIT,
            PLANNERS,
            ROOM,
        ],
    )
}

/// Returns the command line of `agenda machine downtime`.
///
/// # Errors
///
/// An allocation failed.
#[tactic(auto, unfolding(crate::specs::Command::machine_downtime))]
pub(super) fn machine_downtime_command<'a>(alloc: Global) -> Result<Command<'a>, AllocError>
    ensures app { IfOk result (λ command. app_of command ≡ machine_downtime) }
    ensures local { IfOk result (λ command. (out-Command command).has_globals ≡ false) }
{
    let command = new_subcommand(alloc, "downtime", texts::DOWNTIME, texts::AFTER_DOWNTIME);
    let command = with_machine_span(alloc, command)?;
    with_arguments(
        alloc,
        command,
        &[
            ZONE, UTC, EXCEPT, ONLY, IDLE, STRICT, TABLE, TEXT, JSON, LIMIT, PLANNERS, ROOM,
        ],
    )
}

/// Returns the command line of `agenda machine clear`.
///
/// # Errors
///
/// An allocation failed.
#[tactic(auto, unfolding(crate::specs::Command::machine_clear))]
pub(super) fn machine_clear_command<'a>(alloc: Global) -> Result<Command<'a>, AllocError>
    ensures app { IfOk result (λ command. app_of command ≡ machine_clear) }
    ensures local { IfOk result (λ command. (out-Command command).has_globals ≡ false) }
{
    let command = new_subcommand(alloc, "clear", texts::CLEAR, texts::AFTER_CLEAR);
    let command = with_machine_span(alloc, command)?;
    with_arguments(
        alloc,
        command,
        &[
            ZONE,
            UTC,
            EXCEPT,
            ONLY,
            IDLE,
            CommandOption::Flag("nominal", help::NOMINAL),
            STRICT,
            PLANNERS,
            ROOM,
        ],
    )
}

/// Returns the command line of `agenda machine changes`.
///
/// # Errors
///
/// An allocation failed.
#[tactic(auto, unfolding(crate::specs::Command::machine_changes, crate::specs::Command::with_machine))]
pub(super) fn machine_changes_command<'a>(alloc: Global) -> Result<Command<'a>, AllocError>
    ensures app { IfOk result (λ command. app_of command ≡ machine_changes) }
    ensures local { IfOk result (λ command. (out-Command command).has_globals ≡ false) }
{
    let command = new_subcommand(alloc, "changes", texts::CHANGES, texts::AFTER_CHANGES);
    with_arguments(
        alloc,
        command,
        &[
            ROOT,
            ALL,
            CommandOption::Argument("before", "BEFORE", help::BEFORE),
            ZONE,
            UTC,
            EXCEPT,
            ONLY,
            IDLE,
            STRICT,
            TABLE,
            TEXT,
            JSON,
            LIMIT,
            PLANNERS,
            ROOM,
        ],
    )
}

/// Returns the command line of `agenda machine week`.
///
/// # Errors
///
/// An allocation failed.
#[tactic(auto, unfolding(crate::specs::Command::machine_week))]
pub(super) fn machine_week_command<'a>(alloc: Global) -> Result<Command<'a>, AllocError>
    ensures app { IfOk result (λ command. app_of command ≡ machine_week) }
    ensures local { IfOk result (λ command. (out-Command command).has_globals ≡ false) }
{
    let command = new_subcommand(alloc, "week", texts::WEEK, texts::AFTER_WEEK);
    let command = with_machine_times(alloc, command, "today", "+7d")?;
    with_arguments(
        alloc,
        command,
        &[
            ZONE, UTC, EXCEPT, ONLY, IDLE, STRICT, JSON, LIMIT, PLANNERS, ROOM,
        ],
    )
}

/// Returns the command line of `agenda machine scripts`.
///
/// # Errors
///
/// An allocation failed.
#[tactic(auto, unfolding(crate::specs::Command::machine_scripts, crate::specs::Command::with_machine))]
pub(super) fn machine_scripts_command<'a>(alloc: Global) -> Result<Command<'a>, AllocError>
    ensures app { IfOk result (λ command. app_of command ≡ machine_scripts) }
    ensures local { IfOk result (λ command. (out-Command command).has_globals ≡ false) }
{
    let command = new_subcommand(alloc, "scripts", texts::SCRIPTS, texts::AFTER_SCRIPTS);
    with_arguments(
        alloc,
        command,
        &[ROOT, ALL, AFTER, ZONE, UTC, EXCEPT, ONLY, IDLE, STRICT],
    )
}

/// Returns the command line of `agenda machine next`.
///
/// # Errors
///
/// An allocation failed.
#[tactic(auto, unfolding(crate::specs::Command::machine_next))]
pub(super) fn machine_next_command<'a>(alloc: Global) -> Result<Command<'a>, AllocError>
    ensures app { IfOk result (λ command. app_of command ≡ machine_next) }
    ensures local { IfOk result (λ command. (out-Command command).has_globals ≡ false) }
{
    let command = new_subcommand(alloc, "next", texts::NEXT, texts::AFTER_NEXT);
    with_arguments(
        alloc,
        command,
        &[
            CommandOption::Argument("rule", "RULE", texts::RULE),
            AFTER,
            CommandOption::Number("count", "5", help::COUNT),
            ZONE,
            UTC,
            TABLE,
            TEXT,
            JSON,
        ],
    )
}

/// Returns the command line of `agenda machine describe`.
///
/// # Errors
///
/// An allocation failed.
#[tactic(auto, unfolding(crate::specs::Command::machine_describe, crate::specs::Command::with_machine))]
pub(super) fn machine_describe_command<'a>(alloc: Global) -> Result<Command<'a>, AllocError>
    ensures app { IfOk result (λ command. app_of command ≡ machine_describe) }
    ensures local { IfOk result (λ command. (out-Command command).has_globals ≡ false) }
{
    let command = new_subcommand(alloc, "describe", texts::DESCRIBE, texts::AFTER_DESCRIBE);
    let command = with_arguments(
        alloc,
        command,
        &[
            ROOT, ALL, ZONE, UTC, EXCEPT, ONLY, IDLE, STRICT, TABLE, TEXT, JSON,
        ],
    )?;
    with_argument(command, argument(alloc, "rule", "RULE", texts::RULE))
}

// Adds what names a machine, and the span of a plan of it: from now on for a day, if it isn't given.
#[tactic(auto, unfolding(crate::specs::Command::with_machine_span))]
fn with_machine_span<'a>(alloc: Global, command: Command<'a>) -> Result<Command<'a>, AllocError>
    requires local { (out-Command command).has_globals ≡ false }
    ensures app { IfOk result (λ new. app_of new ≡ with_machine_span (app_of command.entry)) }
    ensures local { IfOk result (λ new. (out-Command new).has_globals ≡ false) }
{
    with_machine_times(alloc, command, "now", "+24h")
}

// Adds what names a machine, and the span of a plan of it: between these times, if it isn't given.
#[tactic(auto, unfolding(crate::specs::Command::with_machine_times, crate::specs::Command::with_machine))]
fn with_machine_times<'a>(
    alloc: Global,
    command: Command<'a>,
    since: &'a str,
    until: &'a str,
) -> Result<Command<'a>, AllocError>
    requires local { (out-Command command).has_globals ≡ false }
    ensures app { IfOk result (λ new. app_of new ≡ with_machine_times since.entry.now until.entry.now (app_of command.entry)) }
    ensures local { IfOk result (λ new. (out-Command new).has_globals ≡ false) }
{
    let command = with_arguments(
        alloc,
        command,
        &[
            ROOT,
            ALL,
            CommandOption::Preset("since", "TIME", since, texts::SINCE),
        ],
    )?;
    let until = CommandOption::Preset("until", "TIME", until, texts::UNTIL).to_clap(alloc);
    let until = with_alias(until, "upto")?;
    with_argument(command, until)
}
