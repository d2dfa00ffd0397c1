//! Describes the command line to `clap`.
ghost use Rattle.std.specs.Prelude.{◌≡◌, [], ◌∷◌, IfOk, false, map};
ghost use Rattle.clap.specs.Words.{app_of, items_of, new_app, rule_of, with_rule};
ghost use Rattle.clap.specs.declared.builder.command.Command.TheViews.{out-Command};
ghost use Rattle.agenda_options.specs.Command.{agenda, agenda_alone, argument_named, check, describe, explain};
ghost use Rattle.agenda_options.specs.Command.{flag_option, next, number_option, option_named, path_rule};
ghost use Rattle.agenda_options.specs.Command.{plan, quiet, rule_for, source_rule, steps, upcoming, with_alias, with_each};
ghost use Rattle.agenda_options.specs.Command.{with_jobs, with_sources, with_span, with_subcommands};

mod help;
mod machine;
mod subcommands;
mod windows;

use clap::{Arg, ArgAction, Command, value_parser};
pub use machine::machine_command;
use plan_rules::SourceKind;
use std::alloc::{AllocError, Global};
use subcommands::Subcommand;

// The version of the program, which is written only here, and the prover's version.
const VERSION: &str = "0.1.0\nproved with rattle-kit-13f logic dac8208d650f15bf";

// An option or argument of a subcommand. Its first text is its name, and its last one its help. A table of options
// takes no memory, so there is nothing to free if an allocation fails.
#[derive(Clone, Copy)]
enum CommandOption<'a> {
    // An option without a value.
    Flag(&'a str, &'a str),
    // An option with a value, which is optional. The second text stands for the value in help.
    Text(&'a str, &'a str, &'a str),
    // The same with a default, which is the third text.
    Preset(&'a str, &'a str, &'a str, &'a str),
    // The same without a default, which may be given any number of times.
    Repeated(&'a str, &'a str, &'a str),
    // An option for a timestamp, which is required.
    Moment(&'a str, &'a str),
    // An option for a whole number of 32 bits. The second text is its default.
    Number(&'a str, &'a str, &'a str),
    // The same, in help's section for tuning.
    Tuning(&'a str, &'a str, &'a str),
    // An argument without an option, which is required. The second text stands for it in help.
    Argument(&'a str, &'a str, &'a str),
}

// The start of what `next` and `upcoming` list.
const AFTER: CommandOption<'static> = CommandOption::Moment("after", help::AFTER);

// The options for time zones.
const ZONE: CommandOption<'static> = CommandOption::Text("zone", "ZONE", help::ZONE);

const EVENT_ZONES: CommandOption<'static> = CommandOption::Flag("event-zones", help::EVENT_ZONES);

// The flags for the form of the output.
const JSON: CommandOption<'static> = CommandOption::Flag("json", help::JSON);

const LOCAL: CommandOption<'static> = CommandOption::Flag("local", help::LOCAL);

// What `check` makes errors of, and what it leaves out.
const DENY: CommandOption<'static> = CommandOption::Repeated("deny", "CODE", help::DENY);

const ALLOW: CommandOption<'static> = CommandOption::Repeated("allow", "CODE", help::ALLOW);

// The sizes of a plan, beside its limit.
const PLANNERS: CommandOption<'static> = CommandOption::Tuning("planners", "2", help::PLANNERS);

const ROOM: CommandOption<'static> = CommandOption::Tuning("room", "16", help::ROOM);

// The maximum number of starts of a plan.
const PLAN_LIMIT: CommandOption<'static> = CommandOption::Number("limit", "10000", help::LIMIT);

impl<'a> CommandOption<'a> {
    // Returns the option in clap's terms.
    fn to_clap(self, alloc: Global) -> Arg<'a>
        ensures rule { rule_of result ≡ rule_for self.entry }
        ensures local { result.global ≡ false }
    {
        match self {
            CommandOption::Flag(name, help) => flag_option(alloc, name, help),
            CommandOption::Text(name, value, help) => text_option(alloc, name, value, help),
            CommandOption::Preset(name, value, default, help) => {
                text_option(alloc, name, value, help).default_value(default)
            }
            CommandOption::Repeated(name, value, help) => {
                text_option(alloc, name, value, help).action(ArgAction::Append)
            }
            CommandOption::Moment(name, help) => text_option(alloc, name, "T", help).required(true),
            CommandOption::Number(name, default, help) => number_option(alloc, name, default, help),
            CommandOption::Tuning(name, default, help) => {
                number_option(alloc, name, default, help).help_heading(help::TUNING)
            }
            CommandOption::Argument(name, value, help) => {
                argument(alloc, name, value, help).required(true)
            }
        }
    }
}

/// Returns the command line of the program.
///
/// # Errors
///
/// An allocation failed.
#[tactic(auto, unfolding(crate::specs::Command::agenda))]
pub fn agenda_command<'a>(alloc: Global) -> Result<Command<'a>, AllocError>
    ensures { IfOk result (λ command. app_of command ≡ agenda) }
{
    let subcommands = [
        Subcommand::Next,
        Subcommand::Plan,
        Subcommand::Upcoming,
        Subcommand::Quiet,
        Subcommand::Downtime,
        Subcommand::Clear,
        Subcommand::Changes,
        Subcommand::Week,
        Subcommand::Check,
        Subcommand::Describe,
        Subcommand::Machine,
        Subcommand::Explain,
        Subcommand::Steps,
    ];
    with_subcommands(alloc, agenda_alone(alloc)?, &subcommands)
}

// Returns the command line without its subcommands.
fn agenda_alone<'a>(alloc: Global) -> Result<Command<'a>, AllocError>
    ensures { IfOk result (λ command. app_of command ≡ agenda_alone) }
{
    Command::new(alloc, "agenda")
        .version(VERSION)
        .about(help::AGENDA)
        .after_help(help::AFTER_AGENDA)
        .subcommand_required(true)
        .disable_help_subcommand(true)
        .bin_name("agenda")
}

#[tactic(auto, unfolding(crate::specs::Command::next, crate::specs::Command::with_zones, crate::specs::Command::with_format))]
fn next_command<'a>(alloc: Global) -> Result<Command<'a>, AllocError>
    ensures app { IfOk result (λ command. app_of command ≡ next) }
    ensures local { IfOk result (λ command. (out-Command command).has_globals ≡ false) }
{
    let command = new_subcommand(alloc, "next", help::NEXT, help::AFTER_NEXT);
    with_arguments(
        alloc,
        command.override_usage(help::NEXT_USAGE),
        &[
            AFTER,
            ZONE,
            EVENT_ZONES,
            CommandOption::Number("count", "1", help::COUNT),
            CommandOption::Text("cron", "TEXT", help::CRON),
            CommandOption::Text("calendar", "TEXT", help::CALENDAR),
            JSON,
            LOCAL,
        ],
    )
}

#[tactic(auto, unfolding(crate::specs::Command::plan, crate::specs::Command::with_sizes))]
fn plan_command<'a>(alloc: Global) -> Result<Command<'a>, AllocError>
    ensures app { IfOk result (λ command. app_of command ≡ plan) }
    ensures local { IfOk result (λ command. (out-Command command).has_globals ≡ false) }
{
    let command = new_subcommand(alloc, "plan", help::PLAN, help::AFTER_PLAN);
    let command = with_span(alloc, command)?;
    let command = with_jobs(alloc, command, help::DELAYS)?;
    with_arguments(alloc, command, &[PLAN_LIMIT, PLANNERS, ROOM])
}

#[tactic(auto, unfolding(crate::specs::Command::upcoming))]
fn upcoming_command<'a>(alloc: Global) -> Result<Command<'a>, AllocError>
    ensures app { IfOk result (λ command. app_of command ≡ upcoming) }
    ensures local { IfOk result (λ command. (out-Command command).has_globals ≡ false) }
{
    let command = new_subcommand(alloc, "upcoming", help::UPCOMING, help::AFTER_UPCOMING);
    let command = with_arguments(alloc, command, &[AFTER])?;
    with_jobs(alloc, command, help::DELAYS)
}

#[tactic(auto, unfolding(crate::specs::Command::quiet, crate::specs::Command::with_sizes))]
fn quiet_command<'a>(alloc: Global) -> Result<Command<'a>, AllocError>
    ensures app { IfOk result (λ command. app_of command ≡ quiet) }
    ensures local { IfOk result (λ command. (out-Command command).has_globals ≡ false) }
{
    let command = new_subcommand(alloc, "quiet", help::QUIET, help::AFTER_QUIET);
    let command = with_span(alloc, command)?;
    let command = with_jobs(alloc, command, help::QUIET_DELAYS)?;
    with_arguments(
        alloc,
        command,
        &[
            CommandOption::Number("least", "1800", help::LEAST),
            CommandOption::Number("limit", "1000000", help::LIMIT),
            PLANNERS,
            ROOM,
        ],
    )
}

#[tactic(auto, unfolding(crate::specs::Command::check, crate::specs::Command::with_zones))]
fn check_command<'a>(alloc: Global) -> Result<Command<'a>, AllocError>
    ensures app { IfOk result (λ command. app_of command ≡ check) }
    ensures local { IfOk result (λ command. (out-Command command).has_globals ≡ false) }
{
    let command = new_subcommand(alloc, "check", help::CHECK, help::AFTER_CHECK);
    let command = with_arguments(alloc, command, &[ZONE, EVENT_ZONES, DENY, ALLOW, JSON])?;
    with_sources(alloc, command)
}

#[tactic(auto, unfolding(crate::specs::Command::describe, crate::specs::Command::with_zones))]
fn describe_command<'a>(alloc: Global) -> Result<Command<'a>, AllocError>
    ensures app { IfOk result (λ command. app_of command ≡ describe) }
    ensures local { IfOk result (λ command. (out-Command command).has_globals ≡ false) }
{
    let command = new_subcommand(alloc, "describe", help::DESCRIBE, help::AFTER_DESCRIBE);
    let command = with_arguments(
        alloc,
        command,
        &[
            ZONE,
            EVENT_ZONES,
            CommandOption::Text("cron", "TEXT", help::CRON),
            CommandOption::Text("calendar", "TEXT", help::CALENDAR),
            CommandOption::Flag("keep-going", help::KEEP_GOING),
            JSON,
        ],
    )?;
    with_sources(alloc, command)
}

#[tactic(auto, unfolding(crate::specs::Command::steps))]
fn steps_command<'a>(alloc: Global) -> Result<Command<'a>, AllocError>
    ensures app { IfOk result (λ command. app_of command ≡ steps) }
    ensures local { IfOk result (λ command. (out-Command command).has_globals ≡ false) }
{
    let command = new_subcommand(alloc, "steps", help::STEPS, help::AFTER_STEPS);
    with_arguments(
        alloc,
        command,
        &[CommandOption::Argument("file", "FILE", help::FILE)],
    )
}

#[tactic(auto, unfolding(crate::specs::Command::explain))]
fn explain_command<'a>(alloc: Global) -> Result<Command<'a>, AllocError>
    ensures app { IfOk result (λ command. app_of command ≡ explain) }
    ensures local { IfOk result (λ command. (out-Command command).has_globals ≡ false) }
{
    let command = new_subcommand(alloc, "explain", help::EXPLAIN, help::AFTER_EXPLAIN);
    with_argument(command, argument(alloc, "code", "CODE", help::CODE))
}

// Returns a subcommand without arguments, with the first and the last text of its help.
fn new_subcommand<'a>(
    alloc: Global,
    name: &'a str,
    about: &'a str,
    after_help: &'a str,
) -> Command<'a>
    ensures app { app_of result ≡ new_app name.entry.now }
    ensures local { (out-Command result).has_globals ≡ false }
{
    Command::new(alloc, name)
        .about(about)
        .after_help(after_help)
}

// Adds subcommands to the command, in order.
fn with_subcommands<'a>(
    alloc: Global,
    command: Command<'a>,
    subcommands: &[Subcommand],
) -> Result<Command<'a>, AllocError>
    ensures { IfOk result (λ new. app_of new ≡ with_subcommands (app_of command.entry) subcommands.now) }
{
    let mut command = command;
    for subcommand in subcommands {
        let added = subcommand.command(alloc)?;
        command = command.subcommand(added)?;
    }
    Ok(command)
}

// Adds what `plan`, `upcoming` and `quiet` have in common. What the help of `--delays` says depends on the command.
#[tactic(auto, unfolding(crate::specs::Command::with_jobs, crate::specs::Command::with_zones, crate::specs::Command::with_format))]
fn with_jobs<'a>(
    alloc: Global,
    command: Command<'a>,
    delays: &'a str,
) -> Result<Command<'a>, AllocError>
    requires local { (out-Command command).has_globals ≡ false }
    ensures app { IfOk result (λ new. app_of new ≡ with_jobs (app_of command.entry)) }
    ensures local { IfOk result (λ new. (out-Command new).has_globals ≡ false) }
{
    let command = with_arguments(
        alloc,
        command,
        &[
            ZONE,
            EVENT_ZONES,
            CommandOption::Flag("keep-going", help::KEEP_GOING),
            CommandOption::Flag("delays", delays),
            JSON,
            LOCAL,
        ],
    )?;
    with_sources(alloc, command)
}

// Adds the span of a plan.
#[tactic(auto, unfolding(crate::specs::Command::with_span))]
fn with_span<'a>(alloc: Global, command: Command<'a>) -> Result<Command<'a>, AllocError>
    requires local { (out-Command command).has_globals ≡ false }
    ensures app { IfOk result (λ new. app_of new ≡ with_span (app_of command.entry)) }
    ensures local { IfOk result (λ new. (out-Command new).has_globals ≡ false) }
{
    let command = with_arguments(
        alloc,
        command,
        &[CommandOption::Moment("since", help::SINCE)],
    )?;
    let until = CommandOption::Moment("until", help::UNTIL).to_clap(alloc);
    let until = with_alias(until, "upto")?;
    with_argument(command, until)
}

// Adds the options and arguments that name the sources of jobs.
#[tactic(auto, unfolding(crate::specs::Command::with_sources))]
fn with_sources<'a>(alloc: Global, command: Command<'a>) -> Result<Command<'a>, AllocError>
    requires local { (out-Command command).has_globals ≡ false }
    ensures app { IfOk result (λ new. app_of new ≡ with_sources (app_of command.entry)) }
    ensures local { IfOk result (λ new. (out-Command new).has_globals ≡ false) }
{
    let mut command = command;
    for kind in SourceKind::all() {
        command = with_argument(command, source_argument(alloc, kind))?;
    }
    Ok(command)
}

// Adds options to the command, in order.
fn with_arguments<'a>(
    alloc: Global,
    command: Command<'a>,
    arguments: &[CommandOption<'a>],
) -> Result<Command<'a>, AllocError>
    requires local { (out-Command command).has_globals ≡ false }
    ensures app { IfOk result (λ new. app_of new ≡ with_each (app_of command.entry) (map rule_for arguments.entry.now)) }
    ensures local { IfOk result (λ new. (out-Command new).has_globals ≡ false) }
{
    let mut command = command;
    for argument in arguments {
        command = with_argument(command, argument.to_clap(alloc))?;
    }
    Ok(command)
}

// Adds an argument to the command. It isn't global: subcommands don't have it.
fn with_argument<'a>(command: Command<'a>, argument: Arg<'a>) -> Result<Command<'a>, AllocError>
    requires own { argument.global ≡ false }
    requires local { (out-Command command).has_globals ≡ false }
    ensures app { IfOk result (λ new. app_of new ≡ with_rule (app_of command.entry) (rule_of argument.entry)) }
    ensures local { IfOk result (λ new. (out-Command new).has_globals ≡ false) }
{
    command.arg(argument)
}

// Returns the option or argument for sources of a kind: `--crontab F`, `--system-crontab F`, or, any number
// of times, `--cron-d F`, `--spool F` or `TIMER`.
fn source_argument<'a>(alloc: Global, kind: SourceKind) -> Arg<'a>
    ensures rule { rule_of result ≡ source_rule kind }
    ensures local { result.global ≡ false }
{
    let path = path_argument(alloc, kind);
    if kind.is_many() {
        path.action(ArgAction::Append)
    } else {
        path
    }
}

// Returns the argument `TIMER`, or the option for the path of a source of another kind.
fn path_argument<'a>(alloc: Global, kind: SourceKind) -> Arg<'a>
    ensures rule { rule_of result ≡ path_rule kind }
    ensures local { result.global ≡ false }
{
    let name: &'a str = kind.option();
    let help: &'a str = source_help(kind);
    match kind {
        SourceKind::Timer => argument(alloc, name, "TIMER", help),
        _ => text_option(alloc, name, "F", help),
    }
}

// Returns the help for sources of a kind.
fn source_help(kind: SourceKind) -> &'static str {
    match kind {
        SourceKind::Crontab => help::CRONTAB,
        SourceKind::System => help::SYSTEM_CRONTAB,
        SourceKind::CronD => help::CRON_D,
        SourceKind::Spool => help::SPOOL,
        SourceKind::Timer => help::TIMER,
    }
}

// Gives the option another name, which its help shows.
fn with_alias<'a>(option: Arg<'a>, name: &'a str) -> Result<Arg<'a>, AllocError>
    ensures rule { IfOk result (λ new. rule_of new ≡ with_alias (rule_of option.entry) name.entry.now) }
    ensures local { IfOk result (λ new. new.global ≡ option.entry.global) }
{
    option.visible_alias(name)
}

// Returns the option `--name`, which has no value.
fn flag_option<'a>(alloc: Global, name: &'a str, help: &'a str) -> Arg<'a>
    ensures rule { rule_of result ≡ flag_option name.entry.now }
    ensures local { result.global ≡ false }
{
    Arg::new(alloc, name)
        .long(name)
        .help(help)
        .action(ArgAction::SetTrue)
}

// Returns the option `--name N`, a whole number of 32 bits, with a default.
fn number_option<'a>(alloc: Global, name: &'a str, default: &'a str, help: &'a str) -> Arg<'a>
    ensures rule { rule_of result ≡ number_option name.entry.now default.entry.now }
    ensures local { result.global ≡ false }
{
    text_option(alloc, name, "N", help)
        .value_parser(value_parser!(u32))
        .default_value(default)
}

// Returns the option `--name VALUE`, which is optional.
fn text_option<'a>(alloc: Global, name: &'a str, value: &'a str, help: &'a str) -> Arg<'a>
    ensures rule { rule_of result ≡ option_named name.entry.now }
    ensures shown { items_of result.val_names ≡ value.entry ∷ [] }
    ensures local { result.global ≡ false }
{
    argument(alloc, name, value, help).long(name)
}

// Returns an argument `VALUE` with this name, which is optional.
fn argument<'a>(alloc: Global, name: &'a str, value: &'a str, help: &'a str) -> Arg<'a>
    ensures rule { rule_of result ≡ argument_named name.entry.now }
    ensures shown { items_of result.val_names ≡ value.entry ∷ [] }
    ensures local { result.global ≡ false }
{
    Arg::new(alloc, name).value_name(value).help(help)
}
