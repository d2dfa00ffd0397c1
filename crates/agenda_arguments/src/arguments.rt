//! Reads the arguments of the command line.
ghost use Rattle.std.specs.Prelude.{◌≡◌, Err, IfOk, codes, map, string_bytes};
ghost use Rattle.clap.specs.Words.{first_of, found_of, kind_of, rows_of, subcommand_rows_of};
ghost use Rattle.agenda_arguments.specs.Values.ArgumentsFault.{is_usage};
ghost use Rattle.agenda_arguments.specs.Arguments.{Follows, Gives, IsAnswerTo, are_of_machine, asked_by, asked_by_agenda, asked_by_changes};
ghost use Rattle.agenda_arguments.specs.Arguments.{asked_by_check, asked_by_clear, asked_by_describe, asked_by_downtime, asked_by_explain};
ghost use Rattle.agenda_arguments.specs.Arguments.{asked_by_next, asked_by_plan, asked_by_quiet, asked_by_rule, asked_by_steps, asked_by_subcommand};
ghost use Rattle.agenda_arguments.specs.Arguments.{asked_by_upcoming, asked_by_week, format_in, jobs_in, plan_in, zones_in};
ghost use Rattle.agenda_arguments.specs.Values.{one_rule, search_sizes_in, sizes_in};

use crate::ask::{
    Ask, ChangesRequest, FormatRequest, JobsRequest, NextRequest, PlanRequest, UsageFault,
    ZonesRequest,
};
use crate::codes::{code_of, policy_of};
use crate::machine::asked_about_machine;
use crate::paths::sources_of;
use crate::values::{is_given, number_argument, text, text_if_given, text_of, value_of};
use agenda_options::agenda_command;
use agenda_sources::Asked;
use clap::ArgMatches;
use clap::error::ErrorKind;
use plan_collect::{PlanView, Sizes};
use plan_texts::Text;
use std::alloc::{AllocError, Global};

const ONE_RULE: &str = "exactly one of --cron and --calendar\n";

// The error of a rule and files.
const RULE_AND_FILES: &str =
    "error: --cron and --calendar describe one rule, and take no files\n\nFor more information, try '--help'.\n";

const NO_SUBCOMMAND: &str =
    "error: a subcommand is missing\n\nFor more information, try '--help'.\n";

/// Returns what the arguments of the command line request. The first of `words` is the name of the program.
///
/// # Errors
///
/// `Help` with the text of help or of the version, if that is requested; `Usage` with the text of usage, if
/// the arguments are invalid; `NoMemory` if an allocation failed.
pub fn read_words(alloc: Global, words: &[String]) -> Result<Ask, UsageFault>
    ensures { Gives result (asked_by (map string_bytes words.now)) }
{
    if are_of_machine(words) {
        asked_about_machine(alloc, &words[1..])
    } else {
        asked_by_agenda(alloc, words)
    }
}

// Returns whether the arguments are those of `agenda machine`.
fn are_of_machine(words: &[String]) -> bool
    ensures { result ≡ are_of_machine (map string_bytes words.now) }
{
    match words.get(1) {
        Some(word) => word.as_str() == "machine",
        None => false,
    }
}

// Returns what the arguments of `agenda` request, if they aren't those of `agenda machine`.
fn asked_by_agenda(alloc: Global, words: &[String]) -> Result<Ask, UsageFault>
    ensures { Follows result (asked_by_agenda (map string_bytes words.now)) }
{
    let command = agenda_command(alloc)?;
    match command.try_get_matches_from(words) {
        Ok(matches) => asked_by_subcommand(alloc, &matches),
        Err(error) => Err(usage_fault(alloc, &error)?),
    }
}

// Returns what the given subcommand requests.
fn asked_by_subcommand(alloc: Global, matches: &ArgMatches<'_>) -> Result<Ask, UsageFault>
    ensures { Follows result (asked_by_subcommand (subcommand_rows_of matches.now)) }
{
    let Some((name, given)) = matches.subcommand() else {
        return no_subcommand(alloc);
    };
    match name {
        "next" => asked_by_next(alloc, given),
        "plan" => asked_by_plan(alloc, given),
        "upcoming" => asked_by_upcoming(alloc, given),
        "quiet" => asked_by_quiet(alloc, given),
        "downtime" => asked_by_downtime(alloc, given),
        "clear" => asked_by_clear(alloc, given),
        "changes" => asked_by_changes(alloc, given),
        "week" => asked_by_week(alloc, given),
        "check" => asked_by_check(alloc, given),
        "describe" => asked_by_describe(alloc, given),
        "steps" => asked_by_steps(alloc, given),
        "explain" => asked_by_explain(alloc, given),
        _ => no_subcommand(alloc),
    }
}

/// Returns the error for arguments without a subcommand.
///
/// # Errors
///
/// `Usage`, always; or `NoMemory` if an allocation failed.
pub(crate) fn no_subcommand(alloc: Global) -> Result<Ask, UsageFault>
    ensures { Follows result (Err is_usage) }
{
    Err(UsageFault::Usage(text(alloc, NO_SUBCOMMAND)?))
}

fn asked_by_next(alloc: Global, given: &ArgMatches<'_>) -> Result<Ask, UsageFault>
    ensures { Follows result (asked_by_next (rows_of (found_of given.now))) }
{
    let after = text_of(alloc, given, "after")?;
    let count = number_argument(alloc, given, "count")?;
    let rule = rule_of(alloc, given)?;
    let zones = zones_of(alloc, given)?;
    let format = format_of(given);
    Ok(Ask::Next(NextRequest {
        after,
        zones,
        count,
        rule,
        format,
    }))
}

// Returns the rule of `next`.
fn rule_of(alloc: Global, given: &ArgMatches<'_>) -> Result<Asked, UsageFault>
    ensures { Follows result (one_rule (first_of (codes "cron") (rows_of (found_of given.now)))
        (first_of (codes "calendar") (rows_of (found_of given.now)))) }
{
    match (value_of(given, "cron"), value_of(given, "calendar")) {
        (Some(cron), None) => Ok(Asked::Cron(text(alloc, cron)?)),
        (None, Some(calendar)) => Ok(Asked::Event(text(alloc, calendar)?)),
        _ => Err(UsageFault::Usage(text(alloc, ONE_RULE)?)),
    }
}

fn asked_by_plan(alloc: Global, given: &ArgMatches<'_>) -> Result<Ask, UsageFault>
    ensures { Follows result (asked_by_plan (rows_of (found_of given.now))) }
{
    let plan = plan_of(alloc, given)?;
    let view = PlanView::Starts;
    Ok(Ask::Plan { plan, view })
}

fn asked_by_upcoming(alloc: Global, given: &ArgMatches<'_>) -> Result<Ask, UsageFault>
    ensures { Follows result (asked_by_upcoming (rows_of (found_of given.now))) }
{
    let after = text_of(alloc, given, "after")?;
    let jobs = jobs_of(alloc, given)?;
    Ok(Ask::Upcoming { after, jobs })
}

fn asked_by_quiet(alloc: Global, given: &ArgMatches<'_>) -> Result<Ask, UsageFault>
    ensures { Follows result (asked_by_quiet (rows_of (found_of given.now))) }
{
    let plan = plan_of(alloc, given)?;
    let least = number_argument(alloc, given, "least")?;
    Ok(Ask::Quiet { plan, least })
}

// Delays count.
fn asked_by_downtime(alloc: Global, given: &ArgMatches<'_>) -> Result<Ask, UsageFault>
    ensures { Follows result (asked_by_downtime (rows_of (found_of given.now))) }
{
    let mut plan = plan_of(alloc, given)?;
    plan.jobs.delays = true;
    let view = PlanView::Downtime;
    Ok(Ask::Plan { plan, view })
}

// Days and hours are those that the clock of the zone shows, if one is given.
fn asked_by_week(alloc: Global, given: &ArgMatches<'_>) -> Result<Ask, UsageFault>
    ensures { Follows result (asked_by_week (rows_of (found_of given.now))) }
{
    let mut plan = plan_of(alloc, given)?;
    plan.jobs.format.local = plan.jobs.zones.zone.is_some();
    let view = PlanView::Week;
    Ok(Ask::Plan { plan, view })
}

// Delays count unless `--nominal` is given.
#[tactic(auto, unfolding(crate::specs::Arguments::asked_by_clear))]
fn asked_by_clear(alloc: Global, given: &ArgMatches<'_>) -> Result<Ask, UsageFault>
    ensures { Follows result (asked_by_clear (rows_of (found_of given.now))) }
{
    let since = text_of(alloc, given, "since")?;
    let upto = text_of(alloc, given, "until")?;
    let sizes = search_sizes_of(alloc, given)?;
    let mut jobs = jobs_of(alloc, given)?;
    jobs.delays = !is_given(given, "nominal");
    let plan = PlanRequest {
        since,
        upto,
        jobs,
        sizes,
    };
    let view = PlanView::First;
    Ok(Ask::Plan { plan, view })
}

fn asked_by_changes(alloc: Global, given: &ArgMatches<'_>) -> Result<Ask, UsageFault>
    ensures { Follows result (asked_by_changes (rows_of (found_of given.now))) }
{
    let before = text_of(alloc, given, "before")?;
    let sizes = sizes_of(alloc, given)?;
    let jobs = jobs_of(alloc, given)?;
    Ok(Ask::Changes(ChangesRequest {
        before,
        jobs,
        sizes,
    }))
}

// Returns what a plan is made from.
#[tactic(auto, unfolding(crate::specs::Arguments::plan_in))]
fn plan_of(alloc: Global, given: &ArgMatches<'_>) -> Result<PlanRequest, UsageFault>
    ensures { Follows result (plan_in (rows_of (found_of given.now))) }
{
    let since = text_of(alloc, given, "since")?;
    let upto = text_of(alloc, given, "until")?;
    let sizes = sizes_of(alloc, given)?;
    let jobs = jobs_of(alloc, given)?;
    Ok(PlanRequest {
        since,
        upto,
        jobs,
        sizes,
    })
}

// Returns what the jobs of a plan or of `upcoming` are read from.
fn jobs_of(alloc: Global, given: &ArgMatches<'_>) -> Result<JobsRequest, AllocError>
    ensures { IfOk result (λ jobs. jobs ≡ jobs_in (rows_of (found_of given.now))) }
{
    let zones = zones_of(alloc, given)?;
    let sources = sources_of(alloc, given)?;
    let keep_going = is_given(given, "keep-going");
    let delays = is_given(given, "delays");
    let format = format_of(given);
    Ok(JobsRequest {
        zones,
        sources,
        keep_going,
        delays,
        format,
    })
}

// Returns the time zones of a request.
fn zones_of(alloc: Global, given: &ArgMatches<'_>) -> Result<ZonesRequest, AllocError>
    ensures { IfOk result (λ zones. zones ≡ zones_in (rows_of (found_of given.now))) }
{
    let zone = text_if_given(alloc, given, "zone")?;
    let event_zones = is_given(given, "event-zones");
    Ok(ZonesRequest { zone, event_zones })
}

// Returns how the answer is written.
fn format_of(given: &ArgMatches<'_>) -> FormatRequest
    ensures { result ≡ format_in (rows_of (found_of given.now)) }
{
    let json = is_given(given, "json");
    let local = is_given(given, "local");
    FormatRequest { json, local }
}

/// Returns the sizes of a plan. The numbers in the arguments have 32 bits. Here they get the types that a plan uses.
///
/// # Errors
///
/// `Usage` if a number is missing; `NoMemory` if an allocation failed.
pub(crate) fn sizes_of(alloc: Global, given: &ArgMatches<'_>) -> Result<Sizes, UsageFault>
    ensures { Follows result (sizes_in (rows_of (found_of given.now))) }
{
    let planners = number_argument(alloc, given, "planners")?;
    let room = number_argument(alloc, given, "room")?;
    let limit = number_argument(alloc, given, "limit")?;
    Ok(Sizes {
        planners: planners as usize,
        room: room as usize,
        limit: u64::from(limit),
    })
}

/// Returns the sizes of a search, which has no limit: it stops at the first start.
///
/// # Errors
///
/// `Usage` if a number is missing; `NoMemory` if an allocation failed.
pub(crate) fn search_sizes_of(alloc: Global, given: &ArgMatches<'_>) -> Result<Sizes, UsageFault>
    ensures { Follows result (search_sizes_in (rows_of (found_of given.now))) }
{
    let planners = number_argument(alloc, given, "planners")?;
    let room = number_argument(alloc, given, "room")?;
    Ok(Sizes {
        planners: planners as usize,
        room: room as usize,
        limit: 1,
    })
}

fn asked_by_check(alloc: Global, given: &ArgMatches<'_>) -> Result<Ask, UsageFault>
    ensures { Follows result (asked_by_check (rows_of (found_of given.now))) }
{
    let policy = policy_of(alloc, given)?;
    let zones = zones_of(alloc, given)?;
    let sources = sources_of(alloc, given)?;
    let json = is_given(given, "json");
    Ok(Ask::Check {
        zones,
        sources,
        policy,
        json,
    })
}

// A rule is described by itself, and otherwise the jobs of files.
fn asked_by_describe(alloc: Global, given: &ArgMatches<'_>) -> Result<Ask, UsageFault>
    ensures { Follows result (asked_by_describe (rows_of (found_of given.now))) }
{
    match (value_of(given, "cron"), value_of(given, "calendar")) {
        (None, None) => Ok(Ask::DescribeJobs(jobs_of(alloc, given)?)),
        _ => asked_by_rule(alloc, given),
    }
}

// Returns the request to describe the given rule, which comes without files.
fn asked_by_rule(alloc: Global, given: &ArgMatches<'_>) -> Result<Ask, UsageFault>
    ensures { Follows result (asked_by_rule (rows_of (found_of given.now))) }
{
    let rule = rule_of(alloc, given)?;
    let sources = sources_of(alloc, given)?;
    if !sources.as_slice().is_empty() {
        return Err(UsageFault::Usage(text(alloc, RULE_AND_FILES)?));
    }
    let zones = zones_of(alloc, given)?;
    let json = is_given(given, "json");
    Ok(Ask::Describe { rule, zones, json })
}

fn asked_by_steps(alloc: Global, given: &ArgMatches<'_>) -> Result<Ask, UsageFault>
    ensures { Follows result (asked_by_steps (rows_of (found_of given.now))) }
{
    let file = text_of(alloc, given, "file")?;
    Ok(Ask::Steps { file })
}

fn asked_by_explain(alloc: Global, given: &ArgMatches<'_>) -> Result<Ask, UsageFault>
    ensures { Follows result (asked_by_explain (rows_of (found_of given.now))) }
{
    let name = text_if_given(alloc, given, "code")?;
    let code = code_of(alloc, &name)?;
    Ok(Ask::Explain(code))
}

/// Returns the error for an error of `clap`, with its text.
///
/// # Errors
///
/// An allocation failed.
pub(crate) fn usage_fault(alloc: Global, error: &clap::Error) -> Result<UsageFault, AllocError>
    ensures { IfOk result (IsAnswerTo (kind_of error.now)) }
{
    let text = Text::new(error.to_string(alloc)?);
    Ok(match error.kind() {
        ErrorKind::OutOfMemory => UsageFault::NoMemory,
        ErrorKind::DisplayHelp | ErrorKind::DisplayVersion => UsageFault::Help(text),
        _ => UsageFault::Usage(text),
    })
}
