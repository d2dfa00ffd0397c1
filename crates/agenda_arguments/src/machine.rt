//! What the arguments of `agenda machine` request.
ghost use Rattle.std.specs.Prelude.{◌≡◌, ◌++◌, ◌∷◌, IfOk, OnOk, codes, drop, map, string_bytes};
ghost use Rattle.clap.specs.Words.{first_of, found_of, rows_of, subcommand_rows_of};
ghost use Rattle.agenda_arguments.specs.Arguments.{Follows, Gives};
ghost use Rattle.agenda_arguments.specs.Machine.{asked_about_machine, asked_by_machine, asked_by_machine_changes, asked_by_machine_check};
ghost use Rattle.agenda_arguments.specs.Machine.{asked_by_machine_clear, asked_by_machine_describe, asked_by_machine_downtime, asked_by_machine_next};
ghost use Rattle.agenda_arguments.specs.Machine.{asked_by_machine_plan, asked_by_machine_quiet, asked_by_machine_scripts, asked_by_machine_sources, asked_by_machine_upcoming};
ghost use Rattle.agenda_arguments.specs.Machine.{asked_by_machine_week, asked_by_question, asked_of_jobs, asked_of_machine, is_option, lacks_question};
ghost use Rattle.agenda_arguments.specs.Machine.{machine_format_in, machine_zone, span_in, table_for, table_in, with_question};
ghost use Rattle.agenda_arguments.specs.Values.{is_given, zone_in};

use crate::arguments::{no_subcommand, search_sizes_of, sizes_of, usage_fault};
use crate::ask::{
    Ask, FormatRequest, MachineCheck, MachineDescribe, MachineGoal, MachineJobs, MachineNext,
    MachineQuestion, MachineRequest, SpanRequest, TableRequest, UsageFault,
};
use crate::codes::policy_of;
use crate::hint::{time_options, with_hint};
use crate::names::names_of;
use crate::values::{is_given, number_argument, text, text_if_given, text_of, value_of};
use agenda_options::machine_command;
use agenda_sources::Asked;
use clap::ArgMatches;
use plan_collect::PlanView;
use plan_texts::Text;
use std::alloc::{AllocError, Global};

const ONE_ZONE: &str =
    "error: the argument '--zone <ZONE>' cannot be used with '--utc'\n\nFor more information, try '--help'.\n";

// The error of two forms.
const TABLE_AND_TEXT: &str =
    "error: the argument '--table' cannot be used with '--text'\n\nFor more information, try '--help'.\n";

// The error of two forms.
const TABLE_AND_JSON: &str =
    "error: the argument '--table' cannot be used with '--json'\n\nFor more information, try '--help'.\n";

// The error of two forms.
const TEXT_AND_JSON: &str =
    "error: the argument '--text' cannot be used with '--json'\n\nFor more information, try '--help'.\n";

/// Returns what the arguments of `agenda machine` request. The first of `words` is `machine`. If no question follows, they
/// request `upcoming`.
///
/// # Errors
///
/// `Help` with the text of help, if that is requested; `Usage` with the text of usage, if the arguments are
/// invalid; `NoMemory` if an allocation failed.
pub(crate) fn asked_about_machine(alloc: Global, words: &[String]) -> Result<Ask, UsageFault>
    ensures { Gives result (asked_about_machine (with_question (map string_bytes words.now))) }
{
    if !lacks_question(words) {
        return asked_with_hint(alloc, words);
    }
    let asked = with_upcoming(alloc, words)?;
    asked_with_hint(alloc, asked.as_slice())
}

// Returns whether no question follows the first of the words.
fn lacks_question(words: &[String]) -> bool
    ensures { result ≡ lacks_question (map string_bytes words.now) }
{
    match words.get(1) {
        Some(word) => is_option(word.as_str()),
        None => true,
    }
}

// Returns whether a word is an option other than help.
fn is_option(word: &str) -> bool
    ensures { result ≡ is_option word.now }
{
    let begins = match word.as_bytes().first() {
        Some(byte) => *byte == b'-',
        None => false,
    };
    begins && !(word == "-h" || word == "--help")
}

// Returns the words with the question `upcoming` after the first one.
fn with_upcoming(alloc: Global, words: &[String]) -> Result<Vec<String>, AllocError>
    ensures { IfOk result (λ asked. map string_bytes asked.items
        ≡ codes "machine" ∷ codes "upcoming" ∷ drop 1 (map string_bytes words.now)) }
{
    let mut asked = Vec::new(alloc);
    asked.push(String::from_str(alloc, "machine")?)?;
    asked.push(String::from_str(alloc, "upcoming")?)?;
    if !words.is_empty() {
        push_copies(alloc, &words[1..], &mut asked)?;
    }
    Ok(asked)
}

// Appends copies of words, in order.
fn push_copies(alloc: Global, words: &[String], copies: &mut Vec<String>) -> Result<(), AllocError>
    ensures { OnOk result (map string_bytes copies.new.items ≡ map string_bytes copies.old.items ++ map string_bytes words.now) }
{
    for word in words {
        copies.push(String::from_str(alloc, word.as_str())?)?;
    }
    Ok(())
}

// Returns what the arguments of `agenda machine` request, which have a question. If it expects a time, the usage error for a
// word that isn't an option gets a hint.
fn asked_with_hint(alloc: Global, words: &[String]) -> Result<Ask, UsageFault>
    ensures { Gives result (asked_about_machine (map string_bytes words.now)) }
{
    match asked_by_machine(alloc, words) {
        Err(UsageFault::Usage(said)) => {
            let text = with_hint(alloc, said, time_options(words))?;
            Err(UsageFault::Usage(text))
        }
        asked => asked,
    }
}

// Returns what the arguments of `agenda machine` request, which have a question, without the hint.
fn asked_by_machine(alloc: Global, words: &[String]) -> Result<Ask, UsageFault>
    ensures { Follows result (asked_by_machine (map string_bytes words.now)) }
{
    let command = machine_command(alloc)?;
    match command.try_get_matches_from(words) {
        Ok(matches) => asked_by_question(alloc, &matches),
        Err(error) => Err(usage_fault(alloc, &error)?),
    }
}

// Returns what the given question requests.
fn asked_by_question(alloc: Global, matches: &ArgMatches<'_>) -> Result<Ask, UsageFault>
    ensures { Follows result (asked_by_question (subcommand_rows_of matches.now)) }
{
    let Some((name, given)) = matches.subcommand() else {
        return no_subcommand(alloc);
    };
    match name {
        "upcoming" => asked_by_machine_upcoming(alloc, given),
        "plan" => asked_by_machine_plan(alloc, given),
        "quiet" => asked_by_machine_quiet(alloc, given),
        "downtime" => asked_by_machine_downtime(alloc, given),
        "clear" => asked_by_machine_clear(alloc, given),
        "changes" => asked_by_machine_changes(alloc, given),
        "week" => asked_by_machine_week(alloc, given),
        "scripts" => asked_by_machine_scripts(alloc, given),
        "check" => asked_by_machine_check(alloc, given),
        "sources" => asked_by_machine_sources(alloc, given),
        "next" => asked_by_machine_next(alloc, given),
        "describe" => asked_by_machine_describe(alloc, given),
        _ => no_subcommand(alloc),
    }
}

fn asked_by_machine_sources(alloc: Global, given: &ArgMatches<'_>) -> Result<Ask, UsageFault>
    ensures { Follows result (asked_by_machine_sources (rows_of (found_of given.now))) }
{
    let json = is_given(given, "json");
    asked_of_machine(alloc, given, MachineQuestion::Sources { json })
}

fn asked_by_machine_check(alloc: Global, given: &ArgMatches<'_>) -> Result<Ask, UsageFault>
    ensures { Follows result (asked_by_machine_check (rows_of (found_of given.now))) }
{
    let zone = machine_zone(alloc, given)?;
    let policy = policy_of(alloc, given)?;
    let json = is_given(given, "json");
    let check = MachineCheck { zone, policy, json };
    asked_of_machine(alloc, given, MachineQuestion::Check(check))
}

fn asked_by_machine_upcoming(alloc: Global, given: &ArgMatches<'_>) -> Result<Ask, UsageFault>
    ensures { Follows result (asked_by_machine_upcoming (rows_of (found_of given.now))) }
{
    let after = text_of(alloc, given, "after")?;
    let delays = is_given(given, "delays");
    asked_of_jobs(alloc, given, delays, MachineGoal::Upcoming { after })
}

fn asked_by_machine_plan(alloc: Global, given: &ArgMatches<'_>) -> Result<Ask, UsageFault>
    ensures { Follows result (asked_by_machine_plan (rows_of (found_of given.now))) }
{
    let span = span_of(alloc, given)?;
    let sizes = sizes_of(alloc, given)?;
    let delays = is_given(given, "delays");
    let view = PlanView::Starts;
    asked_of_jobs(
        alloc,
        given,
        delays,
        MachineGoal::Plan { span, sizes, view },
    )
}

fn asked_by_machine_quiet(alloc: Global, given: &ArgMatches<'_>) -> Result<Ask, UsageFault>
    ensures { Follows result (asked_by_machine_quiet (rows_of (found_of given.now))) }
{
    let span = span_of(alloc, given)?;
    let sizes = sizes_of(alloc, given)?;
    let least = text_of(alloc, given, "least")?;
    let delays = !is_given(given, "nominal");
    asked_of_jobs(
        alloc,
        given,
        delays,
        MachineGoal::Quiet { span, sizes, least },
    )
}

// Delays count.
fn asked_by_machine_downtime(alloc: Global, given: &ArgMatches<'_>) -> Result<Ask, UsageFault>
    ensures { Follows result (asked_by_machine_downtime (rows_of (found_of given.now))) }
{
    let span = span_of(alloc, given)?;
    let sizes = sizes_of(alloc, given)?;
    let view = PlanView::Downtime;
    asked_of_jobs(alloc, given, true, MachineGoal::Plan { span, sizes, view })
}

// Delays count unless `--nominal` is given.
fn asked_by_machine_clear(alloc: Global, given: &ArgMatches<'_>) -> Result<Ask, UsageFault>
    ensures { Follows result (asked_by_machine_clear (rows_of (found_of given.now))) }
{
    let span = span_of(alloc, given)?;
    let sizes = search_sizes_of(alloc, given)?;
    let delays = !is_given(given, "nominal");
    let view = PlanView::First;
    asked_of_jobs(
        alloc,
        given,
        delays,
        MachineGoal::Plan { span, sizes, view },
    )
}

// Delays don't count.
fn asked_by_machine_changes(alloc: Global, given: &ArgMatches<'_>) -> Result<Ask, UsageFault>
    ensures { Follows result (asked_by_machine_changes (rows_of (found_of given.now))) }
{
    let before = text_of(alloc, given, "before")?;
    let sizes = sizes_of(alloc, given)?;
    asked_of_jobs(alloc, given, false, MachineGoal::Changes { before, sizes })
}

// Delays don't count.
fn asked_by_machine_week(alloc: Global, given: &ArgMatches<'_>) -> Result<Ask, UsageFault>
    ensures { Follows result (asked_by_machine_week (rows_of (found_of given.now))) }
{
    let span = span_of(alloc, given)?;
    let sizes = sizes_of(alloc, given)?;
    let view = PlanView::Week;
    asked_of_jobs(alloc, given, false, MachineGoal::Plan { span, sizes, view })
}

// Delays don't count.
fn asked_by_machine_scripts(alloc: Global, given: &ArgMatches<'_>) -> Result<Ask, UsageFault>
    ensures { Follows result (asked_by_machine_scripts (rows_of (found_of given.now))) }
{
    let after = text_of(alloc, given, "after")?;
    asked_of_jobs(alloc, given, false, MachineGoal::Scripts { after })
}

fn asked_by_machine_next(alloc: Global, given: &ArgMatches<'_>) -> Result<Ask, UsageFault>
    ensures { Follows result (asked_by_machine_next (rows_of (found_of given.now))) }
{
    let text = text_of(alloc, given, "rule")?;
    let count = number_argument(alloc, given, "count")?;
    let after = text_of(alloc, given, "after")?;
    let zone = machine_zone(alloc, given)?;
    let table = table_of(alloc, given)?;
    let rule = Asked::of_text(alloc, text)?;
    let format = format_of(given);
    Ok(Ask::MachineNext(MachineNext {
        rule,
        after,
        count,
        zone,
        format,
        table,
    }))
}

// A rule is described by itself, and otherwise the jobs of the machine.
fn asked_by_machine_describe(alloc: Global, given: &ArgMatches<'_>) -> Result<Ask, UsageFault>
    ensures { Follows result (asked_by_machine_describe (rows_of (found_of given.now))) }
{
    let zone = machine_zone(alloc, given)?;
    let table = table_of(alloc, given)?;
    let json = is_given(given, "json");
    if let Some(text) = text_if_given(alloc, given, "rule")? {
        let asked = Asked::of_text(alloc, text)?;
        return Ok(Ask::MachineDescribe { rule: asked, json });
    }
    let describe = MachineDescribe {
        zone,
        except: names_of(alloc, given, "except")?,
        only: names_of(alloc, given, "only")?,
        strict: is_given(given, "strict"),
        idle: is_given(given, "idle"),
        json,
        table,
    };
    asked_of_machine(alloc, given, MachineQuestion::Describe(describe))
}

// Returns the span of a plan.
fn span_of(alloc: Global, given: &ArgMatches<'_>) -> Result<SpanRequest, UsageFault>
    ensures { Follows result (span_in (rows_of (found_of given.now))) }
{
    let since = text_of(alloc, given, "since")?;
    let until = text_of(alloc, given, "until")?;
    Ok(SpanRequest { since, until })
}

// Returns the request that makes this of the jobs of a machine.
fn asked_of_jobs(
    alloc: Global,
    given: &ArgMatches<'_>,
    delays: bool,
    goal: MachineGoal,
) -> Result<Ask, UsageFault>
    ensures { Follows result (asked_of_jobs (rows_of (found_of given.now)) delays goal) }
{
    let zone = machine_zone(alloc, given)?;
    let except = names_of(alloc, given, "except")?;
    let only = names_of(alloc, given, "only")?;
    let table = table_for(alloc, given, &goal)?;
    let strict = is_given(given, "strict");
    let idle = is_given(given, "idle");
    let format = format_of(given);
    let jobs = MachineJobs {
        goal,
        zone,
        except,
        only,
        delays,
        strict,
        idle,
        format,
        table,
    };
    asked_of_machine(alloc, given, MachineQuestion::Jobs(jobs))
}

// Returns whether the answer for a goal is a table. The hours of a week, a first start and scripts have none.
fn table_for(
    alloc: Global,
    given: &ArgMatches<'_>,
    goal: &MachineGoal,
) -> Result<TableRequest, UsageFault>
    ensures { Follows result (table_for goal.now (rows_of (found_of given.now))) }
{
    match goal {
        MachineGoal::Plan {
            view: PlanView::Week,
            ..
        } => Ok(TableRequest::Never),
        MachineGoal::Plan {
            view: PlanView::First,
            ..
        } => Ok(TableRequest::Never),
        MachineGoal::Scripts { .. } => Ok(TableRequest::Never),
        _ => table_of(alloc, given),
    }
}

// Returns whether the answer is a table. At most one of its forms may be given.
fn table_of(alloc: Global, given: &ArgMatches<'_>) -> Result<TableRequest, UsageFault>
    ensures { Follows result (table_in (is_given (codes "table") (rows_of (found_of given.now)))
        (is_given (codes "text") (rows_of (found_of given.now))) (is_given (codes "json") (rows_of (found_of given.now)))) }
{
    let forms = (
        is_given(given, "table"),
        is_given(given, "text"),
        is_given(given, "json"),
    );
    match forms {
        (false, false, false) => Ok(TableRequest::OnTerminal),
        (true, false, false) => Ok(TableRequest::Always),
        (false, true, false) => Ok(TableRequest::Never),
        (false, false, true) => Ok(TableRequest::Never),
        (true, true, _) => Err(UsageFault::Usage(text(alloc, TABLE_AND_TEXT)?)),
        (true, false, true) => Err(UsageFault::Usage(text(alloc, TABLE_AND_JSON)?)),
        (false, true, true) => Err(UsageFault::Usage(text(alloc, TEXT_AND_JSON)?)),
    }
}

// Returns how the answer is written.
fn format_of(given: &ArgMatches<'_>) -> FormatRequest
    ensures { result ≡ machine_format_in (rows_of (found_of given.now)) }
{
    let json = is_given(given, "json");
    let local = !is_given(given, "utc");
    FormatRequest { json, local }
}

// Returns the request with this question.
fn asked_of_machine(
    alloc: Global,
    given: &ArgMatches<'_>,
    question: MachineQuestion,
) -> Result<Ask, UsageFault>
    ensures { Follows result (asked_of_machine (rows_of (found_of given.now)) question) }
{
    let root = text_of(alloc, given, "root")?;
    let all = is_given(given, "all");
    Ok(Ask::Machine(MachineRequest {
        root,
        all,
        question,
    }))
}

// Returns the time zone of the question, if `--zone` or `--utc` is given.
fn machine_zone(alloc: Global, given: &ArgMatches<'_>) -> Result<Option<Text>, UsageFault>
    ensures { Follows result (machine_zone (zone_in (rows_of (found_of given.now))) (is_given (codes "utc") (rows_of (found_of given.now)))) }
{
    match (value_of(given, "zone"), is_given(given, "utc")) {
        (Some(_), true) => Err(UsageFault::Usage(text(alloc, ONE_ZONE)?)),
        (Some(zone), false) => Ok(Some(text(alloc, zone)?)),
        (None, true) => Ok(Some(text(alloc, "UTC")?)),
        (None, false) => Ok(None),
    }
}
