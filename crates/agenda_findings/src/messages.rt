//! The messages of findings, in words.

ghost use Rattle.std.specs.Prelude.{◌≡◌};
ghost use Rattle.std.specs.Option.{option_map};
ghost use Rattle.plan_streams.specs.Writer.{Takes};
ghost use Rattle.plan_write.specs.Json.{text_in};
ghost use Rattle.agenda_findings.specs.Messages.{code_of, cron_message, detail_in, event_message, expected_fields, field_message, field_name, field_values, full_message, in_brackets, message, missing_command, no_event, part_message, part_name, part_values, plain_message, problem, problem_after, problem_text, range_of, rule_message, same_name, severity, unknown_word, whole_event, whole_rule, with_specifiers};

use crate::quotes::{put_around, put_escaped, put_quoted};
use crate::warnings::put_warning;
use plan_check::FindingKind;
use plan_grammar::{RuleCause, RuleFault};
use plan_rules::{LineCause, SourceKind};
use plan_sets::SetFault;
use plan_streams::{Stream, TextWriter};
use plan_texts::Text;
use plan_write::put_text;

// Returns whether a finding is an error or a warning.
pub(crate) fn severity(kind: FindingKind) -> &'static str
    ensures { result.now ≡ severity kind }
{
    match kind {
        FindingKind::Warned(_) => "warning",
        FindingKind::Rejected(_)
        | FindingKind::SameName
        | FindingKind::Full
        | FindingKind::Denied(_) => "error",
    }
}

// Returns the code of a finding: the name of its cause.
pub(crate) fn code_of(kind: FindingKind) -> &'static str
    ensures { result.now ≡ code_of kind }
{
    match kind {
        FindingKind::Rejected(cause) => cause.name(),
        FindingKind::SameName => "SameName",
        FindingKind::Full => "Full",
        FindingKind::Warned(warning) | FindingKind::Denied(warning) => warning.name(),
    }
}

// Puts the message of a finding in a source of a kind.
pub(crate) fn put_message<S: Stream>(
    source: SourceKind,
    kind: FindingKind,
    quote: &str,
    json: bool,
    lines: &mut TextWriter<'_, S>,
)
    ensures { Takes S.holds S.takes_all lines.old lines.new (text_in json (message source kind quote.now)) }
{
    match kind {
        FindingKind::Rejected(LineCause::Rule(fault)) => put_rule_message(
            source, fault, quote, json, lines,
        ),
        FindingKind::Rejected(cause) => put_text(
            json,
            plain_message(source, cause).as_bytes(),
            lines,
        ),
        FindingKind::SameName => put_same_name(quote, json, lines),
        FindingKind::Full => put_text(json, full_message().as_bytes(), lines),
        FindingKind::Warned(warning) | FindingKind::Denied(warning) => {
            put_warning(warning, quote, json, lines)
        }
    }
}

// Puts what the message of a finding ends with, if it ends with something.
#[tactic(auto, using(crate::proofs::TextLemmas::text_in_both))]
pub(crate) fn put_detail<S: Stream>(
    kind: FindingKind,
    detail: &Option<Text>,
    json: bool,
    lines: &mut TextWriter<'_, S>,
)
    ensures { Takes S.holds S.takes_all lines.old lines.new (text_in json (detail_in kind detail.now)) }
{
    let Some(detail) = detail else {
        return;
    };
    match kind {
        FindingKind::Warned(_) | FindingKind::Denied(_) => put_escaped(
            detail.as_str().as_bytes(),
            json,
            lines,
        ),
        _ => put_in_brackets(detail.as_str(), json, lines),
    }
}

// Puts a text in brackets, after a blank.
fn put_in_brackets<S: Stream>(text: &str, json: bool, lines: &mut TextWriter<'_, S>)
    ensures { Takes S.holds S.takes_all lines.old lines.new (text_in json (in_brackets text.now)) }
{
    put_text(json, b" (", lines);
    put_escaped(text.as_bytes(), json, lines);
    put_text(json, b")", lines);
}

// Puts that another job has a name.
fn put_same_name<S: Stream>(name: &str, json: bool, lines: &mut TextWriter<'_, S>)
    ensures { Takes S.holds S.takes_all lines.old lines.new (text_in json (same_name name.now)) }
{
    put_around("another job is named ", name, "", json, lines);
}

// Returns the message that there are too many jobs.
fn full_message() -> &'static str
    ensures { result.now ≡ full_message }
{
    "more than 1000 jobs"
}

// Returns the message of the error of a line, or of a whole file, that isn't the error of a rule.
#[tactic(auto, unfolding(crate::specs::Messages::plain_message))]
fn plain_message(source: SourceKind, cause: LineCause) -> &'static str
    ensures { result.now ≡ plain_message source cause }
{
    match cause {
        LineCause::NoMemory => "out of memory",
        LineCause::NotUtf8 => "not UTF-8",
        LineCause::TooLarge => "larger than 1048576 bytes",
        LineCause::BadSetting => "expected NAME=VALUE, or five fields and a command",
        LineCause::Rule(_) => "",
        LineCause::NoCommand => missing_command(source),
        LineCause::BadTimerName => {
            "not a timer's name: it must end in .timer and name no template"
        }
        LineCause::NoTimerSection => "no [Timer] section",
        LineCause::TooManyLines => "more than 64 events",
        LineCause::BadTabName => "not a name that cron reads",
    }
}

// Returns what is missing after a rule.
#[tactic(auto, unfolding(crate::specs::Messages::missing_command))]
fn missing_command(source: SourceKind) -> &'static str
    ensures { result.now ≡ missing_command source }
{
    match source {
        SourceKind::System | SourceKind::CronD => "expected a user and a command",
        _ => "no command",
    }
}

// Puts the error of a rule in a source of a kind.
fn put_rule_message<S: Stream>(
    source: SourceKind,
    fault: RuleFault,
    quote: &str,
    json: bool,
    lines: &mut TextWriter<'_, S>,
)
    ensures { Takes S.holds S.takes_all lines.old lines.new (text_in json (rule_message source fault quote.now)) }
{
    match source {
        SourceKind::Timer => put_event_message(fault, quote, json, lines),
        _ => put_cron_message(fault, quote, json, lines),
    }
}

// ---- cron rules

// Puts the error of a cron rule.
fn put_cron_message<S: Stream>(
    fault: RuleFault,
    quote: &str,
    json: bool,
    lines: &mut TextWriter<'_, S>,
)
    ensures { Takes S.holds S.takes_all lines.old lines.new (text_in json (cron_message fault quote.now)) }
{
    if fault.part == 0 {
        put_whole_rule(fault.cause, quote, json, lines);
    } else {
        put_field_message(fault, quote, json, lines);
    }
}

// Puts the error of a whole cron rule.
fn put_whole_rule<S: Stream>(
    cause: RuleCause,
    quote: &str,
    json: bool,
    lines: &mut TextWriter<'_, S>,
)
    ensures { Takes S.holds S.takes_all lines.old lines.new (text_in json (whole_rule cause quote.now)) }
{
    match cause {
        RuleCause::UnknownWord => put_unknown_word(quote, json, lines),
        _ => put_text(json, expected_fields().as_bytes(), lines),
    }
}

// Puts that a word that begins with `@` is unknown.
fn put_unknown_word<S: Stream>(word: &str, json: bool, lines: &mut TextWriter<'_, S>)
    ensures { Takes S.holds S.takes_all lines.old lines.new (text_in json (unknown_word word.now)) }
{
    put_around("unknown word ", word, "", json, lines);
}

// Returns the message that fields are missing.
fn expected_fields() -> &'static str
    ensures { result.now ≡ expected_fields }
{
    "expected five fields and a command"
}

// Puts the error of a field of a cron rule.
fn put_field_message<S: Stream>(
    fault: RuleFault,
    quote: &str,
    json: bool,
    lines: &mut TextWriter<'_, S>,
)
    ensures { Takes S.holds S.takes_all lines.old lines.new (text_in json (field_message fault quote.now)) }
{
    put_text(json, field_name(fault.part).as_bytes(), lines);
    put_text(json, b" ", lines);
    put_quoted(quote, json, lines);
    let wrong = "empty value, or a step after a single value";
    put_problem_after(fault.cause, field_values(fault.part), wrong, json, lines);
}

// Returns the name of a field, by its place from 1.
#[tactic(auto, unfolding(crate::specs::Messages::field_name))]
fn field_name(part: u8) -> &'static str
    ensures { result.now ≡ field_name part }
{
    match part {
        1 => "minute",
        2 => "hour",
        3 => "day of month",
        4 => "month",
        _ => "day of week",
    }
}

// Returns the values of a field, by its place from 1.
#[tactic(auto, unfolding(crate::specs::Messages::field_values))]
fn field_values(part: u8) -> &'static str
    ensures { result.now ≡ field_values part }
{
    match part {
        1 => "0-59",
        2 => "0-23",
        3 => "1-31",
        4 => "1-12",
        _ => "0-7",
    }
}

// ---- events

// Puts the error of an event.
fn put_event_message<S: Stream>(
    fault: RuleFault,
    quote: &str,
    json: bool,
    lines: &mut TextWriter<'_, S>,
)
    ensures { Takes S.holds S.takes_all lines.old lines.new (text_in json (event_message fault quote.now)) }
{
    if fault.part == 0 {
        put_whole_event(fault.cause, quote, json, lines);
    } else {
        put_part_message(fault, quote, json, lines);
    }
}

// Puts the error of a whole event.
fn put_whole_event<S: Stream>(
    cause: RuleCause,
    quote: &str,
    json: bool,
    lines: &mut TextWriter<'_, S>,
)
    ensures { Takes S.holds S.takes_all lines.old lines.new (text_in json (whole_event cause quote.now)) }
{
    match cause {
        RuleCause::Specifier => put_specifiers(quote, json, lines),
        _ => put_no_event(quote, json, lines),
    }
}

// Puts that an event contains specifiers.
fn put_specifiers<S: Stream>(event: &str, json: bool, lines: &mut TextWriter<'_, S>)
    ensures { Takes S.holds S.takes_all lines.old lines.new (text_in json (with_specifiers event.now)) }
{
    put_around("specifiers in ", event, " are not expanded", json, lines);
}

// Puts that a text is no event.
fn put_no_event<S: Stream>(event: &str, json: bool, lines: &mut TextWriter<'_, S>)
    ensures { Takes S.holds S.takes_all lines.old lines.new (text_in json (no_event event.now)) }
{
    put_around("", event, " is not a calendar event", json, lines);
}

// Puts the error of a part of an event.
fn put_part_message<S: Stream>(
    fault: RuleFault,
    quote: &str,
    json: bool,
    lines: &mut TextWriter<'_, S>,
)
    ensures { Takes S.holds S.takes_all lines.old lines.new (text_in json (part_message fault quote.now)) }
{
    put_text(json, part_name(fault.part).as_bytes(), lines);
    put_text(json, b" in ", lines);
    put_quoted(quote, json, lines);
    let wrong = "empty value, or a step after *";
    put_problem_after(fault.cause, part_values(fault.part), wrong, json, lines);
}

// Returns the name of a part, by its place from 1.
#[tactic(auto, unfolding(crate::specs::Messages::part_name))]
fn part_name(part: u8) -> &'static str
    ensures { result.now ≡ part_name part }
{
    match part {
        1 => "weekday",
        2 => "year",
        3 => "month",
        4 => "day",
        5 => "hour",
        6 => "minute",
        7 => "second",
        _ => "time zone",
    }
}

// Returns the values of a part, by its place from 1.
#[tactic(auto, unfolding(crate::specs::Messages::part_values))]
fn part_values(part: u8) -> &'static str
    ensures { result.now ≡ part_values part }
{
    match part {
        2 => "1970-2999",
        3 => "1-12",
        4 => "1-31",
        5 => "0-23",
        _ => "0-59",
    }
}

// ---- parts of rules

// Puts what is wrong with a part, after what the part is.
#[tactic(auto, using(crate::proofs::TextLemmas::text_in_both))]
fn put_problem_after<S: Stream>(
    cause: RuleCause,
    values: &str,
    wrong: &str,
    json: bool,
    lines: &mut TextWriter<'_, S>,
)
    ensures { Takes S.holds S.takes_all lines.old lines.new (text_in json (problem_after cause values.now wrong.now)) }
{
    put_text(json, b": ", lines);
    put_problem(cause, values, wrong, json, lines);
}

// Puts what is wrong with a part, whose possible values are given, and what may not be there.
#[tactic(auto, using(crate::proofs::TextLemmas::text_in_both))]
fn put_problem<S: Stream>(
    cause: RuleCause,
    values: &str,
    wrong: &str,
    json: bool,
    lines: &mut TextWriter<'_, S>,
)
    ensures { Takes S.holds S.takes_all lines.old lines.new (text_in json (problem cause values.now wrong.now)) }
{
    put_text(json, problem_text(cause, wrong).as_bytes(), lines);
    put_text(json, range_of(cause, values).as_bytes(), lines);
}

// Returns what is wrong with a part, before its possible values.
#[tactic(auto, unfolding(crate::specs::Messages::problem_text))]
fn problem_text<'a>(cause: RuleCause, wrong: &'a str) -> &'a str
    ensures { result.now ≡ problem_text cause wrong.now }
{
    match cause {
        RuleCause::Values(SetFault::NoItem) => "no value",
        RuleCause::Values(SetFault::OutOfRange) => "out of range ",
        RuleCause::Values(SetFault::Backwards) => "range runs backwards",
        RuleCause::Values(SetFault::ZeroStep) => "step of zero",
        RuleCause::BadNumber => "not a number of one to four digits",
        RuleCause::BadName => "unknown name",
        RuleCause::Fraction => "fractions are not supported",
        RuleCause::Zone => "only UTC is supported without --event-zones",
        RuleCause::UnknownZone => "unknown",
        _ => wrong,
    }
}

// Returns the possible values of a part, if a value is out of them.
#[tactic(auto, unfolding(crate::specs::Messages::range_of))]
fn range_of<'a>(cause: RuleCause, values: &'a str) -> &'a str
    ensures { result.now ≡ range_of cause values.now }
{
    match cause {
        RuleCause::Values(SetFault::OutOfRange) => values,
        _ => "",
    }
}
