//! Writes the next starts of one rule.

ghost use Rattle.std.specs.Prelude.{◌≡◌, IfErr, IfOk, IsTrue, OnOk};
ghost use Rattle.agenda_commands.specs.Command.{Outputs, OutputsAnswer};
ghost use Rattle.agenda_commands.specs.Next.{asked_reading, asked_rule, next_output, valid_count};
ghost use Rattle.agenda_commands.specs.NextTable.{AnswersStarts, AnswersRule, counted_rule, next_starts};
ghost use Rattle.agenda_faults.specs.declared.faults.RunFault.TheVariants.{NoMemory};
ghost use Rattle.agenda_table.specs.Dates.{AreInYears};
ghost use Rattle.plan_rules.specs.Readings.{Gives};
ghost use Rattle.plan_texts.specs.Steps.{GivesUnless};

use crate::prepare::Form;
use crate::table::{TableForm, starts_table};
use agenda_faults::RunFault;
use agenda_sources::{Asked, TimeZones};
use plan_next::next_start;
use plan_rules::{EventZones, Rule, RuleFault, calendar_rule, cron_rule};
use plan_streams::Stream;
use plan_write::{Format, write_next};
use std::alloc::{AllocError, Global};

/// The maximum number of starts that can be requested.
pub const MOST_STARTS: u64 = 1_000;

/// Writes the first `count` starts of a rule that are later than `after`, one timestamp per line. `after` is
/// in seconds since 1970-01-01T00:00:00Z. If the rule has fewer starts, the line `none` follows them. The rule starts in
/// these time zones.
///
/// # Errors
///
/// `BadCount` if the count is outside 1 to 1,000; then `Rule` if the text isn't a rule, or `NoMemory` if an
/// allocation failed. Nothing is written then. `Device` if the stream failed, which then accepted the first
/// bytes of the text.
pub fn run_next<S: Stream>(
    alloc: Global,
    asked: &Asked,
    zones: &TimeZones,
    after: u64,
    count: u64,
    format: &Format,
    out: &mut S,
) -> Result<(), RunFault>
    ensures output { Outputs S.takes_all (next_output zones.now asked.now after count format.now) result (S.holds out.old) (S.holds out.new) }
    ensures flushed { OnOk result (IsTrue (S.is_flushed out.new)) }

    // A bad count is found before anything else, and before memory is allocated.
    ensures bad_count { IfErr (valid_count count) (λ fault. result ≡ Err fault) }
{
    if count == 0 || count > MOST_STARTS {
        return Err(RunFault::BadCount);
    }
    let rule = zoned_rule(alloc, asked, zones)?;
    write_next(&rule, after, count, format, out)?;
    Ok(())
}

// Reads the requested rule, for these time zones.
fn zoned_rule(alloc: Global, asked: &Asked, zones: &TimeZones) -> Result<Rule, RuleFault>
    ensures { Gives result (asked_reading zones.now asked.now) }
{
    let rule = asked_rule(alloc, asked, &zones.timers.zones)?;
    Ok(rule.in_zone(alloc, &zones.clock)?)
}

// Reads the requested rule, in UTC unless it names a zone.
fn asked_rule(alloc: Global, asked: &Asked, zones: &EventZones) -> Result<Rule, RuleFault>
    ensures { Gives result (asked_rule zones.now asked.now) }
{
    match asked {
        Asked::Cron(text) => cron_rule(alloc, text.as_str()),
        Asked::Event(text) => calendar_rule(alloc, text.as_str(), zones),
    }
}

/// Writes the next starts of a rule in a form. Lines are those of `run_next`. A table has the same starts, and all of them are
/// found before its first byte is written.
///
/// # Errors
///
/// Those of `run_next`. A table needs memory for its starts.
pub fn run_next_form<S: Stream>(
    alloc: Global,
    asked: &Asked,
    zones: &TimeZones,
    after: u64,
    count: u64,
    form: &Form,
    out: &mut S,
) -> Result<(), RunFault>
    ensures output { OutputsAnswer S.takes_all (AnswersStarts form.now zones.now asked.now after count) result
        (S.holds out.old) (S.holds out.new) }
    ensures flushed { OnOk result (IsTrue (S.is_flushed out.new)) }

    // A bad count is found before anything else, and before memory is allocated.
    ensures bad_count { IfErr (valid_count count) (λ fault. result ≡ Err fault) }
{
    match form {
        Form::Lines(format) => run_next(alloc, asked, zones, after, count, format, out),
        Form::Table(form) => run_next_table(alloc, asked, zones, after, count, form, out),
    }
}

// Writes the next starts of a rule as a table.
fn run_next_table<S: Stream>(
    alloc: Global,
    asked: &Asked,
    zones: &TimeZones,
    after: u64,
    count: u64,
    form: &TableForm,
    out: &mut S,
) -> Result<(), RunFault>
    ensures output { OutputsAnswer S.takes_all (AnswersRule form.now after count (counted_rule zones.now asked.now count)) result
        (S.holds out.old) (S.holds out.new) }
    ensures flushed { OnOk result (IsTrue (S.is_flushed out.new)) }
    ensures bad_count { IfErr (valid_count count) (λ fault. result ≡ Err fault) }
{
    let rule = counted_rule(alloc, asked, zones, count)?;
    let starts = next_starts(alloc, &rule, after, count)?;
    let table = starts_table(alloc, starts, after, count, form)?;
    table.write(form, out)?;
    Ok(())
}

// Reads the requested rule, for these time zones, if the count is valid.
fn counted_rule(
    alloc: Global,
    asked: &Asked,
    zones: &TimeZones,
    count: u64,
) -> Result<Rule, RunFault>
    ensures rule { GivesUnless NoMemory (λ rule. rule) result (counted_rule zones.now asked.now count) }
    ensures bad_count { IfErr (valid_count count) (λ fault. result ≡ Err fault) }
{
    if count == 0 || count > MOST_STARTS {
        return Err(RunFault::BadCount);
    }
    let rule = zoned_rule(alloc, asked, zones)?;
    Ok(rule)
}

// Returns the first `count` starts of a rule that are later than `after`, or all of them if there are fewer.
fn next_starts(alloc: Global, rule: &Rule, after: u64, count: u64) -> Result<Vec<u64>, AllocError>
    ensures starts { IfOk result (λ found. found.items ≡ next_starts rule.now after count) }
    ensures years { IfOk result (λ found. AreInYears found.items) }
{
    let mut found = Vec::new(alloc);
    let mut latest = after;
    for _listed in 0..count {
        let Some(start) = next_start(rule, latest) else {
            return Ok(found);
        };
        found.push(start)?;
        latest = start;
    }
    Ok(found)
}
