//! The warnings on the lines of crontabs, and on events that never start.

ghost use Rattle.std.specs.Prelude.{◌≡◌, ◌++◌, IfOk, IsOk, None, OnOk};
ghost use Rattle.std.specs.List.{list_any};
ghost use Rattle.std.specs.Str.{bytes_eq};
ghost use Rattle.plan_match.specs.Zone.{rule_in};
ghost use Rattle.plan_check.specs.Warnings.{command_warnings, ends_with_return, is_either_day, is_reboot, is_zone_setting, job_warnings, never_starts, rule_warnings, setting_warnings, warnings_by, zone_names};

use crate::cron_warnings::{add_cron_warnings, add_fault_warnings};
use crate::finding::{Finding, FindingKind, Warning};
use crate::report::add_if;
use plan_clock::Clock;
use plan_cron::has_bare_percent;
use plan_next::next_from;
use plan_rules::{Job, Kind, Rule};
use plan_texts::whole_lines::trimmed;
use std::alloc::{AllocError, Global};

// Adds the warnings on the job of a line with a text, if there is a clock.
pub(crate) fn add_warnings(
    alloc: Global,
    found: &mut Vec<Finding>,
    clock: &Option<Clock>,
    kind: Kind,
    line: u32,
    text: &str,
    job: &Job,
) -> Result<(), AllocError>
    ensures warnings { OnOk result (found.new.items ≡ found.old.items ++ warnings_by clock.now kind line text.now job.now) }
    ensures at_once { clock.now ≡ None → IsOk result }
{
    match clock {
        Some(clock) => add_job_warnings(alloc, found, clock, kind, line, text, job),
        None => Ok(()),
    }
}

// Adds the warnings on the job of a line with a text.
fn add_job_warnings(
    alloc: Global,
    found: &mut Vec<Finding>,
    clock: &Clock,
    kind: Kind,
    line: u32,
    text: &str,
    job: &Job,
) -> Result<(), AllocError>
    ensures { OnOk result (found.new.items ≡ found.old.items ++ job_warnings clock.now kind line text.now job.now) }
{
    add_rule_warnings(alloc, found, clock, line, job.rule())?;
    add_command_warnings(found, line, job.command())?;
    add_cron_warnings(alloc, found, kind, line, text, job)
}

// Adds the warnings on the rule of a line.
fn add_rule_warnings(
    alloc: Global,
    found: &mut Vec<Finding>,
    clock: &Clock,
    line: u32,
    rule: &Rule,
) -> Result<(), AllocError>
    ensures { OnOk result (found.new.items ≡ found.old.items ++ rule_warnings clock.now line rule.now) }
{
    let never_starts = never_starts(alloc, clock, rule)?;
    let never = FindingKind::Warned(Warning::NeverStarts);
    add_if(found, !is_reboot(rule) && never_starts, line, never)?;
    let either = FindingKind::Warned(Warning::EitherDay);
    add_if(found, is_either_day(rule), line, either)
}

// Adds the warnings on the command of a line.
fn add_command_warnings(
    found: &mut Vec<Finding>,
    line: u32,
    command: &str,
) -> Result<(), AllocError>
    ensures { OnOk result (found.new.items ≡ found.old.items ++ command_warnings line command.now) }
{
    let percent = FindingKind::Warned(Warning::Percent);
    add_if(found, has_bare_percent(command.as_bytes()), line, percent)?;
    let ending = FindingKind::Warned(Warning::CarriageReturn);
    add_if(found, ends_with_return(command.as_bytes()), line, ending)
}

// Returns whether a rule never starts from 1970 to 2999, by the clock of a zone.
pub(crate) fn never_starts(alloc: Global, clock: &Clock, rule: &Rule) -> Result<bool, AllocError>
    ensures { IfOk result (λ never. never ≡ never_starts (rule_in clock.now rule.now)) }
{
    let rule = rule.in_zone(alloc, clock)?;
    Ok(next_from(&rule, 0).is_none())
}

// Returns whether this is the rule of `@reboot`.
fn is_reboot(rule: &Rule) -> bool
    ensures { result ≡ is_reboot rule.now }
{
    matches!(rule, Rule::Never)
}

// Returns whether both day fields of a rule are restricted, so either is enough.
fn is_either_day(rule: &Rule) -> bool
    ensures { result ≡ is_either_day rule.now }
{
    match rule {
        Rule::Cron(rule) => rule.month_days_restricted && rule.week_days_restricted,
        Rule::Never | Rule::Events(_) => false,
    }
}

// Returns whether a command ends with a carriage return.
fn ends_with_return(command: &[u8]) -> bool
    ensures { result ≡ ends_with_return command.now }
{
    command.ends_with(b"\r")
}

// Adds the warnings on a line that makes no job, if there is a clock.
pub(crate) fn add_setting_warnings(
    alloc: Global,
    found: &mut Vec<Finding>,
    clock: &Option<Clock>,
    line: u32,
    text: &str,
) -> Result<(), AllocError>
    ensures { OnOk result (found.new.items ≡ found.old.items ++ setting_warnings clock.now line text.now) }
{
    let zone = FindingKind::Warned(Warning::ZoneSetting);
    add_if(found, clock.is_some() && is_zone_setting(text), line, zone)?;
    add_fault_warnings(alloc, found, clock, line, text)
}

// Returns whether a line sets the zone of a crontab.
fn is_zone_setting(line: &str) -> bool
    ensures { result ≡ is_zone_setting line.now }
{
    match line.split_once('=') {
        Some((name, _)) => is_zone_name(trimmed(name)),
        None => false,
    }
}

// Returns whether this is the name of the setting of a zone, in quotes or without.
fn is_zone_name(name: &str) -> bool
    ensures { result ≡ list_any (bytes_eq name.now) zone_names }
{
    matches!(name, "CRON_TZ" | "\"CRON_TZ\"" | "'CRON_TZ'")
}
