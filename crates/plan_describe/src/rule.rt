//! Describes cron rules and calendar events.

ghost use Rattle.std.specs.Prelude.{◌≡◌, ◌+◌, ◌%◌, IfOk, None};
ghost use Rattle.std.specs.List.{range_with_len};
ghost use Rattle.plan_sets.specs.Values.{has_value};
ghost use Rattle.plan_words.specs.Tree.{Scheduled};
ghost use Rattle.plan_words.specs.View.{tree_of};
ghost use Rattle.plan_describe.specs.Said.{cron_said, cron_weekdays, event_said, event_weekdays, is_from_end};

use crate::days::days_said;
use crate::months::{months_said, years_said};
use crate::numbers::members;
use crate::time::time_said;
use plan_match::{Calendar, CronRule, DayCount};
use plan_sets::ValueSet;
use plan_texts::Text;
use plan_words::{Description, Schedule};
use std::alloc::{AllocError, Global};

/// Describes when a cron rule starts its job.
///
/// # Errors
///
/// `AllocError` if an allocation fails.
pub fn describe_cron(alloc: Global, rule: &CronRule) -> Result<Description, AllocError>
    ensures { IfOk result (λ description. tree_of description ≡ Scheduled (cron_said rule.now)) }
{
    let minutes = members(alloc, &rule.minutes, 0, 60)?;
    let hours = members(alloc, &rule.hours, 0, 24)?;
    let weekdays = cron_weekdays(alloc, &rule.week_days)?;
    let either = rule.month_days_restricted && rule.week_days_restricted;
    Ok(Description::Scheduled(Schedule {
        time: time_said(alloc, &[0], &minutes, &hours)?,
        days: days_said(alloc, either, false, &rule.month_days, &weekdays)?,
        months: months_said(alloc, &rule.months)?,
        years: None,
        zone: None,
    }))
}

// Returns the weekdays of a cron rule from 0 for Monday, given those from 0 for Sunday.
fn cron_weekdays(alloc: Global, values: &ValueSet) -> Result<Vec<u16>, AllocError>
    ensures { IfOk result (λ found. found.items ≡ cron_weekdays values.now) }
{
    (0..7u16)
        .filter(|weekday| values.contains((*weekday + 1) % 7))
        .collect(alloc)
}

/// Describes when a calendar event starts its job. `zone` is the name of the zone that the event ends with, if any.
///
/// # Errors
///
/// `AllocError` if an allocation fails.
pub fn describe_event(
    alloc: Global,
    event: &Calendar,
    zone: Option<Text>,
) -> Result<Description, AllocError>
    ensures { IfOk result (λ description. tree_of description ≡ Scheduled (event_said event.now zone)) }
{
    let seconds = members(alloc, &event.seconds, 0, 60)?;
    let minutes = members(alloc, &event.minutes, 0, 60)?;
    let hours = members(alloc, &event.hours, 0, 24)?;
    let weekdays = event_weekdays(alloc, &event.weekdays)?;
    let from_end = is_from_end(event.day_count);
    Ok(Description::Scheduled(Schedule {
        time: time_said(alloc, &seconds, &minutes, &hours)?,
        days: days_said(alloc, false, from_end, &event.days, &weekdays)?,
        months: months_said(alloc, &event.months)?,
        years: years_said(alloc, &event.years)?,
        zone,
    }))
}

// Returns the weekdays of an event, or all of them if it has no weekday part.
fn event_weekdays(alloc: Global, weekdays: &Option<ValueSet>) -> Result<Vec<u16>, AllocError>
    ensures { IfOk result (λ found. found.items ≡ event_weekdays weekdays.now) }
{
    match weekdays {
        Some(values) => members(alloc, values, 0, 7),
        None => all_weekdays(alloc),
    }
}

// Returns all weekdays.
fn all_weekdays(alloc: Global) -> Result<Vec<u16>, AllocError>
    ensures { IfOk result (λ found. found.items ≡ range_with_len 0 7) }
{
    Vec::from_slice(alloc, &[0, 1, 2, 3, 4, 5, 6])
}

// Returns whether days are counted from the end of the month.
fn is_from_end(count: DayCount) -> bool
    ensures { result ≡ is_from_end count }
{
    match count {
        DayCount::FromStart => false,
        DayCount::FromEnd => true,
    }
}
