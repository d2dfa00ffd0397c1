//! How days are said: days of the month, weekdays, or both.

ghost use Rattle.std.specs.Prelude.{◌≡◌, IfOk, map};
ghost use Rattle.plan_words.specs.View.{days_of, week_of};
ghost use Rattle.plan_describe.specs.DaysSaid.{both_by, both_said, days_said, either_said, nth_week, week_by, week_round, week_run, week_said, weekday_of};
ghost use Rattle.plan_describe.specs.Said.{set_members};

use crate::dates::{dates_said, nth_week};
use crate::numbers::{has_all, is_whole, members, runs};
use plan_sets::ValueSet;
use plan_words::{Days, Span, Week, Weekday};
use std::alloc::{AllocError, Global};

/// Returns how days are said, by their days of the month or their places from its end, and their weekdays from 0
/// for Monday. With `either`, one of the two is enough to match.
///
/// # Errors
///
/// `AllocError` if an allocation fails.
pub(crate) fn days_said(
    alloc: Global,
    either: bool,
    from_end: bool,
    days: &ValueSet,
    weekdays: &[u16],
) -> Result<Days, AllocError>
    ensures { IfOk result (λ said. days_of said ≡ days_said either from_end (set_members days.now 1 31) weekdays.now) }
{
    if either {
        either_said(alloc, from_end, days, weekdays)
    } else {
        both_said(alloc, from_end, days, weekdays)
    }
}

// Returns how days are said if one of day of the month and weekday is enough.
fn either_said(
    alloc: Global,
    from_end: bool,
    days: &ValueSet,
    weekdays: &[u16],
) -> Result<Days, AllocError>
    ensures { IfOk result (λ said. days_of said ≡ either_said from_end (set_members days.now 1 31) weekdays.now) }
{
    if has_all(days, 1, 32) || is_whole(0, 6, weekdays) {
        return Ok(Days::Any);
    }
    let days = members(alloc, days, 1, 32)?;
    let dates = dates_said(alloc, from_end, &days)?;
    let week = week_said(alloc, weekdays)?;
    Ok(Days::Either { dates, week })
}

// Returns how days are said if day of the month and weekday must both match.
fn both_said(
    alloc: Global,
    from_end: bool,
    days: &ValueSet,
    weekdays: &[u16],
) -> Result<Days, AllocError>
    ensures { IfOk result (λ said. days_of said ≡ both_said from_end (set_members days.now 1 31) weekdays.now) }
{
    let any_weekday = is_whole(0, 6, weekdays);
    if has_all(days, 1, 32) {
        if any_weekday {
            return Ok(Days::Any);
        }
        return Ok(Days::Weekdays(week_said(alloc, weekdays)?));
    }
    let days = members(alloc, days, 1, 32)?;
    if any_weekday {
        return Ok(Days::Dates(dates_said(alloc, from_end, &days)?));
    }
    both_by(alloc, from_end, &days, weekdays)
}

// Returns how days are said by both day of the month and weekday.
fn both_by(
    alloc: Global,
    from_end: bool,
    days: &[u16],
    weekdays: &[u16],
) -> Result<Days, AllocError>
    ensures { IfOk result (λ said. days_of said ≡ both_by (nth_week days.now) from_end days.now weekdays.now) }
{
    if let Some(place) = nth_week(days)
        && let [weekday] = weekdays
    {
        return Ok(Days::Nth {
            place,
            from_end,
            weekday: weekday_of(*weekday),
        });
    }
    let dates = dates_said(alloc, from_end, days)?;
    let week = week_said(alloc, weekdays)?;
    Ok(Days::Both { dates, week })
}

// Returns how weekdays are said.
fn week_said(alloc: Global, weekdays: &[u16]) -> Result<Week, AllocError>
    ensures { IfOk result (λ week. week_of week ≡ week_said weekdays.now) }
{
    let runs = runs(alloc, weekdays)?;
    if let Some(run) = week_run(&runs) {
        return Ok(Week::Run {
            first: weekday_of(run.first),
            last: weekday_of(run.last),
        });
    }
    Ok(Week::List(weekday_list(alloc, weekdays)?))
}

// Returns the weekdays with these numbers.
fn weekday_list(alloc: Global, weekdays: &[u16]) -> Result<Vec<Weekday>, AllocError>
    ensures { IfOk result (λ found. found.items ≡ map weekday_of weekdays.now) }
{
    weekdays
        .iter()
        .map(|weekday| weekday_of(*weekday))
        .collect(alloc)
}

// Returns the one run of three or more weekdays that runs are, from one weekday to another. It can go over Sunday.
fn week_run(runs: &[Span]) -> Option<Span>
    ensures { result ≡ week_run runs.now }
{
    match runs {
        [run] if run.last >= 2 && run.first <= run.last - 2 => Some(*run),
        [start, end] => week_round(*start, *end),
        _ => None,
    }
}

// Returns the run over Sunday that two runs are, one from Monday on and one up to Sunday.
fn week_round(start: Span, end: Span) -> Option<Span>
    ensures { result ≡ week_round start end }
{
    if start.first == 0 && end.last == 6 && start.last < end.first && end.first - start.last <= 5 {
        return Some(Span {
            first: end.first,
            last: start.last,
        });
    }
    None
}

// Returns the weekday with a number from 0 for Monday.
fn weekday_of(number: u16) -> Weekday
    ensures { result ≡ weekday_of number }
{
    match number {
        0 => Weekday::Monday,
        1 => Weekday::Tuesday,
        2 => Weekday::Wednesday,
        3 => Weekday::Thursday,
        4 => Weekday::Friday,
        5 => Weekday::Saturday,
        _ => Weekday::Sunday,
    }
}
